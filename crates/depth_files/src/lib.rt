// `depth`: a table and then records from a file, and the line of their report on standard output.
// It only reads, calls and writes, in blocks; what it writes is the business of `depths` and `tally`. Memory does not grow.
// What cannot be read or written is told on standard error, and what cannot be read has no report; a line there that begins
// with `warning: ` changes nothing.

#![tactic(auto)]

ghost use Rattle.std.specs.Prelude.{◌*◌, ◌≡◌, length};
ghost use Rattle.play.specs.Playable.{Playable};
ghost use Rattle.reading.specs.Blocks.{most_records};
ghost use Rattle.depth_files.specs.Turns.{Turns};

use reading::{BLOCK, BLOCKS};
use session::Session;
use std::io::Read;
use tally::Tally;

// What is left after a block: how many bytes were read, the session, the tally, how many records the block has, whether
// reading failed, and whether the input may go on. No `Result`: `Turns` tells of the session and the tally either way.
#[derive(Clone, Copy)]
struct Turned {
    count: usize,
    session: Session,
    tally: Tally,
    records: usize,
    failed: bool,
    more: bool,
}

// Reads one block of records into a lent buffer and tallies it. The clause on the session is handed on to `depths::tally_records`.
fn turn<R: Read>(
    rt: &impl Eprint,
    from: &mut R,
    table: &[u8],
    s: Session,
    t: Tally,
    input: &mut [u8],
) -> Turned
    requires playable { Playable table.now s }
    requires input_len { length input.old ≡ 6 * most_records }
    ensures { Turns table.now s t input.new result }
{
    let read = reading::read_block(rt, from, input);
    let got = read.count;
    let done = depths::tally_records(table, s, t, &input[..got]);
    let records = depths::count_records(&input[..got]);
    Turned {
        count: got,
        session: done.session,
        tally: done.tally,
        records,
        failed: read.failed,
        more: got == BLOCK,
    }
}

// Warns of calls that the report leaves out.
fn warn(rt: &impl Eprint, left: usize) {
    if left == 0 {
        return;
    }
    let _ = eprintln!(rt;
        "warning: calls behind the first 65535, which the report leaves out: {left}"
    );
}

// Prints the report of a tally of so many calls.
fn finish(rt: &(impl Print + Eprint), t: Tally, calls: usize) {
    let mut line = [0u8; depths::LONGEST];
    let long = depths::write_report(&mut line, t.report());
    if reading::print(rt, &line[..long]) {
        warn(rt, depths::left_out(calls, t));
    }
}

// Tallies block after block from a fresh session. No input has as many blocks as it goes on for. The loop of `player_files` is no
// twin: the two share `read_block`, and one for both would take what is kept, the step and both ends from the caller.
fn run<R: Read>(rt: &(impl Print + Eprint), from: &mut R, table: &[u8]) {
    let mut s = Session::fresh();
    let mut t = Tally::none();
    let mut calls: usize = 0;
    let mut input = [0u8; BLOCK];
    for _block in 0..BLOCKS {
        let r = turn(rt, from, table, s, t, &mut input);
        if r.failed {
            return;
        }
        s = r.session;
        t = r.tally;
        calls += r.records;
        if !r.more {
            finish(rt, t, calls);
            return;
        }
    }
}

// Reports on what a reader gives: the table, then the records. What is read and written no contract can say; what
// the line is stands in `depths`, what its numbers are in `tally`.
pub fn report_on<R: Read>(rt: &(impl Print + Eprint), from: &mut R) {
    let mut buffer = [0u8; table::LONGEST];
    let read = reading::read_table(rt, from, &mut buffer);
    if read.failed {
        return;
    }
    let Ok(long) = table::beginning_of(&buffer[..read.count]) else {
        finish(rt, Tally::none(), 0);
        reading::warn_no_table(rt);
        return;
    };
    run(rt, from, &buffer[..long]);
}
