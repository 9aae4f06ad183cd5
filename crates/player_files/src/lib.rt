// The player and `explain`: a table and then records from a file, a line of text for each record on standard output.
// It only reads, calls and writes, in blocks; what it writes is the business of `play`, `explained` and `input`. Memory does
// not grow.
// What cannot be read or written is told on standard error; a line there that begins with `warning: ` changes nothing.

#![tactic(auto)]

ghost use Rattle.std.specs.Prelude.{ℕ, ◌+◌, ◌*◌, ◌≤◌, ◌≡◌, List, ◌++◌, length};
ghost use Rattle.model.specs.Player.{records_in};
ghost use Rattle.notes.specs.Places.{Tells};
ghost use Rattle.play.specs.Playable.{Playable};
ghost use Rattle.player_files.specs.Restores.{restores_from, behind};
ghost use Rattle.reading.specs.Blocks.{most_records};
ghost use Rattle.player_files.specs.Turns.{Says, Turns};

use notes::Notes;
use play::Played;
use reading::{BLOCK, BLOCKS, RECORDS};
use session::Session;
use std::io::Read;

// ---- kind 6, which is the restore of `same` and no record of the player

// The records of kind 6 in a block: how many, and the number of the first in the block, counted from 1. A place is counted by hand:
// with `chunks(6).enumerate()` the player passes its bound of instructions a record.
fn restores(block: &[u8]) -> Notes
    ensures { Tells (restores_from 1 (records_in block.now)) result }
{
    let mut met = Notes::none();
    let mut i: usize = 1;
    let mut p: usize = 0;
    while p < block.len() {
        met = met.noted(block[p] == 6, i);
        if block.len() - p <= 6 {
            return met;
        }
        i += 1;
        p += 6;
    }
    met
}

// Both notes as one, where the second are of records behind so many others.
fn joined(met: Notes, others: usize, then: Notes) -> Notes
    requires { (met.count + then.count ≤ 0xFFFFFFFFFFFFFFFF) × (others + then.first ≤ 0xFFFFFFFFFFFFFFFF) }
    ensures both { (ps qs : List ℕ) → Tells ps met → Tells qs then → Tells (ps ++ behind others qs) result }
    ensures sum { result.count ≡ met.count + then.count }
{
    if then.count == 0 {
        return met;
    }
    if met.count == 0 {
        return Notes {
            count: then.count,
            first: others + then.first,
        };
    }
    Notes {
        count: met.count + then.count,
        first: met.first,
    }
}

// Warns of records of kind 6.
fn warn(rt: &impl Eprint, met: Notes) {
    if met.count == 0 {
        return;
    }
    let _ = eprintln!(rt;
        "warning: records of kind 6, a restore in recordings for `same` and unknown to the player: {}, the first on line {}",
        met.count, met.first
    );
}

// ---- blocks

// What is said of each record: the player's line alone; or the reason too, under that of a start; or that with its sentence.
// Three of `play::Manner`'s: in the fourth nothing is said.
#[derive(Clone, Copy)]
pub enum Manner {
    Lines,
    Reasons,
    Sentences,
}

// What saying a block leaves: the session, and whether all of it was written. No `Result`: `Says` tells of the session either way.
#[derive(Clone, Copy)]
struct Said {
    session: Session,
    went: bool,
}

// Prints what was played, which stands at the start of the buffer.
fn print_played(rt: &(impl Print + Eprint), played: Played, output: &[u8]) -> Said
    requires { played.written ≤ length output.now }
    ensures { result.session ≡ played.session }
{
    Said {
        session: played.session,
        went: reading::print(rt, &output[..played.written]),
    }
}

// Says the player's lines of a block. A function of its own: a body over both, by `play::run`, passes by the contracts of `play::play`
// and `explained::explain`. The clause on the session is handed on to these.
fn say_lines(rt: &(impl Print + Eprint), table: &[u8], s: Session, block: &[u8]) -> Said
    requires playable { Playable table.now s }
    requires block_len_bound { length (records_in block.now) ≤ most_records }
    ensures { Says table.now s block.now result }
{
    let mut output = [0u8; line::LONGEST * RECORDS];
    let played = play::play(table, s, block, &mut output);
    print_played(rt, played, &output)
}

// Says them and the reasons of starts.
fn say_reasons(
    rt: &(impl Print + Eprint),
    table: &[u8],
    s: Session,
    block: &[u8],
    words: bool,
) -> Said
    requires playable { Playable table.now s }
    requires block_len_bound { length (records_in block.now) ≤ most_records }
    ensures { Says table.now s block.now result }
{
    let mut output = [0u8; explained::LONGEST * RECORDS];
    let played = explained::explain(table, s, block, words, &mut output);
    print_played(rt, played, &output)
}

// Says a block in this manner.
fn say(rt: &(impl Print + Eprint), table: &[u8], s: Session, block: &[u8], manner: Manner) -> Said
    requires playable { Playable table.now s }
    requires block_len_bound { length (records_in block.now) ≤ most_records }
    ensures { Says table.now s block.now result }
{
    match manner {
        Manner::Lines => say_lines(rt, table, s, block),
        Manner::Reasons => say_reasons(rt, table, s, block, false),
        Manner::Sentences => say_reasons(rt, table, s, block, true),
    }
}

// What is left after a block: how many bytes were read, the session, the block's records of kind 6, and whether to go on. No
// `Option`: `Turns` tells of the session either way.
#[derive(Clone, Copy)]
struct Turned {
    count: usize,
    session: Session,
    restores: Notes,
    more: bool,
}

// Reads one block of records into a lent buffer and plays it. It goes on unless the input ended in it or what it says cannot
// be written.
fn turn<R: Read>(
    rt: &(impl Print + Eprint),
    from: &mut R,
    table: &[u8],
    s: Session,
    manner: Manner,
    input: &mut [u8],
) -> Turned
    requires playable { Playable table.now s }
    requires input_len { length input.old ≡ 6 * most_records }
    ensures { Turns table.now s input.new result }
{
    let got = reading::read_block(rt, from, input).count;
    let met = restores(&input[..got]);
    let said = say(rt, table, s, &input[..got], manner);
    Turned {
        count: got,
        session: said.session,
        restores: met,
        more: said.went & (got == BLOCK),
    }
}

// Plays block after block from a fresh session. No input has as many blocks as it goes on for.
fn run<R: Read>(rt: &(impl Print + Eprint), from: &mut R, table: &[u8], manner: Manner) {
    let mut s = Session::fresh();
    let mut met = Notes::none();
    let mut input = [0u8; BLOCK];
    for block in 0..BLOCKS {
        let t = turn(rt, from, table, s, manner, &mut input);
        s = t.session;
        met = joined(met, RECORDS * block, t.restores);
        if !t.more {
            warn(rt, met);
            return;
        }
    }
}

// Says that there is no table, and warns of it where reading did not fail.
fn stop(rt: &(impl Print + Eprint), failed: bool) {
    let mut line = [0u8; line::LONGEST];
    let long = input::write_stop(&mut line);
    let went = reading::print(rt, &line[..long]);
    if went & !failed {
        reading::warn_no_table(rt);
    }
}

// Plays what a reader gives, in this manner: the table, then the records. What is read and written no contract can
// say; what the player's text is stands in `input`, what a block gives in `play` and `explained`.
pub fn play_from<R: Read>(rt: &(impl Print + Eprint), from: &mut R, manner: Manner) {
    let mut buffer = [0u8; table::LONGEST];
    let read = reading::read_table(rt, from, &mut buffer);
    let Ok(long) = table::beginning_of(&buffer[..read.count]) else {
        stop(rt, read.failed);
        return;
    };
    run(rt, from, &buffer[..long], manner);
}
