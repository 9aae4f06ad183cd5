// What programs on recordings read and write: a table, blocks of bytes, text, arguments. What cannot be read or written is told on
// standard error; a line there that begins with `warning: ` changes nothing.
#![tactic(auto)]

ghost use Rattle.std.specs.Prelude.{◌≤◌, length};
ghost use Rattle.reading.specs.Blocks.{IsPrefixLen};
ghost use Rattle.model.specs.Table.{longest_table};

use std::env::FillError;
use std::io;
use std::io::{Cursor, ErrorKind, Write};
use std::rt::Env;
use table::NoTable;

// A block is so many records, of 6 bytes each (`most_records` in `specs/Blocks`); none stands in two blocks.
pub const RECORDS: usize = 10000;

pub const BLOCK: usize = 6 * RECORDS;

// No input has so many blocks.
pub const BLOCKS: usize = 1000000000000000;

// What was read: how many bytes, and whether reading failed behind them. No `Result`: what was read before a failure is played too.
#[derive(Clone, Copy)]
pub struct Read {
    pub count: usize,
    pub failed: bool,
}

// ---- what is told

// The longest text of an error, and more.
const LONGEST_ERROR: usize = 256;

// Says what failed and why.
pub fn fail(rt: &impl Eprint, what: &str, why: io::Error) {
    let mut text = Cursor::new([0u8; LONGEST_ERROR]);
    let _ = write!(text, "{why}");
    let bytes = text.into_inner();
    let said = std::str::from_utf8(&bytes).unwrap_or("");
    let reason = match said.split_once(" (os error ") {
        Some((reason, _)) => reason,
        None => said.trim_end_matches('\0'),
    };
    let _ = eprintln!(rt; "{what}: {reason}");
}

// Says why an argument cannot be had.
pub fn fail_argument(rt: &impl Eprint, why: FillError) {
    let reason = match why {
        FillError::NotPresent => "Invalid argument",
        FillError::TooLong => "File name too long",
    };
    let _ = eprintln!(rt; "argument: {reason}");
}

// Warns that an input begins with no table.
pub fn warn_no_table(rt: &impl Eprint) {
    let _ = eprintln!(rt; "warning: the input begins with no table (refusal 1)");
}

// ---- what is read and written

// The program has an argument at this place.
pub fn has_argument(rt: &impl Env, place: usize) -> bool {
    !matches!(rt.arg(place, &mut []), Err(FillError::NotPresent))
}

// Reads until the buffer is full, the input ends or a read fails, and yields how many bytes stand at its start. Not by
// `read_exact`, which does not say how many they are where it fails; and in a `while`, since each read says how far it came.
pub fn read_full<R: io::Read>(from: &mut R, buffer: &mut [u8]) -> usize
    ensures { IsPrefixLen result buffer.new }
{
    let mut done = 0;
    while done < buffer.len() {
        match from.read(&mut buffer[done..]) {
            Ok(0) => return done,
            Ok(n) => done += n,
            Err(_) => return done,
        }
    }
    done
}

// Nothing more can be read, though the input is not at its end; it says why.
fn fails<R: io::Read>(rt: &impl Eprint, from: &mut R) -> bool {
    let mut beyond = [0u8; 1];
    match from.read(&mut beyond) {
        Ok(_) => false,
        Err(why) => {
            fail(rt, "input", why);
            true
        }
    }
}

// Reads until the buffer is full or the input ends.
pub fn read_block<R: io::Read>(rt: &impl Eprint, from: &mut R, buffer: &mut [u8]) -> Read
    ensures { IsPrefixLen result.count buffer.new }
{
    let count = read_full(from, buffer);
    Read {
        count,
        failed: count < buffer.len() && fails(rt, from),
    }
}

// Reads a table to the start of the buffer: two bytes, and then as many as its N says.
pub fn read_table<R: io::Read>(rt: &impl Eprint, from: &mut R, buffer: &mut [u8]) -> Read
    requires { longest_table ≤ length buffer.old }
    ensures { result.count ≤ longest_table }
{
    let first = read_block(rt, from, &mut buffer[..2]);
    let got = first.count;
    let Err(NoTable::Cut(long)) = table::beginning_of(&buffer[..got]) else {
        return first;
    };
    if first.failed {
        return first;
    }
    let rest = read_block(rt, from, &mut buffer[got..long]);
    Read {
        count: got + rest.count,
        failed: rest.failed,
    }
}

// Writes text to standard output and yields whether it went. It says why not, but where nobody reads on.
pub fn print(rt: &(impl Print + Eprint), text: &[u8]) -> bool {
    match rt.write_all(text) {
        Ok(()) => true,
        Err(why) => {
            if why.kind() != ErrorKind::BrokenPipe {
                fail(rt, "standard output", why);
            }
            false
        }
    }
}
