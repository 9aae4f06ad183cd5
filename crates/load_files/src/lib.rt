// The program `load`: a table from standard input, and the records that a seed makes, to standard output.
// It only reads, calls and writes, in blocks; what the records are is the business of `loads`. Memory does not grow. What it does
// not take, and what cannot be read or written, is told on standard error.

#![tactic(auto)]

ghost use Rattle.std.specs.Prelude.{◌<◌, ◌/◌, ◌%◌, ◌^◌, ◌*◌, ◌≡◌, false, true, length, IfSome, IsSome};
ghost use Rattle.reading.specs.Blocks.{most_records};
ghost use Rattle.loads.specs.Generator.{state_after};
ghost use Rattle.loads.specs.Loads.{load_refusal};
ghost use Rattle.load_files.specs.Blocks.{block_of, MakesBlock};
ghost use Rattle.load_files.specs.Numbers.{number_in, hex_digit};

use loads::LoadReply;
use reading::{BLOCK, RECORDS};
use std::io::Read;
use std::rt::Env;

// ---- arguments

// The most records of a load.
const MOST: u64 = 1000000000000;

// What is written of a load: table and records, the records alone, or the last state alone.
#[derive(Clone, Copy)]
pub enum Part {
    Whole,
    Records,
    State,
}

// The number up to the most that digits in base ten stand for. Not by `parse`, which takes a sign too.
fn number_in(text: &[u8]) -> Option<u64>
    ensures { result ≡ number_in text.now }
{
    if text.is_empty() {
        return None;
    }
    let mut value: u64 = 0;
    for byte in text {
        let digit = match byte {
            b'0'..=b'9' => byte - b'0',
            _ => return None,
        };
        value = 10 * value + u64::from(digit);
        if value > MOST {
            return None;
        }
    }
    Some(value)
}

// The number that an argument is.
fn number_asked(rt: &impl Env, place: usize) -> Option<u64> {
    let mut text = [0u8; 4096];
    let n = rt.arg(place, &mut text).unwrap_or(0);
    number_in(&text[..n])
}

// The part that the third argument names; the whole where there is none.
fn part_asked(rt: &impl Env) -> Option<Part> {
    if !reading::has_argument(rt, 3) {
        return Some(Part::Whole);
    }
    let mut word = [0u8; 4096];
    let n = rt.arg(3, &mut word).unwrap_or(0);
    match &word[..n] {
        b"--records" => Some(Part::Records),
        b"--state" => Some(Part::State),
        _ => None,
    }
}

// ---- blocks

// How many records of those that are left the next block has. By casts: `u64` and `usize` have no `From` to each other.
fn block_of(left: u64) -> usize
    ensures { result ≡ block_of left }
{
    left.min(RECORDS as u64) as usize
}

// Makes the next block of the records that are left, at the start of the buffer.
fn make_block(table: &[u8], state: u32, left: u64, buffer: &mut [u8]) -> LoadReply
    requires state_value { load_refusal table.now state ≡ 0 }
    requires buffer_len { length buffer.old ≡ 6 * most_records }
    ensures { MakesBlock table.now state left buffer.new result }
{
    let end = records::LENGTH * block_of(left);
    loads::load(table, state, &mut buffer[..end])
}

// Writes a block where that is asked for, and yields whether the load goes on. Asked by a flag: where it is not, none fails.
fn give(rt: &(impl Print + Eprint), writes: bool, block: &[u8]) -> bool
    ensures { writes ≡ false → result ≡ true }
{
    !writes || reading::print(rt, block)
}

// Makes so many records, block after block, each from the state after the one before, and writes them where that is asked for.
// Yields the last state, where all of it was made. In a `while`: each block says how many of the records it has.
fn run(
    rt: &(impl Print + Eprint),
    table: &[u8],
    seed: u32,
    records: u64,
    writes: bool,
) -> Option<u32>
    requires { load_refusal table.now seed ≡ 0 }
    ensures done { writes ≡ false → IsSome result }
    ensures last { IfSome result (λ state. state ≡ state_after seed records) }
{
    let mut state = seed;
    let mut left = records;
    let mut buffer = [0u8; BLOCK];
    while left > 0 {
        let made = make_block(table, state, left, &mut buffer);
        let end = records::LENGTH * made.count;
        if !give(rt, writes, &buffer[..end]) {
            return None;
        }
        state = made.state;
        left -= made.count as u64;
    }
    Some(state)
}

// The state after so many records.
fn last_state(rt: &(impl Print + Eprint), table: &[u8], seed: u32, records: u64) -> u32
    requires { load_refusal table.now seed ≡ 0 }
    ensures { result ≡ state_after seed records }
{
    run(rt, table, seed, records, false).unwrap()
}

// The digit of a state in hex at a place, counted from its last. By hand: `hex_digit` and the wrong version of its letters stay. It is
// below 16, and `From` does not narrow.
fn digit(state: u32, place: u32) -> u8
    requires { place < 8 }
    ensures { result ≡ hex_digit (state / 2 ^ (4 * place) % 16) }
{
    let x = (state >> (4 * place)) % 16;
    if x < 10 {
        return b'0' + x as u8;
    }
    b'a' + (x - 10) as u8
}

// Prints a state in hex.
fn print_state(rt: &(impl Print + Eprint), state: u32) {
    // One by one: by `map` over the places, the goal that each is below 8 did not close.
    let line = [
        digit(state, 7),
        digit(state, 6),
        digit(state, 5),
        digit(state, 4),
        digit(state, 3),
        digit(state, 2),
        digit(state, 1),
        digit(state, 0),
    ];
    let _ = reading::print(rt, b"0x") && reading::print(rt, &line) && reading::print(rt, b"\n");
}

// Writes the part of a load that is asked for.
fn write_part(rt: &(impl Print + Eprint), table: &[u8], seed: u32, records: u64, part: Part)
    requires { load_refusal table.now seed ≡ 0 }
{
    match part {
        Part::Whole => {
            if reading::print(rt, table) {
                run(rt, table, seed, records, true);
            }
        }
        Part::Records => {
            run(rt, table, seed, records, true);
        }
        Part::State => {
            print_state(rt, last_state(rt, table, seed, records));
        }
    }
}

// The load of the table that a reader gives first. What is read and written no contract can say; what the records are
// stands in `loads`.
pub fn load_from<R: Read>(
    rt: &(impl Print + Eprint),
    from: &mut R,
    seed: u32,
    records: u64,
    part: Part,
) {
    let mut buffer = [0u8; table::LONGEST];
    let read = reading::read_table(rt, from, &mut buffer);
    if read.failed {
        return;
    }
    let got = read.count;
    if let Err(refusal) = loads::check(&buffer[..got], seed) {
        let _ = eprintln!(rt; "load refused: {}", refusal.number());
        return;
    }
    write_part(rt, &buffer[..got], seed, records, part);
}

// The same, as the program's arguments ask for it: a seed, how many records, and a part. Yields whether they
// are such.
pub fn load_asked<R: Read>(rt: &(impl Env + Print + Eprint), from: &mut R) -> bool {
    if reading::has_argument(rt, 4) {
        return false;
    }
    let (Some(seed), Some(records), Some(part)) = (
        number_asked(rt, 1),
        number_asked(rt, 2),
        part_asked(rt),
    ) else {
        return false;
    };
    let Ok(seed) = u32::try_from(seed) else {
        return false;
    };
    load_from(rt, from, seed, records, part);
    true
}
