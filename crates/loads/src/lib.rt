// A load that everybody can make again: records made from a seed, written into a lent buffer.
#![tactic(auto)]

ghost use Rattle.std.specs.Prelude.{◌+◌, ◌*◌, ◌≤◌, ◌≡◌, length};
ghost use Rattle.model.specs.Refusals.{refusal_number, refusal_in};
ghost use Rattle.model.specs.Written.{written};
ghost use Rattle.loads.specs.Generator.{step, next, record_from, records_from, state_after};
ghost use Rattle.loads.specs.Loads.{load_refusal, loaded, refused_load, load_of};
ghost use Rattle.loads.specs.Promises.{GoesOn, NoneDraws};

use model::Refusal;

// What a step xors where the bit that it drops was 1.
const FEEDBACK: u32 = 0x80200003;

// What a load gives beside the bytes: its refusal, 0 if none, the state after the last record, and how many were made. The refusal is a
// number: the C interface has a byte there.
#[repr(C)]
#[derive(Clone, Copy)]
pub struct LoadReply {
    pub refusal: u8,
    pub state: u32,
    pub count: usize,
}

// One step of the generator.
pub fn step(state: u32) -> u32
    ensures { result ≡ step state }
{
    if state % 2 == 1 {
        return state / 2 ^ FEEDBACK;
    }
    state / 2
}

// Writes the record that a state makes under a table of n screens. Yields the state after its three steps.
fn write_record(out: &mut [u8], at: usize, n: u8, state: u32) -> u32
    requires { (1 ≤ n) × (at + 6 ≤ length out.old) }
    ensures state { result ≡ next state }
    ensures bytes { out.new ≡ written out.old at (record_from n state) }
{
    let first = step(state);
    let second = step(first);
    let third = step(second);
    let kind = (first % 5 + 1) as u8;
    let screen = (second % u32::from(n)) as u8;
    records::write(out, at, kind, screen, third & flags::SEVEN);
    third
}

// Writes so many records from the start of the buffer on. Yields the state after the last.
fn fill(out: &mut [u8], count: usize, n: u8, seed: u32) -> u32
    requires { (1 ≤ n) × (6 * count ≤ length out.old) }
    ensures state { result ≡ state_after seed count }
    ensures bytes { out.new ≡ written out.old 0 (records_from n seed count) }
{
    let mut state = seed;
    for i in 0..count {
        state = write_record(out, 6 * i, n, state);
    }
    state
}

// Refuses a bad table, and then the seed 0.
pub fn check(table: &[u8], seed: u32) -> Result<(), Refusal>
    ensures { refusal_in result ≡ load_refusal table.now seed }
{
    table::check(table)?;
    if seed == 0 {
        return Err(Refusal::SeedZero);
    }
    Ok(())
}

fn refuse(refusal: Refusal) -> LoadReply
    ensures { result ≡ refused_load (refusal_number refusal) }
{
    LoadReply {
        refusal: refusal.number(),
        state: 0,
        count: 0,
    }
}

// Fills the buffer with as many whole records as fit; the bytes beyond them stay. A refused load writes nothing.
pub fn load(table: &[u8], seed: u32, out: &mut [u8]) -> LoadReply
    ensures gives { loaded result out.new ≡ load_of table.now seed out.old }
    ensures goes_on { GoesOn table.now seed (loaded result out.new) }
    ensures draws { NoneDraws table.now (loaded result out.new) }
{
    if let Err(refusal) = check(table, seed) {
        return refuse(refusal);
    }
    let count = out.len() / records::LENGTH;
    let state = fill(out, count, table::size(table), seed);
    LoadReply {
        refusal: 0,
        state,
        count,
    }
}
