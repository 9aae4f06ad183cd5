// Records as bytes, six each: kind, screen, flag word high byte first; and the call that a record asks for.
#![tactic(auto)]

ghost use Rattle.std.specs.Prelude.{◌+◌, ◌<◌, ◌≤◌, min, ◌≡◌, length};
ghost use Rattle.model.specs.Written.{written};
ghost use Rattle.records.specs.Records.{word_at, asked_by, record_at, bytes_of_record};

// How many bytes a record has.
pub const LENGTH: usize = 6;

// The call that a record asks for.
#[derive(Clone, Copy, PartialEq, Eq)]
pub enum Asked {
    Launch,
    Start,
    FinishingStart,
    Back,
    Look,
}

// A record that was read. It asks for no call where its kind is unknown, or where it is cut. The screen and the word of a cut one
// are 0.
#[derive(Clone, Copy)]
pub struct Record {
    pub kind: u8,
    pub asked: Option<Asked>,
    pub screen: u8,
    pub word: u32,
}

// ---- reading

// The word of the record at a place of the input.
pub fn word_at(input: &[u8], p: usize) -> u32
    requires { p + 6 ≤ length input.now }
    ensures { result ≡ word_at input.now p }
{
    u32::from_be_bytes([input[p + 2], input[p + 3], input[p + 4], input[p + 5]])
}

// The call that a whole record of this kind asks for. A match on the kind byte: document 01 names this form.
#[tactic(auto, unfolding(crate::specs::Records::asked_by))]
pub fn asked_by(kind: u8) -> Option<Asked>
    ensures { result ≡ asked_by kind }
{
    match kind {
        1 => Some(Asked::Launch),
        2 => Some(Asked::Start),
        3 => Some(Asked::FinishingStart),
        4 => Some(Asked::Back),
        5 => Some(Asked::Look),
        _ => None,
    }
}

// The record at a place, where the input ends behind it: cut where fewer than six bytes are left.
pub fn read(input: &[u8], p: usize) -> Record
    requires { p < length input.now }
    ensures { result ≡ record_at input.now p }
{
    let kind = input[p];
    if input.len() - p < LENGTH {
        return Record {
            kind,
            asked: None,
            screen: 0,
            word: 0,
        };
    }
    let word = word_at(input, p);
    Record {
        kind,
        asked: asked_by(kind),
        screen: input[p + 1],
        word,
    }
}

// The place behind it: six bytes on, or where the input ends.
pub fn end_of(input: &[u8], p: usize) -> usize
    requires { p < length input.now }
    ensures { result ≡ min (length input.now) (p + 6) }
{
    input.len().min(p + LENGTH)
}

// ---- writing

// Writes a record. Yields the place after it.
pub fn write(out: &mut [u8], at: usize, kind: u8, screen: u8, word: u32) -> usize
    requires { at + 6 ≤ length out.old }
    ensures place { result ≡ at + 6 }
    ensures bytes { out.new ≡ written out.old at (bytes_of_record kind screen word) }
{
    out[at] = kind;
    out[at + 1] = screen;
    out[at + 2..at + LENGTH].copy_from_slice(&word.to_be_bytes());
    at + LENGTH
}
