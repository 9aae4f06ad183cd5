// Two recordings under one table: where their endings are told apart, and the text that says so.
#![tactic(auto)]

ghost use Rattle.std.specs.Prelude.{◌+◌, ◌<◌, ◌≤◌, ◌≡◌, ◌↔◌, true, false, length};
ghost use Rattle.model.specs.Table.{table_refusal};
ghost use Rattle.model.specs.Player.{decimal, table_in};
ghost use Rattle.model.specs.Histories.{AnswerAlike, by_rules};
ghost use Rattle.model.specs.Written.{written};
ghost use Rattle.session.specs.Stored.{hold, Ready};
ghost use Rattle.difference.specs.Apart.{most_backs, FirstApart};
ghost use Rattle.notes.specs.Places.{Tells};
ghost use Rattle.endings.specs.Endings.{ending_of, ignored_in};
ghost use Rattle.endings.specs.Shares.{is_in, header_of, bytes_in, records_of, Shares};
ghost use Rattle.endings.specs.Verdict.{last_kind, verdict_text, longest_verdict};

use difference::Difference;
use notes::Notes;
use session::Session;

// The length of the longest verdict: "apart after ", a number of three digits, " Backs" and a newline, and two lines.
pub const LONGEST_VERDICT: usize = 12 + 3 + 7 + 2 * line::LONGEST;

// The length of the table that a recording begins with, or of what is there of it.
fn table_end(input: &[u8]) -> usize
    ensures length { result ≡ length (table_in input.now) }
    ensures bound { result ≤ length input.now }
{
    table::length_said(input).min(input.len())
}

// The refusal of the table that a recording begins with, 0 if none. A table that is cut has the refusal 1. A number: it could not fail,
// and `same` prints it.
pub fn table_refusal(input: &[u8]) -> u8
    ensures { result ≡ table_refusal (table_in input.now) }
{
    let end = table_end(input);
    match table::check(&input[..end]) {
        Ok(()) => 0,
        Err(refusal) => refusal.number(),
    }
}

// Both recordings begin with the same table.
pub fn same_table(first: &[u8], second: &[u8]) -> bool
    ensures { (result ≡ true) ↔ (table_in first.now ≡ table_in second.now) }
{
    let i = table_end(first);
    let j = table_end(second);
    first[..i] == second[..j]
}

// A recording's records that are no call: how many, and the place of the first, counted from the recording's first byte.
pub fn ignored(input: &[u8]) -> Notes
    ensures { Tells (ignored_in input.now) result }
{
    let end = table_end(input);
    recording::ignored(input, end)
}

// ---- what its bytes are taken for

// What the bytes of a record are taken for: an image, which a whole restore brings; nothing, since it is no call; an image that
// is cut. An enum and no closure of the caller's: the definitions and the text of each warning name the three.
#[derive(Clone, Copy)]
pub enum Share {
    Images,
    LeftOut,
    CutImage,
}

// The records of a recording that are in a share: how many, the number of the first, counted from 1, and their bytes there.
#[derive(Clone, Copy)]
pub struct Portion {
    pub records: Notes,
    pub bytes: usize,
}

// The record in these bytes is in the share.
fn is_in(share: Share, bytes: &[u8]) -> bool
    requires { 0 < length bytes.now }
    ensures { result ≡ is_in share bytes.now }
{
    let whole = recording::whole_length(bytes).is_some();
    let kind = bytes[0];
    match share {
        Share::Images => whole & (kind == 6),
        Share::LeftOut => !whole | ((kind == 0) | (kind > 6)),
        Share::CutImage => !whole & (6 <= bytes.len()),
    }
}

// How many bytes before the share are no part of it.
fn header_of(share: Share) -> usize
    ensures { result ≡ header_of share }
{
    match share {
        Share::Images => 6,
        Share::LeftOut => 0,
        Share::CutImage => 6,
    }
}

// How many of its bytes are in the share.
fn bytes_in(share: Share, bytes: &[u8]) -> usize
    requires { 0 < length bytes.now }
    ensures { result ≡ bytes_in share bytes.now }
{
    if !is_in(share, bytes) {
        return 0;
    }
    bytes.len() - header_of(share)
}

// Which records of a recording are in the share, and how many bytes. A loop over what is left: an iterator over records would have to
// tell of one that is cut.
pub fn portion_of(input: &[u8], share: Share) -> Portion
    ensures { Shares share (records_of input.now) result }
{
    let mut met = Notes::none();
    let mut bytes: usize = 0;
    let mut i: usize = 1;
    let mut left = &input[table_end(input)..];
    while !left.is_empty() {
        let (first, rest) = left.split_at(recording::call_length(left));
        met = met.noted(is_in(share, first), i);
        bytes += bytes_in(share, first);
        i += 1;
        left = rest;
    }
    Portion {
        records: met,
        bytes: bytes,
    }
}

// ---- endings

// The session after a recording's calls.
fn ending_of(input: &[u8]) -> Session
    requires { table_refusal (table_in input.now) ≡ 0 }
    ensures session { result ≡ hold (ending_of input.now) }
    ensures sound { Ready (table_in input.now) result }
{
    let end = table_end(input);
    recording::replay(&input[..end], &input[end..]).session
}

// Where the endings of two recordings under one good table are told apart. No later list of launches, starts, finishing
// starts, Backs and looks does so exactly where no difference is found.
pub fn compare(first: &[u8], second: &[u8]) -> Difference
    requires { (table_refusal (table_in first.now) ≡ 0) × (table_in first.now ≡ table_in second.now) }
    ensures apart { FirstApart (table_in first.now) (ending_of first.now) (ending_of second.now) result }
    ensures same { (result.found ≡ false) ↔ (ending_of first.now ≡ ending_of second.now) }
    ensures alike { (result.found ≡ false) ↔ AnswerAlike (by_rules (table_in first.now)) (ending_of first.now) (ending_of second.now) }
    ensures bound { result.backs ≤ most_backs }
{
    let end = table_end(first);
    let s = ending_of(first);
    let t = ending_of(second);
    difference::first_difference(&first[..end], s, t)
}

// ---- text

// Writes a number below 1000 in base ten. Yields the place after it. By hand: a lent buffer is written at a place, without a heap.
fn write_number(out: &mut [u8], at: usize, x: u16) -> usize
    requires { (x < 1000) × (at + 4 ≤ length out.old) }
    ensures place { result ≡ at + length (decimal x) }
    ensures bytes { out.new ≡ written out.old at (decimal x) }
    ensures bound { result ≤ at + 3 }
{
    let last = b'0' + (x % 10) as u8;
    if x < 10 {
        out[at] = last;
        return at + 1;
    }
    line::write_decimal(out, at, (x / 10) as u8, last)
}

// The kind of the last of a look and so many Backs.
fn last_kind(backs: u16) -> u8
    ensures { result ≡ last_kind backs }
{
    match backs {
        0 => 5,
        _ => 4,
    }
}

// Writes the verdict at the start of a lent buffer: that the endings are alike, or after how many Backs they are told apart,
// and the player's lines for the two answers that differ. Yields its length.
pub fn write_verdict(out: &mut [u8], d: Difference) -> usize
    requires { (d.backs ≤ most_backs) × (longest_verdict ≤ length out.old) }
    ensures length { result ≡ length (verdict_text d) }
    ensures text { out.new ≡ written out.old 0 (verdict_text d) }
    ensures bound { result ≤ longest_verdict }
{
    if !d.found {
        return line::write_text(out, 0, b"alike\n");
    }
    let number = line::write_text(out, 0, b"apart after ");
    let backs = write_number(out, number, d.backs);
    let line = line::write_text(out, backs, b" Backs\n");
    let kind = last_kind(d.backs);
    let next = line::write_line(out, line, kind, d.first);
    line::write_line(out, next, kind, d.second)
}
