// Lists of calls, given as bytes: the session after a whole list, and whether two lists end in sessions that no later list
// tells apart. The table is checked once, and the session not at all: each call leaves it sound.
#![tactic(auto)]

ghost use Rattle.std.specs.Prelude.{◌+◌, ◌-◌, ◌≤◌, ◌≡◌, ◌↔◌, true, false, length, drop, MatchOption};
ghost use Rattle.model.specs.Lists.{All};
ghost use Rattle.model.specs.Table.{table_refusal};
ghost use Rattle.model.specs.Session.{screens_in};
ghost use Rattle.model.specs.Image.{image, longest_image};
ghost use Rattle.model.specs.Histories.{IsNoRestore};
ghost use Rattle.model.specs.Balance.{ScreensBalance};
ghost use Rattle.model.specs.Promises.{Lifelong};
ghost use Rattle.session.specs.Stored.{view, sound_stored, Ready};
ghost use Rattle.image.specs.Writable.{Writable};
ghost use Rattle.calls.specs.StoredCalls.{KeepsSound};
ghost use Rattle.navigator.specs.Promise3.{reached, KeepsPromise3};
ghost use Rattle.notes.specs.Places.{Tells};
ghost use Rattle.recording.specs.CallBytes.{first_image, first_whole, call_read, calls_in};
ghost use Rattle.recording.specs.Counts.{reply_to, created_for, Counts, CountsScreens};
ghost use Rattle.recording.specs.Ignored.{ignored_from};
ghost use Rattle.recording.specs.OneCall.{record_length, call_length, called_stored};
ghost use Rattle.recording.specs.Replay.{replayed, EveryList, EndAlike, TellsImages};

use calls::{Made, Reply};
use model::Refusal;
use notes::Notes;
use session::Session;

// The length of the longest image: each task has a root, a height and its screens, and six bytes follow the last.
const LONGEST_IMAGE: usize = Session::TASKS * (2 + Session::SCREENS) + 6;

// How many bytes of an image follow the first record. A cast: `u32` has no `From` to `usize`.
fn image_length(bytes: &[u8]) -> usize
    requires { 6 ≤ length bytes.now }
    ensures { result ≡ first_image bytes.now }
{
    if bytes[0] == 6 {
        return records::word_at(bytes, 0) as usize;
    }
    0
}

// How many bytes the first record of a list of calls takes with the image that follows it; none where it is cut.
pub fn whole_length(calls: &[u8]) -> Option<usize>
    ensures { MatchOption result (first_whole calls.now ≡ false) (λ n. (first_whole calls.now ≡ true) × (n ≡ 6 + first_image calls.now)) }
{
    if calls.len() < 6 {
        return None;
    }
    let n = image_length(calls);
    if n > calls.len() - 6 {
        return None;
    }
    Some(6 + n)
}

// What the call of one whole record gives, with the image that follows it, and how many screens it creates. An unknown kind is no
// call. One clause, which is what `checks::passed` asks. The session is lent: by value, it would be copied for each record.
fn make_with_image(table: &[u8], s: &Session, bytes: &[u8]) -> Made
    requires ready { Ready table.now s.now }
    requires whole { 6 ≤ length bytes.now }
    ensures reply { result.reply ≡ reply_to table.now s.now (call_read bytes.now) }
    ensures created { result.created ≡ created_for table.now (view s.now) (call_read bytes.now) }
{
    let on = checks::passed(table, s);
    if bytes[0] == 6 {
        let reply = image_calls::restore(&on, &bytes[6..]);
        return Made {
            reply: reply,
            created: 0,
        };
    }
    calls::make(&on, records::read(bytes, 0))
}

// ---- one call

// How many bytes the first record takes, as the player reads it: six, or fewer where it is cut.
pub fn record_length(calls: &[u8]) -> usize
    ensures { result ≡ record_length calls.now }
{
    calls.len().min(6)
}

// The same in a list of calls: a restore's image is part of its record, and a record that is cut takes all that is left.
pub fn call_length(calls: &[u8]) -> usize
    ensures { result ≡ call_length calls.now }
{
    whole_length(calls).unwrap_or(calls.len())
}

// Makes the call of the first record of a list of calls, on any session: kind 6 is a restore. A record that is cut, or of an
// unknown kind, is refused with 9.
pub fn play_call(table: &[u8], s: Session, calls: &[u8]) -> Reply
    ensures gives { result ≡ called_stored table.now s calls.now }
    ensures keeps { KeepsSound table.now s result.session }
    ensures promise { KeepsPromise3 table.now }
{
    let Some(end) = whole_length(calls) else {
        return calls::refuse(s, Refusal::UnknownRecord);
    };
    if calls[0] == 6 {
        return navigator::restore(table, s, &calls[6..end]);
    }
    navigator::play_record(table, s, calls)
}

// The session after a list of calls, made one after the other, and the screens that they created and closed. No more screens
// are closed than the list has bytes: each is created by a record, or a byte of an image.
#[derive(Clone, Copy)]
struct Counted {
    session: Session,
    created: u64,
    closed: u64,
}

// A loop over what is left, and no iterator over the records: a record that is cut ends it, which an iterator would have to tell. One
// clause, which is what `checks::passed` asks.
fn after_calls(table: &[u8], begun: Session, calls: &[u8]) -> Counted
    requires { Ready table.now begun × (screens_in (view begun).tasks ≡ 0) }
    ensures { Counts table.now begun (calls_in calls.now) result }
{
    let mut s = begun;
    let mut created: u64 = 0;
    let mut closed: u64 = 0;
    let mut left = calls;
    while let Some(n) = whole_length(left) {
        let (first, rest) = left.split_at(n);
        let made = make_with_image(table, &s, first);
        created += u64::from(made.created);
        closed += u64::from(made.reply.answer.closed);
        s = made.reply.session;
        left = rest;
    }
    Counted {
        session: s,
        created: created,
        closed: closed,
    }
}

// What a list of calls leaves: the refusal of the table (0 if none), and the session. The refusal is a number in these structs:
// `Ending` is C's, and of a refused list the contracts of `replay` and `count_screens` tell the session and the zeros too, which a
// `Result` would drop.
#[repr(C)]
#[derive(Clone, Copy)]
pub struct Replayed {
    pub refusal: u8,
    pub session: Session,
}

// Makes a whole list of calls, from a fresh session. In the session after it each task has a screen, a single-instance screen
// is alone in its task, and no single-task or single-instance screen is the root of two tasks. Every list can be given so.
pub fn replay(table: &[u8], calls: &[u8]) -> Replayed
    ensures refusal { result.refusal ≡ table_refusal table.now }
    ensures session { result.session ≡ replayed table.now calls.now }
    ensures called { table_refusal table.now ≡ 0 → result.session ≡ reached table.now (calls_in calls.now) }
    ensures sound { sound_stored table.now result.session ≡ true }
    ensures lifelong { Lifelong table.now (view result.session) }
    ensures every { EveryList }
    ensures promise { KeepsPromise3 table.now }
{
    let fresh = Session::fresh();
    if let Err(refused) = table::check(table) {
        return Replayed {
            refusal: refused.number(),
            session: fresh,
        };
    }
    let done = after_calls(table, fresh, calls);
    let s = done.session;
    Replayed {
        refusal: 0,
        session: s,
    }
}

// ---- screens

// What a list of calls did to screens: the refusal of the table (0 if none), the screens created and closed along it, and those
// standing after it.
#[repr(C)]
#[derive(Clone, Copy)]
pub struct Screens {
    pub refusal: u8,
    pub created: u64,
    pub closed: u64,
    pub standing: u64,
}

// Makes a whole list of calls, from a fresh session, and counts. Without a restore among them, the screens created less those
// closed are the ones standing.
pub fn count_screens(table: &[u8], calls: &[u8]) -> Screens
    ensures refusal { result.refusal ≡ table_refusal table.now }
    ensures counts { table_refusal table.now ≡ 0 → CountsScreens table.now (calls_in calls.now) result }
    ensures refused { (table_refusal table.now ≡ 0 → ⊥) → (result.created ≡ 0) × (result.closed ≡ 0) × (result.standing ≡ 0) }
    ensures balance { All IsNoRestore (calls_in calls.now) → (result.closed ≤ result.created) × (result.created - result.closed ≡ result.standing) }
    ensures balances { ScreensBalance table.now }
    ensures promise { KeepsPromise3 table.now }
{
    if let Err(refusal) = table::check(table) {
        return Screens {
            refusal: refusal.number(),
            created: 0,
            closed: 0,
            standing: 0,
        };
    }
    let done = after_calls(table, Session::fresh(), calls);
    let s = done.session;
    Screens {
        refusal: 0,
        created: done.created,
        closed: done.closed,
        standing: s.standing(),
    }
}

// ---- two lists

// Two sessions have equal images: the same length and the same bytes.
fn same_image(s: Session, t: Session) -> bool
    requires writable { Writable s × (length (image (view s)) ≤ longest_image) }
    requires writable_2 { Writable t × (length (image (view t)) ≤ longest_image) }
    ensures { (result ≡ true) ↔ (image (view s) ≡ image (view t)) }
{
    let mut a = [0u8; LONGEST_IMAGE];
    let mut b = [0u8; LONGEST_IMAGE];
    let n = image::write(s, &mut a);
    let m = image::write(t, &mut b);
    a[..n] == b[..m]
}

// What two lists are to each other: the refusal of the table (0 if none), and whether they end alike.
#[repr(C)]
#[derive(Clone, Copy)]
pub struct Ending {
    pub refusal: u8,
    pub alike: bool,
}

// Do two lists of calls end in sessions that no later list of calls tells apart? They do exactly where the images of those
// sessions are equal.
pub fn same_ending(table: &[u8], first: &[u8], second: &[u8]) -> Ending
    ensures refusal { result.refusal ≡ table_refusal table.now }
    ensures images { table_refusal table.now ≡ 0 → TellsImages table.now first.now second.now result.alike }
    ensures alike { table_refusal table.now ≡ 0 → ((result.alike ≡ true) ↔ EndAlike table.now first.now second.now) }
    ensures refused { (table_refusal table.now ≡ 0 → ⊥) → result.alike ≡ false }
    ensures promise { KeepsPromise3 table.now }
{
    let one = replay(table, first);
    if one.refusal != 0 {
        return Ending {
            refusal: one.refusal,
            alike: false,
        };
    }
    let other = replay(table, second);
    let s = one.session;
    let t = other.session;
    Ending {
        refusal: 0,
        alike: same_image(s, t),
    }
}

// The records that are no call, in the list of calls from a place on: those of an unknown kind, and one that is cut at the end. By
// places, since the place of the first is told.
pub fn ignored(input: &[u8], from: usize) -> Notes
    requires { from ≤ length input.now }
    ensures { Tells (ignored_from from (drop from input.now)) result }
{
    let mut seen = Notes::none();
    let mut p = from;
    while let Some(n) = whole_length(&input[p..]) {
        seen = seen.noted((input[p] == 0) | (input[p] > 6), p);
        p += n;
    }
    seen.noted(p < input.len(), p)
}
