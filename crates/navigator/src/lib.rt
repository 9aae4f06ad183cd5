// The calls of document 01, by value, for any caller. Any table, session and image bytes: each call ends, and its contract
// says what it gives. The checks that all calls share are made here, and what they say is passed on. What holds over
// whole lists of these calls is promise 3 (specs/Promise3), which each of their contracts cites. `why` is no call of a list.
#![tactic(auto)]

ghost use Rattle.std.specs.Prelude.{◌≡◌, take};
ghost use Rattle.model.specs.Calls.{Call};
ghost use Rattle.checks.specs.Shared.{shared_refusal};
ghost use Rattle.calls.specs.StoredCalls.{call_stored, KeepsSound};
ghost use Rattle.image_calls.specs.Restores.{AcceptsImages, BringsBack, SavesAgain};
ghost use Rattle.image_calls.specs.StoredSaves.{saved, save_stored, BroughtBack, NoOtherHas};
ghost use Rattle.model.specs.Refusals.{refusal_in};
ghost use Rattle.model.specs.Reasons.{no_reason, FitsFirst, IsFoundAt};
ghost use Rattle.model.specs.Affinity.{AffinityZero};
ghost use Rattle.model.specs.Editions.{EditionSeeks};
ghost use Rattle.model.specs.NoHistory.{MarksBy, without_no_history};
ghost use Rattle.session.specs.Stored.{view};
ghost use Rattle.reasons.specs.StoredReasons.{why_stored, CarriesOut};
ghost use Rattle.navigator.specs.Promise3.{KeepsPromise3};
ghost use Rattle.navigator.specs.Records.{played_stored};

use calls::Reply;
use chart_starts::ByChart;
use checks::Checked;
use image_calls::SaveReply;
use model::{Reason, Refusal};
use session::Session;
use starts::ByRules;
use table::Table;

// The checks that every call begins with: 1, 2, 20.
pub fn check(table: &[u8], s: Session) -> Result<(), Refusal>
    ensures { refusal_in result ≡ shared_refusal table.now s }
{
    let good = Table::checked(table)?;
    if soundness::sound(good.bytes(), s) {
        return Ok(());
    }
    Err(Refusal::SessionUnsound)
}

// A table and a session with what those checks say of them.
fn checked<'a>(table: &'a [u8], s: &'a Session) -> Checked<'a>
    ensures table { result.table.now ≡ table.now }
    ensures session { result.session.now ≡ s.now }
{
    Checked {
        table: table,
        session: s,
        refused: check(table, *s),
    }
}

// Look changes nothing.
pub fn look(table: &[u8], s: Session) -> Reply
    ensures gives { result ≡ call_stored table.now s Call.look }
    ensures stays { result.session ≡ s }
    ensures keeps { KeepsSound table.now s result.session }
    ensures promise { KeepsPromise3 table.now }
{
    calls::look(&checked(table, &s))
}

// Launch, on an empty session.
pub fn launch(table: &[u8], s: Session, edition: u8) -> Reply
    ensures gives { result ≡ call_stored table.now s (Call.launch edition) }
    ensures keeps { KeepsSound table.now s result.session }
    ensures promise { KeepsPromise3 table.now }
{
    let refused = check(table, s);
    calls::launch(table, s, edition, refused)
}

// Start of b with a flag word.
pub fn start(table: &[u8], s: Session, b: u8, word: u32) -> Reply
    ensures gives { result ≡ call_stored table.now s (Call.start b word) }
    ensures keeps { KeepsSound table.now s result.session }
    ensures promise { KeepsPromise3 table.now }
{
    calls::start::<ByRules>(&checked(table, &s), b, word, false)
}

// Finishing start of b with a flag word: the caller closes itself. Two functions, and no flag: these are the calls that 01 names.
pub fn finish_start(table: &[u8], s: Session, b: u8, word: u32) -> Reply
    ensures gives { result ≡ call_stored table.now s (Call.finishing_start b word) }
    ensures keeps { KeepsSound table.now s result.session }
    ensures promise { KeepsPromise3 table.now }
{
    calls::start::<ByRules>(&checked(table, &s), b, word, true)
}

// The same two, driven by the flag chart: once the index of its entry is formed, neither the six flags nor the mode of b are read
// again.
pub fn start_by_chart(table: &[u8], s: Session, b: u8, word: u32) -> Reply
    ensures gives { result ≡ call_stored table.now s (Call.start b word) }
    ensures keeps { KeepsSound table.now s result.session }
    ensures promise { KeepsPromise3 table.now }
{
    calls::start::<ByChart>(&checked(table, &s), b, word, false)
}

pub fn finish_start_by_chart(table: &[u8], s: Session, b: u8, word: u32) -> Reply
    ensures gives { result ≡ call_stored table.now s (Call.finishing_start b word) }
    ensures keeps { KeepsSound table.now s result.session }
    ensures promise { KeepsPromise3 table.now }
{
    calls::start::<ByChart>(&checked(table, &s), b, word, true)
}

// Why a start of b with a flag word goes as it does: its refusal, or its rule, and where and how the task was found for it.
pub fn why(table: &[u8], s: Session, b: u8, word: u32) -> Reason
    ensures gives { result ≡ why_stored table.now s b word }
    ensures refusal { result.refusal ≡ (call_stored table.now s (Call.start b word)).answer.refusal }
    ensures zeros { (result.refusal ≡ 0 → ⊥) → result ≡ no_reason result.refusal }
    ensures fits { result.refusal ≡ 0 → FitsFirst table.now (view s) b word result.rule }
    ensures found { result.refusal ≡ 0 → IsFoundAt table.now (view s) b word result.place result.found }
    ensures carries { result.refusal ≡ 0 → CarriesOut table.now s b word result }
    ensures affinity { result.refusal ≡ 0 → AffinityZero table.now (view s) b result }
    ensures edition { result.refusal ≡ 0 → EditionSeeks table.now (view s) b result }
    ensures mark { result.refusal ≡ 0 → MarksBy table.now (view s) b word result }
    ensures bit { result ≡ why_stored table.now s b (without_no_history word) }
{
    reasons::why(&checked(table, &s), b, word)
}

// Back, on a session that is not empty.
pub fn back(table: &[u8], s: Session) -> Reply
    ensures gives { result ≡ call_stored table.now s Call.back }
    ensures keeps { KeepsSound table.now s result.session }
    ensures promise { KeepsPromise3 table.now }
{
    calls::back(&checked(table, &s))
}

// Restore: the session read from a whole image.
pub fn restore(table: &[u8], s: Session, image: &[u8]) -> Reply
    ensures gives { result ≡ call_stored table.now s (Call.restore image.now) }
    ensures keeps { KeepsSound table.now s result.session }
    ensures accepts { AcceptsImages table.now s image.now result }
    ensures brings { BringsBack table.now s image.now result }
    ensures saves { SavesAgain image.now result }
    ensures promise { KeepsPromise3 table.now }
{
    image_calls::restore(&checked(table, &s), image)
}

// Save writes the session's image at the start of the buffer and leaves the rest; a refused one writes nothing.
pub fn save(table: &[u8], s: Session, out: &mut [u8]) -> SaveReply
    ensures gives { saved result out.new ≡ save_stored table.now s out.old }
    ensures restores { result.refusal ≡ 0 → BroughtBack table.now s (take result.length out.new) }
    ensures only { result.refusal ≡ 0 → NoOtherHas table.now s (take result.length out.new) }
    ensures promise { KeepsPromise3 table.now }
{
    match check(table, s) {
        Ok(()) => image_calls::save(table, s, out),
        Err(refusal) => image_calls::refuse_save(refusal.number()),
    }
}

// ---- records

// Plays the record at the start of the bytes, as the player reads it: six bytes. An unknown kind, or fewer bytes, is refused with
// 9.
pub fn play_record(table: &[u8], s: Session, calls: &[u8]) -> Reply
    ensures gives { result ≡ played_stored table.now s calls.now }
    ensures keeps { KeepsSound table.now s result.session }
    ensures promise { KeepsPromise3 table.now }
{
    if calls.len() == 0 {
        return calls::refuse(s, Refusal::UnknownRecord);
    }
    let r = records::read(calls, 0);
    calls::make(&checked(table, &s), r).reply
}
