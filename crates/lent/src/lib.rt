// The calls for programs in C and Rust. A slice is a pointer and a length there; a session or a tally that a call may change
// is lent, and the call writes the new one there. Nothing is decided here: each call is the one of `navigator`, `fronts`,
// `recording`, `loads`, `tally`, `container` or `flag_chart`, by value, and its session, tally or container is stored. A tally and a
// container are stored where the call is accepted: a refused one leaves them. None is generic: document 01 names the form of each, and
// C needs a function for each.
#![tactic(auto)]

ghost use Rattle.std.specs.Prelude.{◌≡◌, ◌↔◌, true, false, take};
ghost use Rattle.model.specs.Table.{table_refusal};
ghost use Rattle.model.specs.Calls.{Call, start, finishing_start};
ghost use Rattle.calls.specs.StoredCalls.{reply, call_stored};
ghost use Rattle.image_calls.specs.Restores.{AcceptsImages, BringsBack, SavesAgain};
ghost use Rattle.image_calls.specs.StoredSaves.{saved, save_stored, BroughtBack, NoOtherHas};
ghost use Rattle.model.specs.Reasons.{no_reason, FitsFirst, IsFoundAt};
ghost use Rattle.model.specs.Affinity.{AffinityZero};
ghost use Rattle.model.specs.Editions.{EditionSeeks};
ghost use Rattle.model.specs.NoHistory.{MarksBy, without_no_history};
ghost use Rattle.session.specs.Stored.{view, fresh_session};
ghost use Rattle.reasons.specs.StoredReasons.{why_stored, CarriesOut};
ghost use Rattle.navigator.specs.Promise3.{KeepsPromise3};
ghost use Rattle.navigator.specs.Records.{played_stored};
ghost use Rattle.fronts.specs.Fronts.{fronts_stored, SetExactly, KnowingMore, AnyNoHistory};
ghost use Rattle.recording.specs.OneCall.{record_length, call_length, called_stored};
ghost use Rattle.recording.specs.Replay.{EndAlike, TellsImages};
ghost use Rattle.tally.specs.Tallies.{added, reported, KnowsTallies, TalliesJoin, ReportsLists};
ghost use Rattle.tally.specs.Tallied.{RoundsHalfToEven};
ghost use Rattle.loads.specs.Loads.{loaded, load_of};
ghost use Rattle.loads.specs.Promises.{GoesOn, NoneDraws};
ghost use Rattle.container.specs.Calls.{Call as PanelCall};
ghost use Rattle.container.specs.Stored.{called, step_of};
ghost use Rattle.container.specs.Promised.{Promised, KeepsPromise, BackRestores};
ghost use Rattle.container_lists.specs.CallBytes.{calls_in, EveryList};
ghost use Rattle.flag_chart.specs.Chart.{entry_at, IndexesChart};
ghost use Rattle.lent.specs.Abi.{abi_number};

use container::Container;
use fronts::FrontSet;
use image_calls::SaveReply;
use loads::LoadReply;
use model::{Answer, Reason};
use recording::Ending;
use session::Session;
use tally::{Report, Tally};

// The number of this interface; bindings/abi has its structs and signatures.
const ABI: u32 = 5;

// The library's own number, for callers who compare it with that of their header.
#[unsafe(no_mangle)]
pub extern "C" fn milchkompass_abi() -> u32
    ensures { result ≡ abi_number }
{
    ABI
}

// A session in which no task stands, as every session begins.
#[unsafe(no_mangle)]
pub extern "C" fn milchkompass_fresh() -> Session
    ensures { result ≡ fresh_session }
{
    Session::fresh()
}

// Look: the answer of the session as it is, which stays.
#[unsafe(no_mangle)]
pub extern "C" fn milchkompass_look(table: &[u8], s: &mut Session) -> Answer
    ensures answers { result ≡ (call_stored table.now s.old Call.look).answer }
    ensures stores { s.new ≡ (call_stored table.now s.old Call.look).session }
    ensures stays { s.new ≡ s.old }
    ensures promise { KeepsPromise3 table.now }
{
    let reply = navigator::look(table, *s);
    *s = reply.session;
    reply.answer
}

// Launch, over the session that is lent. A refused call leaves it, here and below.
#[unsafe(no_mangle)]
pub extern "C" fn milchkompass_launch(table: &[u8], s: &mut Session, edition: u8) -> Answer
    ensures answers { result ≡ (call_stored table.now s.old (Call.launch edition)).answer }
    ensures stores { s.new ≡ (call_stored table.now s.old (Call.launch edition)).session }
    ensures promise { KeepsPromise3 table.now }
{
    let reply = navigator::launch(table, *s, edition);
    *s = reply.session;
    reply.answer
}

// Start of b with a flag word.
#[unsafe(no_mangle)]
pub extern "C" fn milchkompass_start(table: &[u8], s: &mut Session, b: u8, word: u32) -> Answer
    ensures answers { result ≡ (call_stored table.now s.old (Call.start b word)).answer }
    ensures stores { s.new ≡ (call_stored table.now s.old (Call.start b word)).session }
    ensures promise { KeepsPromise3 table.now }
{
    let reply = navigator::start(table, *s, b, word);
    *s = reply.session;
    reply.answer
}

// Finishing start of b with a flag word: the caller closes itself.
#[unsafe(no_mangle)]
pub extern "C" fn milchkompass_finish_start(
    table: &[u8],
    s: &mut Session,
    b: u8,
    word: u32,
) -> Answer
    ensures answers { result ≡ (call_stored table.now s.old (Call.finishing_start b word)).answer }
    ensures stores { s.new ≡ (call_stored table.now s.old (Call.finishing_start b word)).session }
    ensures promise { KeepsPromise3 table.now }
{
    let reply = navigator::finish_start(table, *s, b, word);
    *s = reply.session;
    reply.answer
}

// Back.
#[unsafe(no_mangle)]
pub extern "C" fn milchkompass_back(table: &[u8], s: &mut Session) -> Answer
    ensures answers { result ≡ (call_stored table.now s.old Call.back).answer }
    ensures stores { s.new ≡ (call_stored table.now s.old Call.back).session }
    ensures promise { KeepsPromise3 table.now }
{
    let reply = navigator::back(table, *s);
    *s = reply.session;
    reply.answer
}

// Why a start of b with a flag word goes as it does: its refusal, or its rule, and where and how the task was found for it.
#[unsafe(no_mangle)]
pub extern "C" fn milchkompass_why(table: &[u8], s: Session, b: u8, word: u32) -> Reason
    ensures gives { result ≡ why_stored table.now s b word }
    ensures refusal { result.refusal ≡ (call_stored table.now s (Call.start b word)).answer.refusal }
    ensures zeros { (result.refusal ≡ 0 → ⊥) → result ≡ no_reason result.refusal }
    ensures fits { result.refusal ≡ 0 → FitsFirst table.now (view s) b word result.rule }
    ensures found { result.refusal ≡ 0 → IsFoundAt table.now (view s) b word result.place result.found }
    ensures carries { result.refusal ≡ 0 → CarriesOut table.now s b word result }
    ensures affinity { result.refusal ≡ 0 → AffinityZero table.now (view s) b result }
    ensures edition { result.refusal ≡ 0 → EditionSeeks table.now (view s) b result }
    ensures mark { result.refusal ≡ 0 → MarksBy table.now (view s) b word result }
    ensures bit { result ≡ why_stored table.now s b (without_no_history word) }
{
    navigator::why(table, s, b, word)
}

// Which screens could be in front after a start of b of which the bits of the mask are known, with these values.
#[unsafe(no_mangle)]
pub extern "C" fn milchkompass_fronts(
    table: &[u8],
    s: Session,
    b: u8,
    mask: u32,
    value: u32,
) -> FrontSet
    ensures gives { result ≡ fronts_stored table.now s b mask value }
    ensures exactly { result.refusal ≡ 0 → SetExactly table.now s b mask value result.set }
    ensures empty { s.n ≡ 0 → result.set ≡ 0 }
    ensures more { result.refusal ≡ 0 → KnowingMore table.now s b mask value result }
    ensures bit { result.refusal ≡ 0 → AnyNoHistory table.now s b mask value result }
{
    fronts::fronts(table, s, b, mask, value)
}

// Restore: the session of a whole image, over the one that is lent. A refused restore leaves it.
#[unsafe(no_mangle)]
pub extern "C" fn milchkompass_restore(table: &[u8], s: &mut Session, image: &[u8]) -> Answer
    ensures answers { result ≡ (call_stored table.now s.old (Call.restore image.now)).answer }
    ensures stores { s.new ≡ (call_stored table.now s.old (Call.restore image.now)).session }
    ensures accepts { AcceptsImages table.now s.old image.now (reply s.new result) }
    ensures brings { BringsBack table.now s.old image.now (reply s.new result) }
    ensures saves { SavesAgain image.now (reply s.new result) }
    ensures promise { KeepsPromise3 table.now }
{
    let reply = navigator::restore(table, *s, image);
    *s = reply.session;
    reply.answer
}

// Save: the session's image at the start of the buffer; the rest of the buffer, or all of it where save is refused, stays.
#[unsafe(no_mangle)]
pub extern "C" fn milchkompass_save(table: &[u8], s: Session, out: &mut [u8]) -> SaveReply
    ensures gives { saved result out.new ≡ save_stored table.now s out.old }
    ensures restores { result.refusal ≡ 0 → BroughtBack table.now s (take result.length out.new) }
    ensures only { result.refusal ≡ 0 → NoOtherHas table.now s (take result.length out.new) }
    ensures promise { KeepsPromise3 table.now }
{
    navigator::save(table, s, out)
}

// ---- recordings

// How many bytes the first record of some bytes takes, as the player reads it: six, or fewer where it is cut.
#[unsafe(no_mangle)]
pub extern "C" fn milchkompass_record_length(calls: &[u8]) -> usize
    ensures { result ≡ record_length calls.now }
{
    recording::record_length(calls)
}

// Plays that record: a record of an unknown kind, or one that is cut, is refused with 9.
#[unsafe(no_mangle)]
pub extern "C" fn milchkompass_play(table: &[u8], s: &mut Session, calls: &[u8]) -> Answer
    ensures answers { result ≡ (played_stored table.now s.old calls.now).answer }
    ensures stores { s.new ≡ (played_stored table.now s.old calls.now).session }
    ensures promise { KeepsPromise3 table.now }
{
    let reply = navigator::play_record(table, *s, calls);
    *s = reply.session;
    reply.answer
}

// How many bytes the first record of a list of calls takes: the image of a restore is part of it, and a cut one takes all.
#[unsafe(no_mangle)]
pub extern "C" fn milchkompass_call_length(calls: &[u8]) -> usize
    ensures { result ≡ call_length calls.now }
{
    recording::call_length(calls)
}

// Makes its call: kind 6 is a restore.
#[unsafe(no_mangle)]
pub extern "C" fn milchkompass_play_call(table: &[u8], s: &mut Session, calls: &[u8]) -> Answer
    ensures answers { result ≡ (called_stored table.now s.old calls.now).answer }
    ensures stores { s.new ≡ (called_stored table.now s.old calls.now).session }
    ensures promise { KeepsPromise3 table.now }
{
    let reply = recording::play_call(table, *s, calls);
    *s = reply.session;
    reply.answer
}

// Do two lists of calls end in sessions that no later list of calls tells apart?
#[unsafe(no_mangle)]
pub extern "C" fn milchkompass_same_ending(table: &[u8], first: &[u8], second: &[u8]) -> Ending
    ensures refusal { result.refusal ≡ table_refusal table.now }
    ensures images { table_refusal table.now ≡ 0 → TellsImages table.now first.now second.now result.alike }
    ensures alike { table_refusal table.now ≡ 0 → ((result.alike ≡ true) ↔ EndAlike table.now first.now second.now) }
    ensures refused { (table_refusal table.now ≡ 0 → ⊥) → result.alike ≡ false }
    ensures promise { KeepsPromise3 table.now }
{
    recording::same_ending(table, first, second)
}

// ---- loads

// A load: as many whole records from the seed on as fit into the buffer; the bytes beyond them, or all of it where the load is
// refused, stay.
#[unsafe(no_mangle)]
pub extern "C" fn milchkompass_load(table: &[u8], seed: u32, out: &mut [u8]) -> LoadReply
    ensures gives { loaded result out.new ≡ load_of table.now seed out.old }
    ensures goes_on { GoesOn table.now seed (loaded result out.new) }
    ensures draws { NoneDraws table.now (loaded result out.new) }
{
    loads::load(table, seed, out)
}

// ---- tallies

// Adds the answer of a call, by its refusal and its front height, to the tally that is lent: 0, or 31, which leaves it.
#[unsafe(no_mangle)]
pub extern "C" fn milchkompass_tally_add(t: &mut Tally, refusal: u8, height: u8) -> u8
    ensures gives { result ≡ (added t.old refusal height).refusal }
    ensures stores { t.new ≡ (added t.old refusal height).tally }
    ensures known { KnowsTallies }
    ensures joined { TalliesJoin }
{
    match t.add(refusal, height) {
        Ok(next) => {
            *t = next;
            0
        }
        Err(r) => r.number(),
    }
}

// The report of a tally: its numbers, or 31 and zeros for a tally that no list of answers gives.
#[unsafe(no_mangle)]
pub extern "C" fn milchkompass_tally_report(t: Tally) -> Report
    ensures numbers { result ≡ reported t }
    ensures known { KnowsTallies }
    ensures listed { ReportsLists }
    ensures nearest { RoundsHalfToEven }
{
    t.report()
}

// ---- panels

// Carries out a step, recorded or (0) not, on the container that is lent: 0, or the refusal, which leaves it. The operations are
// kind and panel in turn.
#[unsafe(no_mangle)]
pub extern "C" fn milchkompass_container_step(
    c: &mut Container,
    recorded: u8,
    operations: &[u8],
) -> u8
    ensures gives { result ≡ (called (step_of recorded operations.now) c.old).refusal }
    ensures stores { c.new ≡ (called (step_of recorded operations.now) c.old).container }
    ensures promise { KeepsPromise }
{
    match c.step(recorded, operations) {
        Ok(next) => {
            *c = next;
            0
        }
        Err(r) => r.number(),
    }
}

// Back in that container: undoes the last recorded step.
#[unsafe(no_mangle)]
pub extern "C" fn milchkompass_container_back(c: &mut Container) -> u8
    ensures gives { result ≡ (called PanelCall.back c.old).refusal }
    ensures stores { c.new ≡ (called PanelCall.back c.old).container }
    ensures undoes { BackRestores }
    ensures promise { KeepsPromise }
{
    match c.back() {
        Ok(next) => {
            *c = next;
            0
        }
        Err(r) => r.number(),
    }
}

// The container after a list of steps and Backs, from an empty one.
#[unsafe(no_mangle)]
pub extern "C" fn milchkompass_container_play(calls: &[u8]) -> Container
    ensures promised { Promised (calls_in calls.now) result }
    ensures every { EveryList }
    ensures promise { KeepsPromise }
{
    container_lists::play(calls)
}

// ---- the flag chart

// The entry at an index; 0, which is no entry, above 511.
#[unsafe(no_mangle)]
pub extern "C" fn milchkompass_chart(index: u16) -> u8
    ensures entry { result ≡ entry_at index }
    ensures indexed { IndexesChart }
{
    flag_chart::entry(index as usize)
}

// Start of b with a flag word, driven by the flag chart: session and answer are those of `milchkompass_start`.
#[unsafe(no_mangle)]
pub extern "C" fn milchkompass_start_by_chart(
    table: &[u8],
    s: &mut Session,
    b: u8,
    word: u32,
) -> Answer
    ensures answers { result ≡ (call_stored table.now s.old (start b word)).answer }
    ensures stores { s.new ≡ (call_stored table.now s.old (start b word)).session }
    ensures promise { KeepsPromise3 table.now }
{
    let reply = navigator::start_by_chart(table, *s, b, word);
    *s = reply.session;
    reply.answer
}

// Finishing start of b, driven by the flag chart.
#[unsafe(no_mangle)]
pub extern "C" fn milchkompass_finish_start_by_chart(
    table: &[u8],
    s: &mut Session,
    b: u8,
    word: u32,
) -> Answer
    ensures answers { result ≡ (call_stored table.now s.old (finishing_start b word)).answer }
    ensures stores { s.new ≡ (call_stored table.now s.old (finishing_start b word)).session }
    ensures promise { KeepsPromise3 table.now }
{
    let reply = navigator::finish_start_by_chart(table, *s, b, word);
    *s = reply.session;
    reply.answer
}
