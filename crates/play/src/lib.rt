// Calls as records of six bytes, played from a session into lines of text.
// The table is checked once and the session not at all: each record leaves it sound.
#![tactic(auto)]

ghost use Rattle.std.specs.Prelude.{◌+◌, ◌*◌, ◌/◌, ◌≤◌, min, ◌≡◌, length};
ghost use Rattle.model.specs.Player.{records_in, text_of, session_after, longest_line};
ghost use Rattle.model.specs.Explained.{longest_explained};
ghost use Rattle.model.specs.Refusals.{numbered};
ghost use Rattle.model.specs.Written.{written as written_into};
ghost use Rattle.session.specs.Stored.{view, hold};
ghost use Rattle.reasons.specs.StoredReasons.{reason_made};
ghost use Rattle.play.specs.Playable.{Playable};
ghost use Rattle.play.specs.Fitting.{fitting, bytes_taken};
ghost use Rattle.play.specs.Manners.{in_words, record_said, said, longest_said, tallied_in, Runs};

use checks::Checked;
use model::{Answer, Refusal};
use session::Session;
use starts::Decided;
use tally::Tally;

// What is said of each record: nothing, and its answer is tallied; the player's line; the reason too, under that of a start; or that
// with its sentence. An enum and no closure: a closure for each would be a second call of the loop, which costs the player a tenth
// of its time and more.
#[derive(Clone, Copy)]
pub enum Manner {
    Heights,
    Lines,
    Reasons,
    Sentences,
}

// The reasons are told in words too.
fn in_words(manner: Manner) -> bool
    ensures { result ≡ in_words manner }
{
    matches!(manner, Manner::Sentences)
}

// The place behind the text that was said, and the tally.
#[derive(Clone, Copy)]
struct Spoken {
    at: usize,
    tally: Tally,
}

// Writes the line of a record, and the reason of a start under it. By its kind: a cut record asks for nothing, and has its reason.
fn write_record(
    out: &mut [u8],
    at: usize,
    kind: u8,
    answer: Answer,
    decided: Result<Decided, Refusal>,
    words: bool,
) -> usize
    requires { at + longest_explained ≤ length out.old }
    ensures place { result ≡ at + length (record_said words kind answer (reason_made (numbered decided))) }
    ensures text { out.new ≡ written_into out.old at (record_said words kind answer (reason_made (numbered decided))) }
    ensures bound { result ≤ at + longest_explained }
{
    let end = line::write_line(out, at, kind, answer);
    if (kind == 2) | (kind == 3) {
        return under::write_reason(out, end, reasons::of(decided), words);
    }
    end
}

// Says a record in this manner.
fn speak(
    out: &mut [u8],
    at: usize,
    tally: Tally,
    manner: Manner,
    kind: u8,
    answer: Answer,
    decided: Result<Decided, Refusal>,
) -> Spoken
    requires { at + longest_said manner ≤ length out.old }
    ensures place { result.at ≡ at + length (said manner kind answer (reason_made (numbered decided))) }
    ensures text { out.new ≡ written_into out.old at (said manner kind answer (reason_made (numbered decided))) }
    ensures bound { result.at ≤ at + longest_said manner }
    ensures tally { result.tally ≡ tallied_in manner tally answer }
{
    match manner {
        Manner::Heights => {
            let t = tally.add(answer.refusal, answer.height).unwrap_or(tally);
            Spoken { at: at, tally: t }
        }
        Manner::Lines => {
            let end = line::write_line(out, at, kind, answer);
            Spoken {
                at: end,
                tally: tally,
            }
        }
        Manner::Reasons | Manner::Sentences => {
            let end = write_record(out, at, kind, answer, decided, in_words(manner));
            Spoken {
                at: end,
                tally: tally,
            }
        }
    }
}

// What a run of records gives: the session after them, the tally with their answers, the bytes of text.
#[derive(Clone, Copy)]
pub struct Ran {
    pub session: Session,
    pub tally: Tally,
    pub written: usize,
}

// Plays the records in the input from a session, and says them at the start of `out`. A last record of fewer than six bytes is cut.
// In a `while`: a record is told by its place, and its end by the input. `Playable` stays a clause: docs/DECISIONS.md names this
// function, and a type would ask more.
pub fn run(
    table: &[u8],
    from: Session,
    tally: Tally,
    input: &[u8],
    manner: Manner,
    out: &mut [u8],
) -> Ran
    requires playable { Playable table.now from }
    requires input_in_bounds { longest_said manner * length (records_in input.now) ≤ length out.old }
    ensures { Runs manner table.now from tally (records_in input.now) out.old out.new result }
{
    let checked = table::check(table);
    let mut s = from;
    let mut told = tally;
    let mut at: usize = 0;
    let mut p: usize = 0;
    while p < input.len() {
        let r = records::read(input, p);
        p = records::end_of(input, p);
        let on = Checked {
            table: table,
            session: &s,
            refused: checked,
        };
        let decided = calls::decide(&on, r);
        let answer = calls::carry_out(&mut s, calls::plan_of(decided));
        let spoken = speak(out, at, told, manner, r.kind, answer, decided);
        at = spoken.at;
        told = spoken.tally;
    }
    Ran {
        session: s,
        tally: told,
        written: at,
    }
}

// What the player gives: the session after some records, the bytes of input that they took, the bytes of text.
#[derive(Clone, Copy)]
pub struct Played {
    pub session: Session,
    pub used: usize,
    pub written: usize,
}

// How many bytes of so long an input hold the records for whose lines so long a buffer has room.
fn part_for(input: usize, out: usize) -> usize
    ensures { result ≡ min input (6 * (out / longest_line)) }
{
    let room = out / line::LONGEST;
    if room <= input / 6 {
        return 6 * room;
    }
    input
}

// Plays the records in the input from a session, one line of text each at the start of `out`. A last record of fewer
// than six bytes is cut. It stops where the input is used up, or where `out` has no room for another longest line.
pub fn play(table: &[u8], from: Session, input: &[u8], out: &mut [u8]) -> Played
    requires { Playable table.now from }
    ensures session { result.session ≡ hold (session_after table.now (view from) (fitting input.now out.old)) }
    ensures used { result.used ≡ bytes_taken input.now (fitting input.now out.old) }
    ensures written { result.written ≡ length (text_of table.now (view from) (fitting input.now out.old)) }
    ensures text { out.new ≡ written_into out.old 0 (text_of table.now (view from) (fitting input.now out.old)) }
    ensures keeps { Playable table.now result.session }
    ensures bound { result.written ≤ length out.old }
{
    let part = part_for(input.len(), out.len());
    let ran = run(
        table,
        from,
        Tally::none(),
        &input[..part],
        Manner::Lines,
        out,
    );
    let s = ran.session;
    Played {
        session: s,
        used: part,
        written: ran.written,
    }
}
