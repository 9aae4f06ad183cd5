// A whole input, in memory: what the player, `explain` and `depth` print of it, into a lent buffer, by their definitions.
#![tactic(auto)]

ghost use Rattle.std.specs.Prelude.{◌≤◌, ◌≡◌, length};
ghost use Rattle.model.specs.Player.{longest_line, player_text};
ghost use Rattle.model.specs.Written.{written};
ghost use Rattle.tally.specs.Tallies.{tally_of};
ghost use Rattle.depths.specs.Reports.{answers_in};
ghost use Rattle.input.specs.Texts.{stop_line, stop_written, fitting_text, Roomy, explain_written, depth_written};

use model::Refusal;
use session::Session;
use tally::Tally;

// Writes the line with which the player stops where the input begins with no table. Yields its length.
pub fn write_stop(out: &mut [u8]) -> usize
    requires { longest_line ≤ length out.old }
    ensures length { result ≡ length stop_line }
    ensures text { out.new ≡ written out.old 0 stop_line }
    ensures bound { result ≤ longest_line }
{
    line::write_line(out, 0, 0, answer::refused(Refusal::TableLength.number()))
}

// The same where there is room for the longest line, and otherwise nothing.
fn stop(out: &mut [u8]) -> usize
    ensures length { result ≡ length (stop_written out.old) }
    ensures text { out.new ≡ written out.old 0 (stop_written out.old) }
{
    if out.len() < line::LONGEST {
        return 0;
    }
    write_stop(out)
}

// Writes the player's text of an input: all of it where the buffer is roomy, and otherwise as many lines as have room.
// Yields its length.
#[tactic(auto, using(crate::proofs::TextLaws::within))]
pub fn player_text(input: &[u8], out: &mut [u8]) -> usize
    ensures length { result ≡ length (fitting_text input.now out.old) }
    ensures text { out.new ≡ written out.old 0 (fitting_text input.now out.old) }
    ensures whole { Roomy input.now out.old → fitting_text input.now out.old ≡ player_text input.now }
{
    let Ok(long) = table::beginning_of(input) else {
        return stop(out);
    };
    play::play(&input[..long], Session::fresh(), &input[long..], out).written
}

// ---- `explain` and `depth`

// Writes what `explain` prints of an input, with sentences where `words` says so; nothing where the buffer is too small for the
// longest text of so many records. Yields its length.
#[tactic(auto, using(crate::proofs::TextLaws::within))]
pub fn explain_text(input: &[u8], words: bool, out: &mut [u8]) -> usize
    ensures length { result ≡ length (explain_written words input.now out.old) }
    ensures text { out.new ≡ written out.old 0 (explain_written words input.now out.old) }
{
    let Ok(long) = table::beginning_of(input) else {
        return stop(out);
    };
    if out.len() / explained::LONGEST < depths::count_records(&input[long..]) {
        return 0;
    }
    explained::explain(&input[..long], Session::fresh(), &input[long..], words, out).written
}

// The tally of the answers to an input's records: that of none where it begins with no table.
#[tactic(auto, using(crate::proofs::TextLaws::within))]
fn tally_of(input: &[u8]) -> Tally
    ensures { result ≡ tally_of (answers_in input.now) }
{
    let Ok(long) = table::beginning_of(input) else {
        return Tally::none();
    };
    depths::tally_records(
        &input[..long],
        Session::fresh(),
        Tally::none(),
        &input[long..],
    )
    .tally
}

// Writes what `depth` prints of an input; nothing where the buffer is too small for the longest line. Yields its length.
pub fn depth_text(input: &[u8], out: &mut [u8]) -> usize
    ensures length { result ≡ length (depth_written input.now out.old) }
    ensures text { out.new ≡ written out.old 0 (depth_written input.now out.old) }
{
    if out.len() < depths::LONGEST {
        return 0;
    }
    depths::write_report(out, tally_of(input).report())
}
