// The sentence of a reason, as agents read it, into a lent buffer.
#![tactic(auto)]

ghost use Rattle.std.specs.Prelude.{◌+◌, ◌≤◌, ◌≡◌, length};
ghost use Rattle.model.specs.Sentences.{rule_sentence, refusal_sentence, sentence_of, longest_sentence};
ghost use Rattle.model.specs.Written.{written};

use model::Reason;

// No sentence is longer.
pub const LONGEST: usize = 165;

// What a rule does, by its number, which a reason has since C reads it: no sentence for another number.
fn rule_sentence(rule: u8) -> &'static [u8]
    ensures sentence { result.now ≡ rule_sentence rule }
    ensures short { length result.now ≤ longest_sentence }
{
    match rule {
        1 => b"the single-instance screen has its task: that task comes to the front",
        2 => b"the single-instance screen has no task: a new task of it alone comes to the front",
        3 =>
            b"a task found for the single-task screen is cleared: it comes to the front, all in it closes, and the screen opens in it",
        4 =>
            b"a task found for it holds the screen: it comes to the front, and what lay above the screen closes",
        5 =>
            b"a task found for it does not hold the screen: it comes to the front, and the screen opens on top",
        6 =>
            b"no task is found for the single-task screen: a new task of it alone comes to the front",
        7 => b"the screen is in front already: the start moves nothing",
        8 =>
            b"the front task holds the screen, and CLEAR_TOP is set: what lay above the screen closes",
        9 =>
            b"the front task holds the screen, and REORDER_TO_FRONT is set: it comes to the top; edition 7 empties a main task first",
        10 => b"the screen opens on top of the front task",
        11 => b"MULTIPLE_TASK is set: a new task of the screen alone comes to the front",
        12 =>
            b"a task is found for it, and CLEAR_TASK is set: it comes to the front, all in it closes, and the screen opens in it",
        13 =>
            b"a task found for it holds the screen, and CLEAR_TOP is set: it comes to the front, and what lay above the screen closes",
        14 =>
            b"a task found for it does not hold the screen, and CLEAR_TOP is set: it comes to the front, and the screen opens on top",
        15 =>
            b"a task that began with the screen is found, and is not the main one: it comes to the front as it is",
        16 => b"a task found for it has the screen on top already: it comes to the front as it is",
        17 => b"a task is found for it: it comes to the front, and the screen opens on top",
        18 => b"no task is found for it: a new task of the screen alone comes to the front",
        _ => b"",
    }
}

// Why a start is refused, by the refusal, a number too: no sentence for one that a start cannot have.
fn refusal_sentence(refusal: u8) -> &'static [u8]
    ensures sentence { result.now ≡ refusal_sentence refusal }
    ensures short { length result.now ≤ longest_sentence }
{
    match refusal {
        1 =>
            b"refusal 1: the table's length does not fit its number of screens, or that is not 1 to 64",
        2 =>
            b"refusal 2: the table's main screen is not one of its screens, or a launch mode is not 0 to 3",
        3 => b"refusal 3: a start names a screen that the table does not have",
        4 => b"refusal 4: a start's flag word has a bit that is none of the seven flags",
        9 => b"refusal 9: the record is of an unknown kind, or the recording ends within it",
        20 =>
            b"refusal 20: the session cannot be under this table, its edition is none of 6, 7 and 8, its mark is above 1, or it is empty and has another edition than 8 or the mark",
        21 => b"refusal 21: a start or Back, and no task is there",
        23 => b"refusal 23: a new task is needed, and 16 stand",
        24 => b"refusal 24: a screen is to be pushed onto a task of 32",
        _ => b"",
    }
}

// Writes why a start was refused, or what its rule did. Yields the place after it.
#[tactic(auto, unfolding(model::specs::Sentences::sentence_of))]
pub fn write_sentence(out: &mut [u8], at: usize, r: Reason) -> usize
    requires { at + longest_sentence ≤ length out.old }
    ensures place { result ≡ at + length (sentence_of r) }
    ensures text { out.new ≡ written out.old at (sentence_of r) }
    ensures bound { result ≤ at + longest_sentence }
{
    let sentence = if r.refusal == 0 {
        rule_sentence(r.rule)
    } else {
        refusal_sentence(r.refusal)
    };
    line::write_text(out, at, sentence)
}
