// Text, numbers and the player's line, byte for byte, into a lent buffer. The buffer and the place go as a pair: with a struct of both
// a writer's caller does not know that the buffer keeps its length, and its goals did not close.
#![tactic(auto)]

ghost use Rattle.std.specs.Prelude.{◌+◌, ◌≤◌, ◌≡◌, [], ◌∷◌, ◌++◌, length};
ghost use Rattle.model.specs.Player.{decimal, line_of, longest_line};
ghost use Rattle.model.specs.Written.{written};

use model::Answer;

// Writes a text. Yields the place after it.
pub fn write_text(out: &mut [u8], at: usize, text: &[u8]) -> usize
    requires { at + length text.now ≤ length out.old }
    ensures place { result ≡ at + length text.now }
    ensures bytes { out.new ≡ written out.old at text.now }
{
    let end = at + text.len();
    out[at..end].copy_from_slice(text);
    end
}

// Writes a number in base ten, and then the byte `end`. Yields the place after it. Most numbers have one digit.
pub fn write_decimal(out: &mut [u8], at: usize, x: u8, end: u8) -> usize
    requires { at + 4 ≤ length out.old }
    ensures place { result ≡ at + length (decimal x ++ end ∷ []) }
    ensures text { out.new ≡ written out.old at (decimal x ++ end ∷ []) }
    ensures bound { result ≤ at + 4 }
{
    if x < 10 {
        out[at] = b'0' + x;
        out[at + 1] = end;
        return at + 2;
    }
    if x < 100 {
        out[at] = b'0' + x / 10;
        out[at + 1] = b'0' + x % 10;
        out[at + 2] = end;
        return at + 3;
    }
    out[at] = b'0' + x / 100;
    out[at + 1] = b'0' + x / 10 % 10;
    out[at + 2] = b'0' + x % 10;
    out[at + 3] = end;
    at + 4
}

// The longest line: the kind and the numbers of an answer, each of at most three digits and what ends it.
pub const LONGEST: usize = 4 * (1 + Answer::NUMBERS);

// Writes the line of a record: its kind, then the answer. Yields the place after it. A loop over the ten numbers takes twice as
// many instructions.
pub fn write_line(out: &mut [u8], at: usize, kind: u8, a: Answer) -> usize
    requires { at + longest_line ≤ length out.old }
    ensures place { result ≡ at + length (line_of kind a) }
    ensures text { out.new ≡ written out.old at (line_of kind a) }
    ensures bound { result ≤ at + longest_line }
{
    let at = write_decimal(out, at, kind, b' ');
    let at = write_decimal(out, at, a.refusal, b' ');
    let at = write_decimal(out, at, a.screen, b' ');
    let at = write_decimal(out, at, a.root, b' ');
    let at = write_decimal(out, at, a.height, b' ');
    let at = write_decimal(out, at, a.tasks, b' ');
    let at = write_decimal(out, at, a.main, b' ');
    let at = write_decimal(out, at, a.closed, b' ');
    let at = write_decimal(out, at, a.edition, b' ');
    write_decimal(out, at, a.no_history, b'\n')
}
