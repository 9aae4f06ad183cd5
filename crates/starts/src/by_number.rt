// The same for callers who have a refusal as its number, 0 for none: any number is taken, and answered with itself.

ghost use Rattle.std.specs.Prelude.{◌≡◌};
ghost use Rattle.model.specs.Refusals.{refusal as refusal_of, numbered};
ghost use Rattle.model.specs.Flags.{flags_of};
ghost use Rattle.session.specs.Stored.{Ready};
ghost use Rattle.starts.specs.Checks.{start_entry};
ghost use Rattle.starts.specs.Steps.{or_else, decided_stored};
ghost use Rattle.starts.specs.ByNumber.{SoughtByNumber, PlannedIn, decided_in};

use crate::{Decided, Seeker, Sought};
use model::Refusal;
use session::{Session, Task};

// What may be refused, with the refusal by its number.
pub fn numbered<T>(x: Result<T, Refusal>) -> Result<T, u8>
    ensures { result ≡ numbered x }
{
    match x {
        Ok(x) => Ok(x),
        Err(refusal) => Err(refusal.number()),
    }
}

// What a start seeks; refusal is that of the checks before its own.
pub fn seek<By: Seeker>(
    table: &[u8],
    s: Session,
    b: u8,
    word: u32,
    refusal: u8,
) -> Result<Sought, u8>
    requires { refusal ≡ 0 → Ready table.now s }
    ensures { SoughtByNumber table.now s b word refusal result }
{
    if refusal != 0 {
        return Err(refusal);
    }
    numbered(crate::seek::<By>(table, s, b, word, Ok(())))
}

// What is decided of a start of b, or of a finishing one, by what was sought; t is the task at the index.
pub fn decide(
    s: Session,
    t: Task,
    sought: Result<Sought, u8>,
    b: u8,
    finishing: bool,
) -> Result<Decided, u8>
    requires { PlannedIn s b t sought }
    ensures { result ≡ decided_in finishing b s t sought }
{
    match sought {
        Ok(sought) => numbered(crate::decide(s, t, sought, b, finishing)),
        Err(refusal) => Err(refusal),
    }
}

// What is decided of a start of b with a flag word, or of a finishing one; refusal is that of the checks before its own.
pub fn decide_start<By: Seeker>(
    table: &[u8],
    s: Session,
    b: u8,
    word: u32,
    finishing: bool,
    refusal: u8,
) -> Result<Decided, u8>
    requires { refusal ≡ 0 → Ready table.now s }
    ensures { result ≡ decided_stored (or_else refusal (refusal_of (start_entry table.now s.n b word))) table.now s b (flags_of word) finishing }
{
    if refusal == 0 {
        return numbered(crate::decide_start::<By>(table, &s, b, word, finishing, Ok(())));
    }
    Err(refusal)
}
