// The same for callers who have a refusal as its number: any number is taken, and told.

ghost use Rattle.std.specs.Prelude.{◌≡◌};
ghost use Rattle.reasons.specs.StoredReasons.{reason_made};

use model::Reason;
use starts::Decided;

// The reason of a start of which this was decided.
pub fn of(decided: Result<Decided, u8>) -> Reason
    ensures { result ≡ reason_made decided }
{
    match decided {
        Ok(decided) => crate::of(Ok(decided)),
        Err(refusal) => crate::none(refusal),
    }
}
