// The same for callers who have a refusal as its number, 0 for none: any number is taken, and answered with itself.

ghost use Rattle.std.specs.Prelude.{◌≡◌};
ghost use Rattle.session.specs.Stored.{Ready};
ghost use Rattle.calls.specs.RecordPlans.{decided_for};

use model::Refusal;
use records::Record;
use session::Session;
use starts::Decided;

// What is decided of the call that a record asks for; refusal is that of the checks before the call's own.
pub fn decide(table: &[u8], s: Session, r: Record, refusal: u8) -> Result<Decided, u8>
    requires { refusal ≡ 0 → Ready table.now s }
    ensures { result ≡ decided_for r.asked table.now s refusal r.screen r.word }
{
    if r.asked.is_none() {
        return Err(Refusal::UnknownRecord.number());
    }
    if refusal != 0 {
        return Err(refusal);
    }
    starts::by_number::numbered(crate::decide(&checks::passed(table, &s), r))
}
