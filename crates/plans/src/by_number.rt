// The same for callers who have a refusal as its number, 0 for none: any number is taken, and answered with itself.

ghost use Rattle.std.specs.Prelude.{◌≡◌};
ghost use Rattle.model.specs.Refusals.{unless};
ghost use Rattle.plans.specs.Plans.{still_of};
ghost use Rattle.plans.specs.Shown.{answer_in, ShowableIn};

use crate::Plan;
use model::Answer;
use session::{Session, Task};

// The plan that changes nothing, or the number.
pub fn still(s: Session, refusal: u8) -> Result<Plan, u8>
    ensures { result ≡ unless refusal (still_of s) }
{
    if refusal != 0 {
        return Err(refusal);
    }
    Ok(crate::still(s))
}

// The answer of a call with this plan, or the refused one of the number; second is the task behind the front one before the call.
pub fn answer_of(plan: Result<Plan, u8>, second: Task) -> Answer
    requires { ShowableIn plan second }
    ensures { result ≡ answer_in plan second }
{
    match plan {
        Ok(plan) => crate::answer_of(plan, second),
        Err(refusal) => answer::refused(refusal),
    }
}
