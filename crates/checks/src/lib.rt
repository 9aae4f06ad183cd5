// The checks that all calls share, 1, 2 and 20: what they say of a table and a session goes with the two.
#![tactic(auto)]

ghost use Rattle.std.specs.Prelude.{◌≡◌};
ghost use Rattle.model.specs.Refusals.{refusal_in};
ghost use Rattle.session.specs.Stored.{Ready};
ghost use Rattle.checks.specs.Shared.{shared_refusal};

use model::Refusal;
use session::Session;

// A table and a session, whatever their bytes say, and what the checks that all calls share say of the two.
#[derive(Clone, Copy)]
pub struct Checked<'a> {
    pub table: &'a [u8],
    pub session: &'a Session,
    pub refused: Result<(), Refusal>,
    pub ghost says: { refusal_in refused ≡ shared_refusal table.now session.now },
}

// A good table and a session that is sound under it, which those checks pass.
pub fn passed<'a>(table: &'a [u8], session: &'a Session) -> Checked<'a>
    requires { Ready table.now session.now }
    ensures table { result.table.now ≡ table.now }
    ensures session { result.session.now ≡ session.now }
{
    Checked {
        table: table,
        session: session,
        refused: Ok(()),
    }
}
