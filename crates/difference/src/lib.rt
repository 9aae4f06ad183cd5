// Where two sessions are told apart: a look at both, then Backs in both, up to the first answers that differ.
#![tactic(auto)]

ghost use Rattle.std.specs.Prelude.{◌≤◌, ◌≡◌, ◌↔◌, false};
ghost use Rattle.model.specs.Histories.{AnswerAlike, by_rules};
ghost use Rattle.session.specs.Stored.{view, Ready};
ghost use Rattle.difference.specs.Apart.{most_backs, FirstApart};

use model::Answer;
use session::Session;

// The first answers that differ, and the number of Backs before them; or the last ones, where none differ. No `Option`: `FirstApart`
// tells of these too.
#[derive(Clone, Copy)]
pub struct Difference {
    pub found: bool,
    pub backs: u16,
    pub first: Answer,
    pub second: Answer,
}

// Looks at both sessions, then does Back in both, until the answers differ or both sessions are empty. In a `while`: the answers end it.
// One clause, which is what `checks::passed` asks of each.
pub fn first_difference(table: &[u8], first: Session, second: Session) -> Difference
    requires { Ready table.now first × Ready table.now second }
    ensures apart { FirstApart table.now (view first) (view second) result }
    ensures same { (result.found ≡ false) ↔ (view first ≡ view second) }
    ensures alike { (result.found ≡ false) ↔ AnswerAlike (by_rules table.now) (view first) (view second) }
    ensures bound { result.backs ≤ most_backs }
{
    let mut s = first;
    let mut t = second;
    let mut a = answer::look_at(s);
    let mut b = answer::look_at(t);
    let mut backs: u16 = 0;
    while (a == b) & (s.n != 0) {
        let one = calls::back(&checks::passed(table, &s));
        let other = calls::back(&checks::passed(table, &t));
        s = one.session;
        t = other.session;
        a = one.answer;
        b = other.answer;
        backs += 1;
    }
    Difference {
        found: a != b,
        backs: backs,
        first: a,
        second: b,
    }
}
