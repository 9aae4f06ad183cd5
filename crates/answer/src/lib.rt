// The one place where an answer is made.
#![tactic(auto)]

ghost use Rattle.std.specs.Prelude.{◌≤◌, ◌≡◌};
ghost use Rattle.model.specs.Session.{most_height};
ghost use Rattle.model.specs.Answers.{look_at, refused as refused_answer};
ghost use Rattle.session.specs.Stored.{view};
ghost use Rattle.answer.specs.Seen.{Seen, answer_of};

use model::Answer;
use session::{Session, Task};

// The answer of a call that closed so many screens, where n tasks stand after it, t is the front one, and the main place, the
// edition and the No-History mark are so: zeros for the front task where none stands.
pub fn of_front(t: Task, n: u8, main: u8, closed: u8, edition: u8, no_history: u8) -> Answer
    requires { 1 ≤ n → (1 ≤ t.height) × (t.height ≤ most_height) }
    ensures { result ≡ answer_of t n main closed edition no_history }
{
    if n == 0 {
        return Answer {
            refusal: 0,
            screen: 0,
            root: 0,
            height: 0,
            tasks: 0,
            main: main,
            closed: closed,
            edition: edition,
            no_history: no_history,
        };
    }
    Answer {
        refusal: 0,
        screen: t.top(),
        root: t.root,
        height: t.height,
        tasks: n,
        main: main,
        closed: closed,
        edition: edition,
        no_history: no_history,
    }
}

// What a look at a session shows.
pub fn look_at(s: Session) -> Answer
    requires { Seen s }
    ensures { result ≡ look_at (view s) }
{
    let t = s.tasks[0];
    of_front(t, s.n, s.main, 0, s.edition, s.no_history)
}

// The answer of a refused call: its number and zeros. A number, since the C interface has a byte there.
pub fn refused(refusal: u8) -> Answer
    ensures { result ≡ refused_answer refusal }
{
    Answer {
        refusal: refusal,
        screen: 0,
        root: 0,
        height: 0,
        tasks: 0,
        main: 0,
        closed: 0,
        edition: 0,
        no_history: 0,
    }
}
