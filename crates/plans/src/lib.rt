// A call first makes its plan from the session; then one function puts it. The answer is made from the plan. A refused call has none.
#![tactic(auto)]

ghost use Rattle.std.specs.Prelude.{◌+◌, ◌≤◌, ◌≡◌, leb};
ghost use Rattle.model.specs.Session.{most_height, edition_kept};
ghost use Rattle.model.specs.Marks.{closed_at};
ghost use Rattle.plans.specs.Puts.{Puttable, row_put, put_of};
ghost use Rattle.plans.specs.Plans.{still_of, closes_with, gone_by, front_by, pops_by, count_by, main_by, Opens};
ghost use Rattle.plans.specs.Shown.{answer_for, Showable};

pub mod by_number;

use model::{Answer, Position};
use session::{Session, Task};

// The front task after the call, how many tasks go one place back, which task goes then, if one does, whether the
// task behind the front one loses its top screen, the numbers, how many screens close, the edition, and the No-History mark.
#[derive(Clone, Copy)]
pub struct Plan {
    pub front: Task,
    pub main: u8,
    pub shift: u8,
    pub n: u8,
    // 16 for none. As an `Option` of an index it would have to be below 16, a clause more for `put`.
    pub gone: u8,
    pub pops: bool,
    pub closed: u8,
    pub edition: u8,
    pub no_history: u8,
}

// What stands for no task among the indices of tasks, and the last of these.
const NO_TASK: u8 = Session::TASKS as u8;

const LAST: usize = Session::TASKS - 1;

// ---- put

// Puts a plan's row of tasks into the session where it stands, whose numbers stay. Inlined, so that `put` is one body.
#[inline(always)]
pub fn put_row(s: &mut Session, plan: Plan)
    requires { Puttable s.old plan }
    ensures { s.new ≡ row_put s.old plan }
{
    let shift = usize::from(plan.shift);
    s.tasks.copy_within(0..shift, 1);
    s.tasks[0] = plan.front;
    if plan.pops {
        s.tasks[1] = s.tasks[1].pop();
    }
    if plan.gone < NO_TASK {
        let gone = usize::from(plan.gone);
        s.tasks.copy_within(gone + 1..Session::TASKS, gone);
        s.tasks[LAST] = Task::blank();
    }
}

// Puts a plan into the session where it stands: its row of tasks, and its numbers.
pub fn put(s: &mut Session, plan: Plan)
    requires { Puttable s.old plan }
    ensures { s.new ≡ put_of s.old plan }
{
    put_row(s, plan);
    s.n = plan.n;
    s.main = plan.main;
    s.edition = plan.edition;
    s.no_history = plan.no_history;
}

// ---- the answer

// The answer of a call with this plan; second is the task behind the front one before the call.
pub fn answer_of(plan: Plan, second: Task) -> Answer
    requires { Showable plan second }
    ensures { result ≡ answer_for plan second }
{
    if plan.gone == 0 {
        return answer::of_front(
            second,
            plan.n,
            plan.main,
            plan.closed,
            plan.edition,
            plan.no_history,
        );
    }
    let front = plan.front;
    answer::of_front(
        front,
        plan.n,
        plan.main,
        plan.closed,
        plan.edition,
        plan.no_history,
    )
}

// ---- plans

// The plan that changes nothing.
pub fn still(s: Session) -> Plan
    ensures { result ≡ still_of s }
{
    let front = s.tasks[0];
    Plan {
        front: front,
        main: s.main,
        shift: 0,
        n: s.n,
        gone: NO_TASK,
        pops: false,
        closed: 0,
        edition: s.edition,
        no_history: s.no_history,
    }
}

// The task that goes since the marked screen is its only one: 0 the front one, 1 the one behind it, or none.
fn gone_by(mark: Option<Position>, front: u8, second: u8) -> u8
    ensures { result ≡ gone_by mark (leb front 1) (leb second 1) }
{
    let Some(p) = mark else {
        return NO_TASK;
    };
    if p.behind == 0 {
        if front <= 1 {
            return 0;
        }
        return NO_TASK;
    }
    if second <= 1 {
        return 1;
    }
    NO_TASK
}

// The front task, without the marked screen where it stands there with others.
fn front_by(mark: Option<Position>, gone: u8, t: Task) -> Task
    requires { Opens mark t }
    ensures { result ≡ front_by mark gone t }
{
    let Some(p) = mark else {
        return t;
    };
    if (p.behind == 0) & (gone == NO_TASK) {
        return closing::without_screen(t, p.below);
    }
    t
}

// The marked screen is the top of the task behind the front one, and that task stays.
fn pops_by(mark: Option<Position>, gone: u8) -> bool
    ensures { result ≡ pops_by mark gone }
{
    mark.is_some_and(|p| (p.behind != 0) & (gone == NO_TASK))
}

fn count_by(gone: u8, n: u8) -> u8
    requires { 1 ≤ n }
    ensures { result ≡ count_by gone n }
{
    if gone < NO_TASK {
        return n - 1;
    }
    n
}

fn main_by(gone: u8, main: u8) -> u8
    ensures { result ≡ main_by gone main }
{
    if gone < NO_TASK {
        return closing::main_without(gone + 1, main);
    }
    main
}

// So many screens, and the marked one where it stands.
fn closed_with(mark: Option<Position>, closed: u8) -> u8
    requires { closed ≤ most_height }
    ensures { result ≡ closed + closed_at mark }
{
    closed + u8::from(mark.is_some())
}

// The edition where n tasks stand: 8 where none does.
fn edition_by(n: u8, edition: u8) -> u8
    ensures { result ≡ edition_kept n edition }
{
    if n == 0 {
        return 8;
    }
    edition
}

// What moves where a task comes in front, before the marked screen closes: the height of the task behind it, how many tasks go one
// place back, the numbers, the edition, and how many screens closed. The task itself stands beside it: within it costs the player
// half of its instructions more.
#[derive(Clone, Copy)]
pub struct Moved {
    pub second: u8,
    pub shift: u8,
    pub n: u8,
    pub main: u8,
    pub edition: u8,
    pub closed: u8,
}

// The plan of t in front and of that, and then the marked screen closes. The No-History mark is cleared.
pub fn closing_plan(mark: Option<Position>, t: Task, moved: Moved) -> Plan
    requires { Opens mark t × (1 ≤ moved.n) × (moved.closed ≤ most_height) }
    ensures { result ≡ closes_with mark t moved }
{
    let gone = gone_by(mark, t.height, moved.second);
    let left = count_by(gone, moved.n);
    Plan {
        front: front_by(mark, gone, t),
        main: main_by(gone, moved.main),
        shift: moved.shift,
        n: left,
        gone: gone,
        pops: pops_by(mark, gone),
        closed: closed_with(mark, moved.closed),
        edition: edition_by(left, moved.edition),
        no_history: 0,
    }
}
