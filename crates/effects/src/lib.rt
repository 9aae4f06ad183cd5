// What a rule does to the task in front and to the numbers. Nothing is checked again: what is needed is required.
#![tactic(auto)]

ghost use Rattle.std.specs.Prelude.{◌+◌, ◌≤◌, ◌<◌, ◌≡◌, true, [], IfSome};
ghost use Rattle.model.specs.Lists.{further};
ghost use Rattle.model.specs.Session.{stack, most_tasks, most_height};
ghost use Rattle.model.specs.declared.Change.{Change};
ghost use Rattle.model.specs.declared.Effect.{Effect};
ghost use Rattle.model.specs.Effects.{main_moved};
ghost use Rattle.model.specs.Counts.{created_in, created_by};
ghost use Rattle.session.specs.Stored.{hold_task, with_screens, blank_above};
ghost use Rattle.effects.specs.Carriable.{Placed, Alterable, Changeable};
ghost use Rattle.effects.specs.Fronted.{above_in, cleared_task, base_of, changed_task, closed_in_task, shift_of, change_of, above_for, root_after, front_after, closed_for, count_after, main_after};
ghost use Rattle.effects.specs.Rows.{closed_up, lowest};

use model::{Change, Effect};
use session::{Session, Task};

// ---- the main place

// The main place after the task at a place came to the front.
#[tactic(auto, unfolding(model::specs::Effects::main_moved))]
fn main_moved(place: u8, main: u8) -> u8
    ensures { result ≡ main_moved place main }
{
    if main == 0 {
        return 0;
    }
    if main == place {
        return 1;
    }
    if main < place {
        return main + 1;
    }
    main
}

// The main place after one more task was put in front.
fn main_further(main: u8) -> u8
    requires { main ≤ most_tasks }
    ensures { result ≡ further main }
{
    if main == 0 {
        return 0;
    }
    main + 1
}

// ---- the screens of a task

// A task in which no screen stands.
#[tactic(auto, unfolding(session::specs::Stored::hold_task, session::specs::Stored::pad))]
fn emptied(root: u8) -> Task
    ensures { result ≡ hold_task (stack root []) }
{
    Task {
        root: root,
        height: 0,
        screens: [0; Session::SCREENS],
    }
}

// The h lowest screens stay. Every place is stored, and not those above h alone, for which a copy of the task would have to wait.
fn lowered(t: Task, h: u8) -> Task
    requires { (blank_above t ≡ true) × (h ≤ t.height) }
    ensures { result ≡ lowest h t }
{
    let mut out = t;
    out.height = h;
    for i in 0..Session::HEIGHT {
        let k = usize::from(i);
        out.screens[k] = session::pick(i < h, out.screens[k], 0);
    }
    out
}

// The screen behind m others is gone, the next k come down by one, and b stands where the last of them stood.
pub fn closed_up(t: Task, m: u8, k: u8, b: u8) -> Task
    requires { m + k < most_height }
    ensures { result ≡ with_screens t (closed_up m k b t.screens) }
{
    let to = usize::from(m);
    let mut out = t;
    out.screens.copy_within(to + 1..to + 1 + usize::from(k), to);
    out.with_screen(m + k, b)
}

// How many screens stand above the topmost b, which clear and lift rely on; none for any other change.
fn above_in(t: Task, b: u8, change: Change) -> Option<u8>
    requires { Alterable change t }
    ensures { result ≡ above_in b change t }
{
    match change {
        Change::Clear | Change::Lift => search::topmost(t, b),
        Change::Keep | Change::Renew | Change::Push => None,
    }
}

// Clear to the screen below so many: all above it goes.
fn cleared(t: Task, above: Option<u8>) -> Task
    requires { (blank_above t ≡ true) × IfSome above (λ k. k < t.height) }
    ensures { result ≡ cleared_task above t }
{
    match above {
        Some(above) => lowered(t, t.height - above),
        None => t,
    }
}

// Lift: the topmost b, below so many, goes to the top.
fn lifted(t: Task, b: u8, above: Option<u8>) -> Task
    requires { (blank_above t ≡ true) × (above ≡ above_in b Change.Lift t) }
    ensures { result ≡ changed_task b Change.Lift t }
{
    match above {
        Some(above) => closed_up(t, t.height - 1 - above, above, b),
        None => t,
    }
}

// What b is pushed onto: the task, emptied where it is renewed.
fn base_of(t: Task, change: Change) -> Task
    ensures { result ≡ base_of change t }
{
    match change {
        Change::Renew => emptied(t.root),
        Change::Keep | Change::Clear | Change::Lift | Change::Push => t,
    }
}

// The task after a change of its screens; so many stand above the topmost b.
fn changed(t: Task, b: u8, change: Change, above: Option<u8>) -> Task
    requires { Alterable change t × (above ≡ above_in b change t) }
    ensures { result ≡ changed_task b change t }
{
    let base = base_of(t, change);
    match change {
        Change::Keep => t,
        Change::Clear => cleared(t, above),
        Change::Lift => lifted(t, b, above),
        Change::Renew | Change::Push => base.push(b),
    }
}

// How many screens a change closes in a task of this height: all of an emptied one, those above the topmost b.
fn closed_in(change: Change, height: u8, above: Option<u8>) -> u8
    ensures { result ≡ closed_in_task change height above }
{
    match change {
        Change::Renew => height,
        Change::Clear => above.unwrap_or(0),
        Change::Keep | Change::Lift | Change::Push => 0,
    }
}

// ---- effects

// How many tasks an effect sends one place back; it changes the task behind them. The place is that of the task found.
pub fn shift_of(effect: Effect, place: u8, n: u8) -> u8
    requires { Placed effect place }
    ensures { result ≡ shift_of effect place n }
{
    match effect {
        Effect::New => n,
        Effect::InFront(_) => 0,
        Effect::MoveAnd(_) => place - 1,
    }
}

// What an effect does to the screens of the task in front after it: a new task is one renewed.
fn change_of(effect: Effect) -> Change
    ensures { result ≡ change_of effect }
{
    match effect {
        Effect::New => Change::Renew,
        Effect::InFront(change) => change,
        Effect::MoveAnd(change) => change,
    }
}

// The root of that task: b where it is new.
fn root_after(root: u8, b: u8, effect: Effect) -> u8
    ensures { result ≡ root_after root b effect }
{
    match effect {
        Effect::New => b,
        Effect::InFront(_) => root,
        Effect::MoveAnd(_) => root,
    }
}

// How many screens stand above the topmost b in the task that an effect changes, where the effect clears or lifts.
pub fn above_for(t: Task, b: u8, effect: Effect) -> Option<u8>
    requires { Changeable effect t }
    ensures { result ≡ above_for b effect t }
{
    above_in(t, b, change_of(effect))
}

// The task in front after an effect; t is the one that it changes, and so many stand above the topmost b in it.
pub fn front_after(t: Task, b: u8, effect: Effect, above: Option<u8>) -> Task
    requires { Changeable effect t × (above ≡ above_for b effect t) }
    ensures { result ≡ front_after b effect t }
{
    let mut out = changed(t, b, change_of(effect), above);
    out.root = root_after(t.root, b, effect);
    out
}

// How many screens an effect closes in the task that it changes, by its height and how many stand above the topmost b.
pub fn closed_by(effect: Effect, height: u8, above: Option<u8>) -> u8
    ensures { result ≡ closed_for effect height above }
{
    match effect {
        Effect::New => 0,
        Effect::InFront(change) => closed_in(change, height, above),
        Effect::MoveAnd(change) => closed_in(change, height, above),
    }
}

// The number of tasks after an effect.
pub fn count_after(effect: Effect, n: u8) -> u8
    requires { n ≤ most_tasks }
    ensures { result ≡ count_after effect n }
{
    match effect {
        Effect::New => n + 1,
        Effect::InFront(_) => n,
        Effect::MoveAnd(_) => n,
    }
}

// The main place after an effect.
pub fn main_after(effect: Effect, place: u8, main: u8) -> u8
    requires { effect ≡ Effect.New → main ≤ most_tasks }
    ensures { result ≡ main_after effect place main }
{
    match effect {
        Effect::New => main_further(main),
        Effect::InFront(_) => main,
        Effect::MoveAnd(_) => main_moved(place, main),
    }
}

// ---- screens created

// How many screens a change creates: one by a push, also by that onto an emptied task.
#[tactic(auto, unfolding(model::specs::Counts::created_in))]
fn created_in(change: Change) -> u8
    ensures { result ≡ created_in change }
{
    match change {
        Change::Renew | Change::Push => 1,
        Change::Keep | Change::Clear | Change::Lift => 0,
    }
}

// How many screens an effect creates.
#[tactic(auto, unfolding(model::specs::Counts::created_by))]
pub fn created_by(effect: Effect) -> u8
    ensures { result ≡ created_by effect }
{
    match effect {
        Effect::New => 1,
        Effect::InFront(change) => created_in(change),
        Effect::MoveAnd(change) => created_in(change),
    }
}
