// A start in steps, each a function: its own checks, seek, choose, decide. Which task, which rule and whether there is room is known
// before anything is put, so a refused start has no plan. Its flags are read from the word once, where it seeks.
#![tactic(auto)]

ghost use Rattle.std.specs.Prelude.{◌≡◌};
ghost use Rattle.model.specs.Calls.{caller_closes, no_history_after};
ghost use Rattle.model.specs.Refusals.{refusal as refusal_of, refusal_in, numbered, unless};
ghost use Rattle.model.specs.Flags.{flags_of};
ghost use Rattle.session.specs.Stored.{Ready};
ghost use Rattle.starts.specs.Lengths.{Lengths};
ghost use Rattle.rules.specs.Shows.{Filled};
ghost use Rattle.rules.specs.Startable.{Startable};
ghost use Rattle.starts.specs.Checks.{start_entry};
ghost use Rattle.starts.specs.Steps.{Seeks, or_else, SoughtFrom, chosen_by, room_sought, mark_if, PlannableSomehow, without_rule, accepted_by, decided_by, decided_stored, Planned};

pub mod by_number;

use model::{Change, Effect, Flags, Found, Group, Position, Refusal, Rule};
use plans::{Moved, Plan};
use rules::Asks;
use session::{Session, Task};
use table::Table;

// ---- its own checks

// The checks before it looks for room, where n tasks stand: 3, 4, 21.
pub fn check(table: &Table<'_>, n: u8, b: u8, word: u32) -> Result<(), Refusal>
    ensures { refusal_in result ≡ refusal_of (start_entry table.now n b word) }
{
    if b >= table.size() {
        return Err(Refusal::UnknownScreen);
    }
    if flags::has_other_bit(word) {
        return Err(Refusal::UnknownFlag);
    }
    if n == 0 {
        return Err(Refusal::NoTask);
    }
    Ok(())
}

// ---- seek and choose

// What a start of b seeks: the group of rules, what it asks of the flags, the No-History flag, the task found, and its index (0, the
// front task, where none was found).
#[derive(Clone, Copy)]
pub struct Sought {
    pub index: usize,
    pub found: Option<Found>,
    pub group: Group,
    pub asks: Asks,
    pub noh: bool,
}

// How a start of b with these flags comes by what it seeks.
pub trait Seeker {
    fn seek_task(table: &[u8], s: Session, b: u8, f: Flags) -> Sought
        requires { Startable table.now s b }
        ensures { Seeks table.now s b f result };
}

// By the rules, from the flags and the screen's mode.
pub struct ByRules;

impl Seeker for ByRules {
    fn seek_task(table: &[u8], s: Session, b: u8, f: Flags) -> Sought {
        let front = s.tasks[0];
        let group = rules::group_of(table, front.top(), b, f);
        let asks = rules::asks_of(table, b, f);
        let found = rules::sought_by(table, s, b, group, asks.new_task);
        Sought {
            index: rules::index_of(found),
            found: found,
            group: group,
            asks: asks,
            noh: f.noh,
        }
    }
}

// What a start seeks; checked are the checks before its own. Inlined, since a call of it copies the session.
#[inline(always)]
pub fn seek<By: Seeker>(
    table: &[u8],
    s: Session,
    b: u8,
    word: u32,
    checked: Result<(), Refusal>,
) -> Result<Sought, Refusal>
    requires { refusal_in checked ≡ 0 → Ready table.now s }
    ensures { SoughtFrom table.now s b word (refusal_in checked) result }
{
    checked?;
    check(&Table::of(table), s.n, b, word)?;
    Ok(By::seek_task(table, s, b, flags::read(word)))
}

// What is chosen: the rule, what it does, and the place of the task found, 0 for none, as `rules::place_of` has it.
#[derive(Clone, Copy)]
pub struct Chosen {
    pub rule: Rule,
    pub effect: Effect,
    pub place: u8,
}

// There is room for it, or the refusal 23 or 24; t is the task at the index.
fn choose(s: Session, t: Task, sought: Sought, b: u8) -> Result<Chosen, Refusal>
    requires { Filled t }
    ensures { numbered result ≡ unless (room_sought b s t sought) (chosen_by b s t sought) }
{
    let rule = rules::rule_in(sought.group, t, s.main, b, sought.asks, sought.found);
    let effect = rules::effect_of(rule, s.edition, s.main);
    rules::check_room(s.n, t, effect)?;
    Ok(Chosen {
        rule: rule,
        effect: effect,
        place: rules::place_of(sought.found),
    })
}

// ---- plan

// The caller of a start closes: of a finishing one, and where it has the No-History mark, but by R7.
#[tactic(auto, unfolding(model::specs::Calls::caller_closes))]
fn caller_closes(finishing: bool, no_history: u8, rule: Rule) -> bool
    ensures { result ≡ caller_closes finishing no_history rule }
{
    finishing | ((no_history == 1) & (rule != Rule::R7))
}

// The No-History mark after a start, where noh is the flag: a plain one by R7 leaves it.
#[tactic(auto, unfolding(model::specs::Calls::no_history_after))]
fn no_history_after(finishing: bool, no_history: u8, noh: bool, rule: Rule, effect: Effect) -> u8
    ensures { result ≡ no_history_after finishing no_history noh rule effect }
{
    if !finishing & (rule == Rule::R7) {
        return no_history;
    }
    if noh {
        return effects::created_by(effect);
    }
    0
}

// The mark of a start: none but where its caller closes.
fn mark_if(closes: bool, effect: Effect, place: u8, same: bool) -> Option<Position>
    ensures { result ≡ mark_if closes effect place same }
{
    if closes {
        return closing::mark_of(effect, place, same);
    }
    None
}

// What is decided of a start that is not refused: its plan, the rule, what it does, the task found for it, and how many screens
// the rule alone creates and closes, before a caller closes.
#[derive(Clone, Copy)]
pub struct Decided {
    pub plan: Plan,
    pub rule: Rule,
    pub effect: Effect,
    pub found: Option<Found>,
    pub created: u8,
    pub closed: u8,
}

// What is decided of a call whose plan no rule made, and which creates so many screens: R18 stands for none, and it does nothing.
pub fn without_rule(plan: Plan, created: u8) -> Decided
    ensures { result ≡ without_rule plan created }
{
    Decided {
        plan: plan,
        rule: Rule::R18,
        effect: Effect::InFront(Change::Keep),
        found: None,
        created: created,
        closed: 0,
    }
}

// What is decided of a start for which there is room: the rule's effect, the removal where the caller closes, and the No-History
// mark. t is the task at the index of the task found.
fn accepted(s: Session, t: Task, chosen: Chosen, sought: Sought, b: u8, finishing: bool) -> Decided
    requires { PlannableSomehow s b t chosen }
    ensures { result ≡ accepted_by finishing sought.noh sought.found b s t chosen }
{
    let front = s.tasks[0];
    let rule = chosen.rule;
    let effect = chosen.effect;
    let found = sought.found;
    let closes = caller_closes(finishing, s.no_history, rule);
    let shift = effects::shift_of(effect, chosen.place, s.n);
    let n = effects::count_after(effect, s.n);
    let main = effects::main_after(effect, chosen.place, s.main);
    let mark = mark_if(closes, effect, chosen.place, b == front.top());
    let above = effects::above_for(t, b, effect);
    let next = effects::front_after(t, b, effect, above);
    let closed = effects::closed_by(effect, t.height, above);
    let moved = Moved {
        second: front.height,
        shift: shift,
        n: n,
        main: main,
        edition: s.edition,
        closed: closed,
    };
    let mut plan = plans::closing_plan(mark, next, moved);
    plan.no_history = no_history_after(finishing, s.no_history, sought.noh, rule, effect);
    Decided {
        plan: plan,
        rule: rule,
        effect: effect,
        found: found,
        created: effects::created_by(effect),
        closed: closed,
    }
}

// What is decided of a start of b, or of a finishing one; t is the task at the index.
pub fn decide(
    s: Session,
    t: Task,
    sought: Sought,
    b: u8,
    finishing: bool,
) -> Result<Decided, Refusal>
    requires { Planned s b t sought }
    ensures { numbered result ≡ decided_by finishing b s t sought }
{
    let chosen = choose(s, t, sought, b)?;
    Ok(accepted(s, t, chosen, sought, b, finishing))
}

// The lengths that a session's type says. It does nothing: of a session that is lent the check does not know them.
pub fn lengths(s: Session)
    ensures { Lengths s }
{}

// What is decided of a start of b with a flag word, or of a finishing one; checked are the checks before its own. The session
// is lent, and by itself: one by value is copied, since the task at the index is read from it, and so is one in a `Checked`, by `why`.
pub fn decide_start<By: Seeker>(
    table: &[u8],
    s: &Session,
    b: u8,
    word: u32,
    finishing: bool,
    checked: Result<(), Refusal>,
) -> Result<Decided, Refusal>
    requires { refusal_in checked ≡ 0 → Ready table.now s.now }
    ensures { numbered result ≡ decided_stored (or_else (refusal_in checked) (refusal_of (start_entry table.now s.now.n b word))) table.now s.now b (flags_of word) finishing }
{
    lengths(*s);
    let sought = seek::<By>(table, *s, b, word, checked)?;
    decide(*s, s.tasks[sought.index], sought, b, finishing)
}
