// Which rule a start uses, the task found for it, what the rule does, and whether there is room for it. The search and the choice
// take the group of rules and what they ask of the flags as values.
#![tactic(auto)]

ghost use Rattle.std.specs.Prelude.{ℕ, ◌+◌, ◌*◌, ◌≤◌, ◌<◌, ◌≡◌, ◌&&◌, ◌||◌, eqb, length, if◌then◌else◌};
ghost use Rattle.model.specs.Table.{is_single_instance};
ghost use Rattle.model.specs.Session.{State, front_screen, most_height};
ghost use Rattle.model.specs.Search.{place_of, holds};
ghost use Rattle.model.specs.Rules.{number_of, group_of, sought_by};
ghost use Rattle.model.specs.Effects.{reordered as reordered_by, effect_of};
ghost use Rattle.model.specs.Calls.{is_push};
ghost use Rattle.model.specs.Refusals.{refusal_in};
ghost use Rattle.session.specs.Stored.{view, view_task};
ghost use Rattle.search.specs.Numbers.{found_of};
ghost use Rattle.rules.specs.Seeks.{seeks_in};
ghost use Rattle.rules.specs.Startable.{Startable};
ghost use Rattle.rules.specs.Shows.{index_of, Filled};
ghost use Rattle.rules.specs.Rooms.{room_by};
ghost use Rattle.rules.specs.Groups.{asks_of, instance_rule, task_rule, not_apart_rule, apart_rule, rule_by};

use model::{By, Change, Effect, Flags, Found, Group, Refusal, Rule};
use session::{Session, Task};

// The place of the task found, or 0: the byte that a reason has in C, and with which the main place, C's too, is compared.
pub fn place_of(found: Option<Found>) -> u8
    ensures { result ≡ place_of found }
{
    found.map_or(0, |f| f.place)
}

// The index of the task found: how many tasks stand before it; 0 where none was found: then the front task is meant.
pub fn index_of(found: Option<Found>) -> usize
    ensures { result ≡ index_of found }
{
    usize::from(place_of(found).saturating_sub(1))
}

// What R9 does with the front task: a lift; in edition 7 the main task is emptied and b pushed.
#[tactic(auto, unfolding(model::specs::Effects::reordered))]
fn reordered(edition: u8, main: u8) -> Change
    ensures { result ≡ reordered_by edition main }
{
    if (edition == 7) & (main == 1) {
        return Change::Renew;
    }
    Change::Lift
}

// What a rule does in an edition, where the main place is so.
#[tactic(auto, unfolding(model::specs::Effects::effect_of))]
pub fn effect_of(rule: Rule, edition: u8, main: u8) -> Effect
    ensures { result ≡ effect_of edition main rule }
{
    match rule {
        Rule::R2 | Rule::R6 | Rule::R11 | Rule::R18 => Effect::New,
        Rule::R7 => Effect::InFront(Change::Keep),
        Rule::R8 => Effect::InFront(Change::Clear),
        Rule::R9 => Effect::InFront(reordered(edition, main)),
        Rule::R10 => Effect::InFront(Change::Push),
        Rule::R3 | Rule::R12 => Effect::MoveAnd(Change::Renew),
        Rule::R4 | Rule::R13 => Effect::MoveAnd(Change::Clear),
        Rule::R5 | Rule::R14 | Rule::R17 => Effect::MoveAnd(Change::Push),
        Rule::R1 | Rule::R15 | Rule::R16 => Effect::MoveAnd(Change::Keep),
    }
}

// The number of a rule, as C and the sentences have it: a match, since no derive gives it.
pub fn number_of(rule: Rule) -> u8
    ensures { result ≡ number_of rule }
{
    match rule {
        Rule::R1 => 1,
        Rule::R2 => 2,
        Rule::R3 => 3,
        Rule::R4 => 4,
        Rule::R5 => 5,
        Rule::R6 => 6,
        Rule::R7 => 7,
        Rule::R8 => 8,
        Rule::R9 => 9,
        Rule::R10 => 10,
        Rule::R11 => 11,
        Rule::R12 => 12,
        Rule::R13 => 13,
        Rule::R14 => 14,
        Rule::R15 => 15,
        Rule::R16 => 16,
        Rule::R17 => 17,
        Rule::R18 => 18,
    }
}

// b stands in the task.
fn holds_screen(t: Task, b: u8) -> bool
    requires { t.height ≤ most_height }
    ensures { result ≡ holds b (view_task t).screens }
{
    search::topmost(t, b).is_some()
}

// What the search and the rules of a group ask of a start: whether it is single, the mode of b being single-top or STP set, and
// whether MTK (a new task), CTP, RTF and CTK are set.
#[derive(Clone, Copy)]
pub struct Asks {
    pub single: bool,
    pub new_task: bool,
    pub ctp: bool,
    pub rtf: bool,
    pub ctk: bool,
}

pub fn asks_of(table: &[u8], b: u8, f: Flags) -> Asks
    requires { 2 + 2 * b < length table.now }
    ensures { result ≡ asks_of table.now b f }
{
    Asks {
        single: table::is_single_top(table, b) | f.stp,
        new_task: f.mtk,
        ctp: f.ctp,
        rtf: f.rtf,
        ctk: f.ctk,
    }
}

// NTK is set, or the front screen a is single-instance.
fn is_apart(table: &[u8], a: u8, f: Flags) -> bool
    requires { 2 + 2 * a < length table.now }
    ensures { result ≡ (f.ntk || is_single_instance table.now a) }
{
    f.ntk | table::is_single_instance(table, a)
}

// The group of rules for a start of b where a is the front screen. A match on the byte: document 01 names this form.
pub fn group_of(table: &[u8], a: u8, b: u8, f: Flags) -> Group
    requires { (2 + 2 * a < length table.now) × (2 + 2 * b < length table.now) }
    ensures { (v : State ℕ) → front_screen v ≡ a → result ≡ group_of table.now v b f }
{
    let mode = table::mode(table, b);
    match mode {
        3 => Group::Instance,
        2 => Group::Task,
        _ => {
            if is_apart(table, a, f) {
                return Group::Apart;
            }
            Group::NotApart
        }
    }
}

// The group seeks a task.
fn seeks(group: Group, new_task: bool) -> bool
    ensures { result ≡ seeks_in group new_task }
{
    match group {
        Group::Instance => true,
        Group::Task => true,
        Group::NotApart => false,
        Group::Apart => !new_task,
    }
}

// What a number of `search::seek` stands for.
fn found_of(number: u8) -> Option<Found>
    ensures { result ≡ found_of number }
{
    if number == 0 {
        return None;
    }
    if number <= search::BY_AFFINITY {
        return Some(Found {
            place: number,
            by: By::Root,
        });
    }
    Some(Found {
        place: number - search::BY_AFFINITY,
        by: By::Affinity,
    })
}

// The task that a group of rules seeks: where the start is apart, none if a new one is asked for.
pub fn sought_by(table: &[u8], s: Session, b: u8, group: Group, new_task: bool) -> Option<Found>
    requires { Startable table.now s b }
    ensures { (f : Flags) → f.mtk ≡ new_task → result ≡ sought_by table.now (view s) b f group }
{
    if !seeks(group, new_task) {
        return None;
    }
    found_of(search::seek(table, s, b, group == Group::Instance))
}

// R1 and R2: b is single-instance.
fn instance_rule(found: Option<Found>) -> Rule
    ensures { result ≡ instance_rule found }
{
    if found.is_some() {
        return Rule::R1;
    }
    Rule::R2
}

// R3 to R6: b is single-task.
fn task_rule(t: Task, b: u8, asks: Asks, found: Option<Found>) -> Rule
    requires { Filled t }
    ensures { result ≡ task_rule asks (view_task t) b found }
{
    if found.is_none() {
        return Rule::R6;
    }
    if asks.ctk {
        return Rule::R3;
    }
    if holds_screen(t, b) {
        return Rule::R4;
    }
    Rule::R5
}

// R7 to R10: not apart; t is the front task. b is looked for only where CTP or RTF is set.
fn not_apart_rule(t: Task, b: u8, asks: Asks) -> Rule
    requires { Filled t }
    ensures { result ≡ not_apart_rule asks (view_task t) b }
{
    if (b == t.top()) & (asks.single | asks.rtf | asks.ctp) {
        return Rule::R7;
    }
    let held = (asks.ctp | asks.rtf) && holds_screen(t, b);
    if asks.ctp & held {
        return Rule::R8;
    }
    if asks.rtf & held {
        return Rule::R9;
    }
    Rule::R10
}

// R11 to R18: apart. b is looked for only where CTP is set.
fn apart_rule(t: Task, main: u8, b: u8, asks: Asks, found: Option<Found>) -> Rule
    requires { Filled t }
    ensures { result ≡ apart_rule asks (view_task t) main b found }
{
    if asks.new_task {
        return Rule::R11;
    }
    let Some(f) = found else {
        return Rule::R18;
    };
    if asks.ctk {
        return Rule::R12;
    }
    if asks.ctp && holds_screen(t, b) {
        return Rule::R13;
    }
    if asks.ctp {
        return Rule::R14;
    }
    if (f.by == By::Root) & (f.place != main) {
        return Rule::R15;
    }
    if asks.single & (t.top() == b) {
        return Rule::R16;
    }
    Rule::R17
}

// The first rule of the group that fits; t is the task that the group's rules read: the task found, or the front task where none
// was found or the group seeks none.
pub fn rule_in(group: Group, t: Task, main: u8, b: u8, asks: Asks, found: Option<Found>) -> Rule
    requires { Filled t }
    ensures { result ≡ rule_by group asks (view_task t) main b found }
{
    match group {
        Group::Instance => instance_rule(found),
        Group::Task => task_rule(t, b, asks, found),
        Group::NotApart => not_apart_rule(t, b, asks),
        Group::Apart => apart_rule(t, main, b, asks, found),
    }
}

// A change pushes onto no task of 32. A height and a count are widened by casts, with which the proofs compute.
fn check_push(t: Task, change: Change) -> Result<(), Refusal>
    ensures { refusal_in result ≡ (if is_push change && eqb t.height most_height then 24 else 0) }
{
    if (change == Change::Push) & ((t.height as usize) == Session::SCREENS) {
        return Err(Refusal::TaskFull);
    }
    Ok(())
}

// There is room: 23 where a new task is needed and n is 16, 24 for a push onto a task of 32; t is the task that the effect changes.
pub fn check_room(n: u8, t: Task, effect: Effect) -> Result<(), Refusal>
    ensures { refusal_in result ≡ room_by n t.height effect }
{
    match effect {
        Effect::New => {
            if (n as usize) == Session::TASKS {
                return Err(Refusal::TasksFull);
            }
            Ok(())
        }
        Effect::InFront(change) => check_push(t, change),
        Effect::MoveAnd(change) => check_push(t, change),
    }
}
