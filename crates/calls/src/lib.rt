// Look, launch, Back and the starts on any session under any table. Each takes what the checks that all calls share say of it, makes
// its own checks in document 01's order, and gives the whole call. Launch, Back and the starts are plans that are carried out.
#![tactic(auto)]

ghost use Rattle.std.specs.Prelude.{◌≡◌};
ghost use Rattle.model.specs.Answers.{refused as refused_answer};
ghost use Rattle.model.specs.Calls.{Call, edition_named};
ghost use Rattle.model.specs.Refusals.{refusal_in, refusal_number, numbered};
ghost use Rattle.records.specs.Records.{request_for};
ghost use Rattle.checks.specs.Shared.{shared_refusal};
ghost use Rattle.calls.specs.StoredCalls.{reply, start_of, call_stored, reply_stored, created_stored};
ghost use Rattle.calls.specs.CallPlans.{launch_refusal, launch_plan, back_plan, carried_out, CanCarryOut};
ghost use Rattle.calls.specs.RecordPlans.{plan_in, created_in, unruled, decided_for};

pub mod by_number;

use checks::Checked;
use model::{Answer, Effect, Position, Refusal};
use plans::{Moved, Plan};
use records::{Asked, Record};
use session::Session;
use starts::{ByRules, Decided, Seeker};
use table::Table;

// What a call gives: the session after it, and the answer.
#[repr(C)]
#[derive(Clone, Copy)]
pub struct Reply {
    pub session: Session,
    pub answer: Answer,
}

// A refused call: the session as it was.
pub fn refuse(s: Session, refusal: Refusal) -> Reply
    ensures { result ≡ reply s (refused_answer (refusal_number refusal)) }
{
    Reply {
        session: s,
        answer: answer::refused(refusal.number()),
    }
}

// Look changes nothing.
pub fn look(on: &Checked<'_>) -> Reply
    ensures { result ≡ call_stored on.now.table.now on.now.session.now Call.look }
{
    starts::lengths(*on.session);
    if let Err(refusal) = on.refused {
        return refuse(*on.session, refusal);
    }
    Reply {
        session: *on.session,
        answer: answer::look_at(*on.session),
    }
}

// ---- launch and Back

// The edition that a launch names: 0 stands for 8.
fn edition_named(edition: u8) -> u8
    ensures { result ≡ edition_named edition }
{
    if edition == 0 {
        return 8;
    }
    edition
}

// A launch's own checks: 22 where a task stands, 30 for another edition.
pub fn check_launch(n: u8, edition: u8) -> Result<(), Refusal>
    ensures { refusal_in result ≡ launch_refusal n edition }
{
    if n != 0 {
        return Err(Refusal::TaskStands);
    }
    if !Session::is_edition(edition_named(edition)) {
        return Err(Refusal::UnknownEdition);
    }
    Ok(())
}

// The plan of a launch: on an empty session, a new task of the main screen, in the edition that is named.
pub fn launch_plan(on: &Checked<'_>, edition: u8) -> Result<Plan, Refusal>
    ensures { numbered result ≡ launch_plan (refusal_in on.now.refused) on.now.table.now on.now.session.now edition }
{
    starts::lengths(*on.session);
    on.refused?;
    check_launch(on.session.n, edition)?;
    let main = Table::of(on.table).main_screen();
    let front = effects::front_after(on.session.tasks[0], main, Effect::New, None);
    let moved = Moved {
        second: 0,
        shift: 0,
        n: 1,
        main: 1,
        edition: edition_named(edition),
        closed: 0,
    };
    Ok(plans::closing_plan(None, front, moved))
}

// The plan of a Back: the top screen of the front task closes, as a marked one does.
pub fn back_plan(on: &Checked<'_>) -> Result<Plan, Refusal>
    ensures { numbered result ≡ back_plan (refusal_in on.now.refused) on.now.session.now }
{
    let s = on.session;
    starts::lengths(*s);
    on.refused?;
    if s.n == 0 {
        return Err(Refusal::NoTask);
    }
    let moved = Moved {
        second: 0,
        shift: 0,
        n: s.n,
        main: s.main,
        edition: s.edition,
        closed: 0,
    };
    Ok(plans::closing_plan(Some(Position::TOP), s.tasks[0], moved))
}

// ---- whole calls

// Carries out what is planned, in the session where it stands: to pass the session on and back is to copy it twice.
pub fn carry_out(s: &mut Session, plan: Result<Plan, Refusal>) -> Answer
    requires { CanCarryOut s.old (numbered plan) }
    ensures { reply s.new result ≡ carried_out s.old (numbered plan) }
{
    match plan {
        Ok(plan) => {
            let answer = plans::answer_of(plan, s.tasks[1]);
            plans::put(s, plan);
            answer
        }
        Err(refusal) => answer::refused(refusal.number()),
    }
}

// What a call gives of which this is planned. The reply stands first, and the plan is carried out in its session: a session beside
// it is copied into it and out. Inlined, since a call of this copies the reply.
#[inline(always)]
pub fn reply_of(s: &Session, plan: Result<Plan, Refusal>) -> Reply
    requires { CanCarryOut s.now (numbered plan) }
    ensures { result ≡ carried_out s.now (numbered plan) }
{
    let mut reply = Reply {
        session: *s,
        answer: answer::refused(0),
    };
    reply.answer = carry_out(&mut reply.session, plan);
    reply
}

// Launch, on an empty session, in an edition. It moves and closes no task, so what is launched is stored in its place. The session
// by value, and what the shared checks say beside it: one whose address is taken before it is copied once more.
pub fn launch(table: &[u8], s: Session, edition: u8, refused: Result<(), Refusal>) -> Reply
    requires { refusal_in refused ≡ shared_refusal table.now s }
    ensures { result ≡ call_stored table.now s (Call.launch edition) }
{
    let mut session = s;
    let on = Checked {
        table: table,
        session: &session,
        refused: refused,
    };
    let planned = launch_plan(&on, edition);
    let answer = match planned {
        Ok(plan) => {
            let answer = plans::answer_of(plan, session.tasks[1]);
            session.tasks[0] = plan.front;
            session.n = plan.n;
            session.main = plan.main;
            session.edition = plan.edition;
            session.no_history = plan.no_history;
            answer
        }
        Err(why) => answer::refused(why.number()),
    };
    Reply {
        session: session,
        answer: answer,
    }
}

// Back, on a session that is not empty.
pub fn back(on: &Checked<'_>) -> Reply
    ensures { result ≡ call_stored on.now.table.now on.now.session.now Call.back }
{
    starts::lengths(*on.session);
    reply_of(on.session, back_plan(on))
}

// ---- what was decided

// Its plan.
pub fn plan_of(decided: Result<Decided, Refusal>) -> Result<Plan, Refusal>
    ensures { numbered result ≡ plan_in (numbered decided) }
{
    decided.map(|decided| decided.plan)
}

// The screens that it creates: none where it is refused.
fn created_by(decided: Result<Decided, Refusal>) -> u8
    ensures { result ≡ created_in (numbered decided) }
{
    decided.map_or(0, |decided| decided.created)
}

// ---- starts

// Start of b with a flag word, or a finishing one: the caller closes itself. Inlined, since two calls make it, and its reply would
// be copied to each.
#[inline(always)]
pub fn start<By: Seeker>(on: &Checked<'_>, b: u8, word: u32, finishing: bool) -> Reply
    ensures { result ≡ call_stored on.now.table.now on.now.session.now (start_of finishing b word) }
{
    starts::lengths(*on.session);
    let decided = starts::decide_start::<By>(on.table, on.session, b, word, finishing, on.refused);
    reply_of(on.session, plan_of(decided))
}

// What a start of b with a flag word would answer; nothing is put.
pub fn start_answer(on: &Checked<'_>, b: u8, word: u32) -> Answer
    ensures { result ≡ (call_stored on.now.table.now on.now.session.now (Call.start b word)).answer }
{
    starts::lengths(*on.session);
    match starts::decide_start::<ByRules>(on.table, on.session, b, word, false, on.refused) {
        Ok(decided) => plans::answer_of(decided.plan, on.session.tasks[1]),
        Err(refusal) => refuse(*on.session, refusal).answer,
    }
}

// ---- records

// What is decided of a call whose plan is this, and which creates so many screens: no rule of a start.
fn without_rule(plan: Result<Plan, Refusal>, created: u8) -> Result<Decided, Refusal>
    ensures { numbered result ≡ unruled created (numbered plan) }
{
    plan.map(|plan| starts::without_rule(plan, created))
}

// What is decided of the call that a record asks for.
pub fn decide(on: &Checked<'_>, r: Record) -> Result<Decided, Refusal>
    ensures { numbered result ≡ decided_for r.asked on.now.table.now on.now.session.now (refusal_in on.now.refused) r.screen r.word }
{
    match r.asked {
        Some(Asked::Launch) => without_rule(launch_plan(on, r.screen), 1),
        // One call for both kinds of a start: with one for each, the player costs a quarter more.
        Some(Asked::Start | Asked::FinishingStart) => {
            let finishing = matches!(r.asked, Some(Asked::FinishingStart));
            starts::decide_start::<ByRules>(
                on.table, on.session, r.screen, r.word, finishing, on.refused,
            )
        }
        Some(Asked::Back) => without_rule(back_plan(on), 0),
        Some(Asked::Look) => {
            on.refused?;
            Ok(starts::without_rule(plans::still(*on.session), 0))
        }
        None => Err(Refusal::UnknownRecord),
    }
}

// What a record gives, and how many screens it creates.
#[derive(Clone, Copy)]
pub struct Made {
    pub reply: Reply,
    pub created: u8,
}

// Makes the call that a record asks for.
pub fn make(on: &Checked<'_>, r: Record) -> Made
    ensures reply { result.reply ≡ reply_stored on.now.table.now on.now.session.now (request_for r) }
    ensures created { result.created ≡ created_stored on.now.table.now on.now.session.now (request_for r) }
{
    starts::lengths(*on.session);
    let decided = decide(on, r);
    Made {
        reply: reply_of(on.session, plan_of(decided)),
        created: created_by(decided),
    }
}
