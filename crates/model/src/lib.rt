// Documents 01 and 02 as definitions (specs/) and the theorems about them (proofs/). Here stand only the plain structs and enums that
// definitions and code share, and the number of a refusal.
#![tactic(auto)]

ghost use Rattle.std.specs.Prelude.{◌≡◌};
ghost use Rattle.model.specs.Refusals.{refusal_number};

// An answer is nine numbers, a byte each for callers in C: the refusal (0 if none); after the call, the front screen, the front
// root, the front height, the number of tasks and the main place; the screens that the call closed; and after it the edition and
// the No-History mark.
#[repr(C)]
#[derive(Clone, Copy, PartialEq, Eq)]
pub struct Answer {
    pub refusal: u8,
    pub screen: u8,
    pub root: u8,
    pub height: u8,
    pub tasks: u8,
    pub main: u8,
    pub closed: u8,
    pub edition: u8,
    pub no_history: u8,
}

impl Answer {
    pub const NUMBERS: usize = 9;
}

// Why a call is refused. A comment gives the number of each in the documents.
#[derive(Clone, Copy, PartialEq, Eq)]
pub enum Refusal {
    TableLength, // 1
    TableContents, // 2
    UnknownScreen, // 3
    UnknownFlag, // 4
    ImageEnd, // 5
    ImageTasks, // 6
    ImageUnsound, // 7
    BufferShort, // 8
    UnknownRecord, // 9
    SessionUnsound, // 20
    NoTask, // 21
    TaskStands, // 22
    TasksFull, // 23
    TaskFull, // 24
    UnknownEdition, // 30
    TallyRefused, // 31
    SeedZero, // 32
    UnknownBits, // 35
    StepUnsound, // 36
    PanelsFull, // 37
    StepsOrder, // 38
}

impl Refusal {
    // Its number: a match, since the documents' numbers have gaps.
    pub fn number(self) -> u8
        ensures { result ≡ refusal_number self }
    {
        match self {
            Refusal::TableLength => 1,
            Refusal::TableContents => 2,
            Refusal::UnknownScreen => 3,
            Refusal::UnknownFlag => 4,
            Refusal::ImageEnd => 5,
            Refusal::ImageTasks => 6,
            Refusal::ImageUnsound => 7,
            Refusal::BufferShort => 8,
            Refusal::UnknownRecord => 9,
            Refusal::SessionUnsound => 20,
            Refusal::NoTask => 21,
            Refusal::TaskStands => 22,
            Refusal::TasksFull => 23,
            Refusal::TaskFull => 24,
            Refusal::UnknownEdition => 30,
            Refusal::TallyRefused => 31,
            Refusal::SeedZero => 32,
            Refusal::UnknownBits => 35,
            Refusal::StepUnsound => 36,
            Refusal::PanelsFull => 37,
            Refusal::StepsOrder => 38,
        }
    }
}

// The seven flags of a flag word: new task, single top, multiple task, clear top, reorder to front, clear task, no history.
#[derive(Clone, Copy)]
pub struct Flags {
    pub ntk: bool,
    pub stp: bool,
    pub mtk: bool,
    pub ctp: bool,
    pub rtf: bool,
    pub ctk: bool,
    pub noh: bool,
}

// The rules of a start.
#[derive(Clone, Copy, PartialEq, Eq)]
pub enum Rule {
    R1,
    R2,
    R3,
    R4,
    R5,
    R6,
    R7,
    R8,
    R9,
    R10,
    R11,
    R12,
    R13,
    R14,
    R15,
    R16,
    R17,
    R18,
}

// The groups of rules: b is single-instance; b is single-task; otherwise not apart; otherwise apart.
#[derive(Clone, Copy, PartialEq, Eq)]
pub enum Group {
    Instance,
    Task,
    NotApart,
    Apart,
}

// How a task was found.
#[derive(Clone, Copy, PartialEq, Eq)]
pub enum By {
    Root,
    Affinity,
}

// A task that was found: its place, and how.
#[derive(Clone, Copy)]
pub struct Found {
    pub place: u8,
    pub by: By,
}

// The rule that a start uses, and the task that was found for it, if one was.
#[derive(Clone, Copy)]
pub struct Choice {
    pub rule: Rule,
    pub found: Option<Found>,
}

// Why a start went as it did, a byte each for callers in C: its refusal (0 if none), the number of its rule, the place of the task
// found (0 if none), and how it was found (0 none, 1 by root, 2 by affinity).
#[repr(C)]
#[derive(Clone, Copy, PartialEq, Eq)]
pub struct Reason {
    pub refusal: u8,
    pub rule: u8,
    pub place: u8,
    pub found: u8,
}

// What is done with the screens of a task: nothing; empty, push B; clear to B; lift; push B.
#[derive(Clone, Copy, PartialEq, Eq)]
pub enum Change {
    Keep,
    Renew,
    Clear,
    Lift,
    Push,
}

// What a rule does: a new task; a change of the front task; or a move and a change of the task moved.
#[derive(Clone, Copy)]
pub enum Effect {
    New,
    InFront(Change),
    MoveAnd(Change),
}

// Where a screen stands: so many tasks in front of its own, and so many screens above it.
#[derive(Clone, Copy)]
pub struct Position {
    pub behind: u8,
    pub below: u8,
}

impl Position {
    // On top of the front task; under that screen; on top of the task behind it.
    pub const TOP: Position = Position {
        behind: 0,
        below: 0,
    };

    pub const UNDER_TOP: Position = Position {
        behind: 0,
        below: 1,
    };

    pub const TOP_BEHIND: Position = Position {
        behind: 1,
        below: 0,
    };
}
