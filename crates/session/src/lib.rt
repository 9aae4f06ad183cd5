// Sessions as they are stored, by value: plain bytes, the same for callers in C and Rust.
#![tactic(auto)]

ghost use Rattle.std.specs.Prelude.{◌<◌, ◌≤◌, ◌≡◌, true, set, if◌then◌else◌};
ghost use Rattle.model.specs.Session.{top as top_of, most_height, is_edition, screens_in};
ghost use Rattle.session.specs.Stored.{blank_task, fresh_session, view, view_task, with_screens, storage_blank, pushed, popped};

// A task: the screen that created it, and its screens, bottom first. An array and a height: C reads it, and memory is fixed.
#[repr(C)]
#[derive(Clone, Copy)]
pub struct Task {
    pub screens: [u8; Session::SCREENS],
    pub root: u8,
    pub height: u8,
}

// A session: n tasks, front first, the main place, the edition (6, 7 or 8, and 8 where no task stands), and the No-History mark: 1
// where the front screen was pushed or made new by a start with the No-History flag, else 0. An array and a count, as a task is.
#[repr(C)]
#[derive(Clone, Copy)]
pub struct Session {
    pub tasks: [Task; Session::TASKS],
    pub n: u8,
    pub main: u8,
    pub edition: u8,
    pub no_history: u8,
}

impl Session {
    // The limits belong to the session: 16 tasks, 32 screens in a task.
    pub const TASKS: usize = 16;

    pub const SCREENS: usize = 32;

    // The second limit, to compare a height with.
    pub const HEIGHT: u8 = Session::SCREENS as u8;

    // A session in which no task stands.
    pub fn fresh() -> Session
        ensures { result ≡ fresh_session }
    {
        Session {
            tasks: [Task::blank(); Session::TASKS],
            n: 0,
            main: 0,
            edition: 8,
            no_history: 0,
        }
    }

    // The editions are 6, 7 and 8.
    pub fn is_edition(edition: u8) -> bool
        ensures { result ≡ is_edition edition }
    {
        (6 <= edition) & (edition <= 8)
    }

    // How many screens stand.
    pub fn standing(self) -> u64
        requires { storage_blank self ≡ true }
        ensures { result ≡ screens_in (view self).tasks }
    {
        let mut total: u64 = 0;
        for t in &self.tasks[..usize::from(self.n)] {
            total += u64::from(t.height);
        }
        total
    }
}

impl Task {
    // Storage for a task in which nothing stands.
    pub fn blank() -> Task
        ensures { result ≡ blank_task }
    {
        Task {
            root: 0,
            height: 0,
            screens: [0; Session::SCREENS],
        }
    }

    // The screen on top.
    pub fn top(self) -> u8
        requires { (0 < self.height) × (self.height ≤ most_height) }
        ensures { result ≡ top_of (view_task self) }
    {
        self.screens[usize::from(self.height - 1)]
    }

    // The task with b at a place of its storage. Every place is stored, and not one byte, for which a copy of the task would have
    // to wait.
    pub fn with_screen(self, at: u8, b: u8) -> Task
        ensures { result ≡ with_screens self (set self.screens at b) }
    {
        let mut out = self;
        for i in 0..Session::HEIGHT {
            let k = usize::from(i);
            out.screens[k] = pick(i == at, b, out.screens[k]);
        }
        out
    }

    // The task with one screen more on top.
    pub fn push(self, b: u8) -> Task
        requires { self.height < most_height }
        ensures { result ≡ pushed self b }
    {
        let mut out = self.with_screen(self.height, b);
        out.height = self.height + 1;
        out
    }

    // The task without its top screen.
    pub fn pop(self) -> Task
        requires { (0 < self.height) × (self.height ≤ most_height) }
        ensures { result ≡ popped self }
    {
        let mut out = self;
        out.screens[usize::from(self.height - 1)] = 0;
        out.height = self.height - 1;
        out
    }
}

// x where c, else y.
pub fn pick(c: bool, x: u8, y: u8) -> u8
    ensures { result ≡ (if c then x else y) }
{
    if c { x } else { y }
}
