// Images of sessions: each task's root, height and screens, top first, and six trailer bytes. Any bytes may be read:
// nothing is read outside of them, and reading ends. A byte is widened by a cast here: a proof computes with a cast, where `from` has a
// result of its own.
#![tactic(auto)]

ghost use Rattle.std.specs.Prelude.{◌+◌, ◌<◌, ◌≤◌, ◌≡◌, true, ◌&&◌, eqb, [], ◌∷◌, ◌++◌, length, drop};
ghost use Rattle.model.specs.Session.{most_tasks, most_height, is_edition};
ghost use Rattle.model.specs.Image.{body_of, main_byte, trailer, image, image_shaped, read_tasks};
ghost use Rattle.model.specs.Written.{written};
ghost use Rattle.session.specs.Stored.{view, view_task, storage_blank, hold_task};
ghost use Rattle.image.specs.Readings.{task_in, contents_of, read_stored};
ghost use Rattle.image.specs.Writable.{Writable};

use session::{Session, Task};

// The two bytes that close an image, for each edition: 6, 7 and 8.
const CLOSING: [u8; 6] = *b"\x06\x42\x07\x42\x08\x42";

// ---- writing

// The length of a session's image.
pub fn length(s: Session) -> usize
    requires { storage_blank s ≡ true }
    ensures { result ≡ length (image (view s)) }
{
    let mut sum: usize = 6;
    for t in &s.tasks[..s.n as usize] {
        sum += 2 + t.height as usize;
    }
    sum
}

// Writes the screens of a task, top first. Yields the place after them.
fn write_screens(out: &mut [u8], at: usize, t: Task) -> usize
    requires { (t.height ≤ most_height) × (at + t.height ≤ length out.old) }
    ensures place { result ≡ at + length (view_task t).screens }
    ensures bytes { out.new ≡ written out.old at (view_task t).screens }
    ensures bound { result ≤ at + most_height }
{
    let h = t.height as usize;
    for i in 0..h {
        out[at + i] = t.screens[h - 1 - i];
    }
    at + h
}

// Writes a task: its root, its height, its screens. Yields the place after them.
fn write_task(out: &mut [u8], at: usize, t: Task) -> usize
    requires { (t.height ≤ most_height) × (at + 2 + t.height ≤ length out.old) }
    ensures place { result ≡ at + length (body_of (view_task t ∷ [])) }
    ensures bytes { out.new ≡ written out.old at (body_of (view_task t ∷ [])) }
    ensures bound { result ≤ at + 34 }
{
    out[at] = t.root;
    out[at + 1] = t.height;
    write_screens(out, at + 2, t)
}

// The byte of the main place, with the No-History mark for its bit 7.
fn main_byte(main: u8, no_history: u8) -> u8
    requires { (main < 128) × (no_history ≤ 1) }
    ensures { result ≡ main_byte main no_history }
{
    main + 128 * no_history
}

// Writes the trailer behind `at` bytes; main is the byte of the main place. Yields the place after it.
fn write_trailer(out: &mut [u8], at: usize, n: u8, main: u8, edition: u8) -> usize
    requires { (at < 65536) × ((at + 6 ≤ length out.old) × (is_edition edition ≡ true)) }
    ensures place { result ≡ at + 6 }
    ensures bytes { out.new ≡ written out.old at (trailer at n main edition) }
{
    let place = 2 * (edition as usize - 6);
    out[at] = (at / 256) as u8;
    out[at + 1] = (at % 256) as u8;
    out[at + 2] = n;
    out[at + 3] = main;
    out[at + 4] = CLOSING[place];
    out[at + 5] = CLOSING[place + 1];
    at + 6
}

// Writes a session's image at the start of a lent buffer; the bytes beyond it stay. Yields its length.
pub fn write(s: Session, out: &mut [u8]) -> usize
    requires { Writable s × (length (image (view s)) ≤ length out.old) }
    ensures length { result ≡ length (image (view s)) }
    ensures bytes { out.new ≡ image (view s) ++ drop (length (image (view s))) out.old }
{
    let tasks = &s.tasks[..s.n as usize];
    let mut at: usize = 0;
    for t in tasks {
        at = write_task(out, at, *t);
    }
    write_trailer(out, at, s.n, main_byte(s.main, s.no_history), s.edition)
}

// ---- reading

// These two bytes close an image: they are an edition's.
fn closes(edition: u8, last: u8) -> bool
    ensures { result ≡ (is_edition edition && eqb last 0x42) }
{
    let six = (edition == CLOSING[0]) & (last == CLOSING[1]);
    let seven = (edition == CLOSING[2]) & (last == CLOSING[3]);
    let eight = (edition == CLOSING[4]) & (last == CLOSING[5]);
    six | (seven | eight)
}

// Not refusal 5: a trailer stands at the end, and it names the length of what precedes.
pub fn shaped(image: &[u8]) -> bool
    ensures { result ≡ image_shaped image.now }
{
    let long = image.len();
    if long < 6 {
        return false;
    }
    let end = long - 6;
    let high = image[end] as usize;
    let low = image[end + 1] as usize;
    closes(image[end + 4], image[end + 5]) & (long == 256 * high + low + 6)
}

// The task whose root stands at a place, its height and its screens behind it. The top screen comes first there, and last
// in storage.
fn read_task(body: &[u8], at: usize, height: u8) -> Task
    requires { (height ≤ most_height) × (at + 2 + height ≤ length body.now) }
    ensures { result ≡ hold_task (task_in body.now at height) }
{
    let h = height as usize;
    let bottom = at + 1 + h;
    let mut out = Task {
        root: body[at],
        height: height,
        screens: [0; Session::SCREENS],
    };
    for i in 0..h {
        out.screens[i] = body[bottom - i];
    }
    out
}

// The session that the body is of, if it can be read: exactly n tasks of height 1 to 32, front first.
fn read_tasks(body: &[u8], n: u8, main: u8, edition: u8, no_history: u8) -> Option<Session>
    requires { n ≤ most_tasks }
    ensures { result ≡ contents_of (read_tasks n body.now) main edition no_history }
{
    let mut s = Session::fresh();
    let mut at: usize = 0;
    for i in 0..n as usize {
        if body.len() - at < 2 {
            return None;
        }
        let height = body[at + 1];
        let h = height as usize;
        let left = body.len() - at - 2;
        let fits = (1 <= h) & ((h <= Session::SCREENS) & (h <= left));
        if !fits {
            return None;
        }
        s.tasks[i] = read_task(body, at, height);
        at += 2 + h;
    }
    if at != body.len() {
        return None;
    }
    s.n = n;
    s.main = main;
    s.edition = edition;
    s.no_history = no_history;
    Some(s)
}

// Reads an image, if it can be read: n tasks, 16 at most, the main place, the edition and the No-History mark.
pub fn read(image: &[u8]) -> Option<Session>
    requires { image_shaped image.now ≡ true }
    ensures { result ≡ read_stored image.now }
{
    let end = image.len() - 6;
    let n = image[end + 2];
    let main = image[end + 3] % 128;
    let no_history = image[end + 3] / 128;
    let edition = image[end + 4];
    let few = n as usize <= Session::TASKS;
    if few {
        read_tasks(&image[..end], n, main, edition, no_history)
    } else {
        None
    }
}
