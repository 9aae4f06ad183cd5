// The searches: for a task, from the front; for a screen in a task, from the top. Places are widened and narrowed by casts: a proof
// computes with a cast, where `from` has a result of its own.
#![tactic(auto)]

ghost use Rattle.std.specs.Prelude.{◌+◌, ◌*◌, ◌<◌, ◌≤◌, ◌≡◌, ◌||◌, eqb, length, position, reverse, ◌==◌, if◌then◌else◌};
ghost use Rattle.model.specs.Session.{most_tasks, most_height};
ghost use Rattle.model.specs.Lists.{find};
ghost use Rattle.model.specs.Search.{akin, seeks_by_root};
ghost use Rattle.session.specs.Stored.{view, view_task, roots_of};
ghost use Rattle.search.specs.Above.{above_of};
ghost use Rattle.search.specs.Numbers.{found_of, sought_in};
ghost use Rattle.search.specs.Ready.{ReadyFor};
ghost use Rattle.search.specs.Roots.{RootsFor};

use session::{Session, Task};

// The root that is stored at each of the 16 places.
pub fn roots_of(s: Session) -> [u8; Session::TASKS]
    ensures { result ≡ roots_of s.tasks }
{
    let mut roots = [0; Session::TASKS];
    for i in 0..Session::TASKS {
        roots[i] = s.tasks[i].root;
    }
    roots
}

// By root: the place of the first of the roots that is b, or 0. Document 01 names the form, a loop that yields the place.
pub fn by_root(roots: &[u8], b: u8) -> u8
    requires { length roots.now ≤ most_tasks }
    ensures { result ≡ find (λ x. eqb x b) roots.now }
{
    let mut i: usize = 0;
    loop {
        if i == roots.len() {
            break 0;
        }
        if roots[i] == b {
            break i as u8 + 1;
        }
        i += 1;
    }
}

// By affinity: the place of the first of the roots that is not single-instance and has b's affinity, or 0. Affinity 0 is none.
// The form is that of by_root.
pub fn by_affinity(table: &[u8], roots: &[u8], b: u8) -> u8
    requires { RootsFor table.now roots.now b }
    ensures { result ≡ find (akin table.now b) roots.now }
{
    let affinity = table::affinity(table, b);
    let mut i: usize = 0;
    loop {
        if i == roots.len() {
            break 0;
        }
        let root = roots[i];
        if (affinity != 0)
            & (table::affinity(table, root) == affinity)
            & !table::is_single_instance(table, root)
        {
            break i as u8 + 1;
        }
        i += 1;
    }
}

// Whether an edition seeks a task for b by root. Edition 6 seeks by affinity only, but for a single-instance screen and for a
// single-task screen of affinity 0.
fn seeks_by_root(table: &[u8], edition: u8, b: u8) -> bool
    requires { 3 + 2 * b < length table.now }
    ensures { result ≡ seeks_by_root table.now edition b }
{
    if edition != 6 {
        return true;
    }
    table::is_single_instance(table, b)
        | (table::is_single_task(table, b) & (table::affinity(table, b) == 0))
}

// By root, where it is sought by root alone or the edition seeks so: the place of the first of the roots that is b, or 0.
fn by_root_in(table: &[u8], edition: u8, roots: &[u8], b: u8, alone: bool) -> u8
    requires { RootsFor table.now roots.now b }
    ensures { result ≡ (if alone || seeks_by_root table.now edition b then find (λ x. eqb x b) roots.now else 0) }
{
    if alone | seeks_by_root(table, edition, b) {
        return by_root(roots, b);
    }
    0
}

// What is added to the place of a task that was found by affinity.
pub const BY_AFFINITY: u8 = Session::TASKS as u8;

// The task sought by root, where the edition seeks so, then, unless it is sought by root alone, by affinity: its place, with
// BY_AFFINITY more where it was found so, or 0. A number, since an enum comes back through memory.
pub fn seek(table: &[u8], s: Session, b: u8, alone: bool) -> u8
    requires { ReadyFor table.now s b }
    ensures { found_of result ≡ sought_in alone table.now s.edition b (view s).tasks }
{
    let stored = roots_of(s);
    let roots = &stored[..s.n as usize];
    let root = by_root_in(table, s.edition, roots, b, alone);
    if (root != 0) | alone {
        return root;
    }
    let kin = by_affinity(table, roots, b);
    if kin == 0 {
        return 0;
    }
    BY_AFFINITY + kin
}

// How many stand above the topmost b of these screens.
fn from_top(screens: &[u8], b: u8) -> Option<usize>
    ensures { result ≡ position (λ x. b == x) (reverse screens.now) }
{
    screens.iter().rev().position(|x| b == *x)
}

// How many screens of a task stand above the topmost b, where one stands.
pub fn topmost(t: Task, b: u8) -> Option<u8>
    requires { t.height ≤ most_height }
    ensures { result ≡ above_of (find (eqb b) (view_task t).screens) }
{
    from_top(&t.screens[..t.height as usize], b).map(|above| above as u8)
}
