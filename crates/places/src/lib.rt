// Whether each of four places of a stored session is sound under a good table: the root that stands there, or a number
// that no screen has; and whether four places are blank. Whatever their bytes say, nothing is read outside of their arrays.
#![tactic(auto)]

ghost use Rattle.std.specs.Prelude.{◌+◌, ◌≤◌, ◌≡◌, [], ◌∷◌, length, ltb, set, take};
ghost use Rattle.model.specs.Lists.{all};
ghost use Rattle.model.specs.Table.{table_refusal};
ghost use Rattle.model.specs.Session.{most_tasks, most_height};
ghost use Rattle.session.specs.Stored.{is_blank};
ghost use Rattle.places.specs.PlaceTests.{total, plain_sum, used_sum, expected_sum, root_or, place_root};

use session::{Session, Task};

// A number that no sum of 32 bytes is. A number, and no Option: one comparison with the sum of all 32 bytes tells both.
const NO_SUM: u32 = 0x10000;

// A number that no screen has. No Option: the roots stand in an array of bytes, of which vector code is made.
pub const NO_ROOT: u8 = 255;

// The sum of these bytes: a task's screens, and what stands beyond its height.
fn sum_of(screens: &[u8]) -> u32
    requires { length screens.now ≤ most_height }
    ensures { result ≡ total screens.now }
{
    screens.iter().map(|x| u32::from(*x)).sum()
}

// Storage for four tasks in which nothing stands. Four together, and no end before the last byte: so it becomes vector code.
pub fn blank_four(a: Task, b: Task, c: Task, d: Task) -> bool
    ensures { result ≡ all is_blank (a ∷ b ∷ c ∷ d ∷ []) }
{
    let mut zero = (a.root == 0) & (a.height == 0) & (b.root == 0) & (b.height == 0);
    zero = zero & (c.root == 0) & (c.height == 0) & (d.root == 0) & (d.height == 0);
    for i in 0..Session::SCREENS {
        zero = zero
            & (a.screens[i] == 0)
            & (b.screens[i] == 0)
            & (c.screens[i] == 0)
            & (d.screens[i] == 0);
    }
    zero
}

// The sum of the h lowest screens; a number that no sum is where one of them is not below N or is single-instance.
fn plain_sum(table: &[u8], t: Task, h: usize) -> u32
    requires { (table_refusal table.now ≡ 0) × (h ≤ most_height) }
    ensures { result ≡ plain_sum table.now (take h t.screens) }
{
    let size = table::size(table);
    let mut sum: u32 = 0;
    for x in &t.screens[..h] {
        if *x >= size {
            return NO_SUM;
        }
        if table::is_single_instance(table, *x) {
            return NO_SUM;
        }
        sum += u32::from(*x);
    }
    sum
}

// The sum of the screens up to the height of a sound task, or NO_SUM where those, the height or the root are not sound.
fn used_sum(table: &[u8], t: Task) -> u32
    requires { table_refusal table.now ≡ 0 }
    ensures { result ≡ used_sum table.now t }
{
    let root = t.root;
    if root >= table::size(table) {
        return NO_SUM;
    }
    let h = usize::from(t.height);
    if h < 1 {
        return NO_SUM;
    }
    if h > Session::SCREENS {
        return NO_SUM;
    }
    if !table::is_single_instance(table, root) {
        return plain_sum(table, t, h);
    }
    if h > 1 {
        return NO_SUM;
    }
    if t.top() != root {
        return NO_SUM;
    }
    u32::from(root)
}

// The sum of the screens that a place may hold: of a sound task where one stands, else 0; or NO_SUM.
fn expected_sum(table: &[u8], used: bool, t: Task) -> u32
    requires { table_refusal table.now ≡ 0 }
    ensures { result ≡ expected_sum table.now used t }
{
    if used {
        return used_sum(table, t);
    }
    if t.root != 0 {
        return NO_SUM;
    }
    if t.height != 0 {
        return NO_SUM;
    }
    0
}

// The root at a place that is sound, or NO_ROOT. The task is passed twice: of one all screens are added up, of the other
// those up to its height.
fn place_root(table: &[u8], used: bool, t: Task, again: Task) -> u8
    requires { table_refusal table.now ≡ 0 }
    ensures { result ≡ root_or (expected_sum table.now used t) (total again.screens) t.root }
{
    if expected_sum(table, used, t) != sum_of(&again.screens) {
        return NO_ROOT;
    }
    t.root
}

// The roots with those of four places, from at on, where n tasks stand.
pub fn four_roots(
    table: &[u8],
    n: usize,
    at: usize,
    roots: [u8; Session::TASKS],
    a: Task,
    b: Task,
    c: Task,
    d: Task,
) -> [u8; Session::TASKS]
    requires { (table_refusal table.now ≡ 0) × (at + 4 ≤ most_tasks) }
    ensures { result ≡ set (set (set (set roots
        at (place_root table.now (ltb at n) a))
        (at + 1) (place_root table.now (ltb (at + 1) n) b))
        (at + 2) (place_root table.now (ltb (at + 2) n) c))
        (at + 3) (place_root table.now (ltb (at + 3) n) d) }
{
    let mut out = roots;
    out[at] = place_root(table, at < n, a, a);
    out[at + 1] = place_root(table, at + 1 < n, b, b);
    out[at + 2] = place_root(table, at + 2 < n, c, c);
    out[at + 3] = place_root(table, at + 3 < n, d, d);
    out
}
