// Whether any stored session is sound under a good table. Whatever its bytes say, nothing is read outside of its arrays.
#![tactic(auto)]

ghost use Rattle.std.specs.Prelude.{◌+◌, ◌*◌, ◌<◌, ◌≡◌, true, length};
ghost use Rattle.model.specs.Lists.{all, pairwise};
ghost use Rattle.model.specs.Table.{table_refusal, roots_once};
ghost use Rattle.model.specs.Session.{edition_sound, no_history_sound};
ghost use Rattle.session.specs.Stored.{sound_stored};
ghost use Rattle.places.specs.PlaceTests.{is_root};
ghost use Rattle.soundness.specs.Tests.{other_root, roots_known, may_be_roots, main_root_sound};

use session::Session;

// None of the roots is NO_ROOT. All are tested, with no end before the last: so it becomes vector code.
fn all_roots(roots: [u8; Session::TASKS]) -> bool
    ensures { result ≡ all is_root roots }
{
    let mut all = true;
    for root in &roots {
        all = all & (*root != places::NO_ROOT);
    }
    all
}

// No root is b.
fn no_root(roots: &[u8], b: u8) -> bool
    ensures { result ≡ all (other_root b) roots.now }
{
    roots.iter().all(|root| b != *root)
}

// Whether a screen is the root of one task at most.
#[tactic(auto, unfolding(model::specs::Table::roots_once))]
fn roots_once(table: &[u8], b: u8) -> bool
    requires { 2 + 2 * b < length table.now }
    ensures { result ≡ roots_once table.now b }
{
    table::is_single_task(table, b) | table::is_single_instance(table, b)
}

// No single-task or single-instance screen is twice among the roots.
fn roots_differ(table: &[u8], roots: &[u8]) -> bool
    requires { (table_refusal table.now ≡ 0) × (roots_known table.now roots.now ≡ true) }
    ensures { result ≡ pairwise (may_be_roots table.now) roots.now }
{
    for (i, b) in roots.iter().enumerate() {
        if roots_once(table, *b) {
            if !no_root(&roots[i + 1..], *b) {
                return false;
            }
        }
    }
    true
}

// The main place m is 0, or that of one of the roots, which is the main screen.
fn main_sound(table: &[u8], roots: &[u8], m: u8) -> bool
    requires { table_refusal table.now ≡ 0 }
    ensures { result ≡ main_root_sound table.now roots.now m }
{
    let place = usize::from(m);
    if place > roots.len() {
        return false;
    }
    if place == 0 {
        return true;
    }
    roots[place - 1] == table::main_screen(table)
}

// The edition is 6, 7 or 8, and 8 where n is 0.
fn edition_sound(n: u8, edition: u8) -> bool
    ensures { result ≡ edition_sound n edition }
{
    Session::is_edition(edition) & ((n != 0) | (edition == 8))
}

// The No-History mark is 0 or 1, and 0 where n is 0.
fn no_history_sound(n: u8, no_history: u8) -> bool
    ensures { result ≡ no_history_sound n no_history }
{
    (no_history <= 1) & (no_history <= n)
}

// The session is sound under a good table, whose bytes it takes: under a `Table` a restore copies the session twice more. Each four
// places are named: eight forms that say it once were tried, and in each the compiler first copied the session, so that a look took 2
// to 47 ns longer.
pub fn sound(table: &[u8], s: Session) -> bool
    requires { table_refusal table.now ≡ 0 }
    ensures { result ≡ sound_stored table.now s }
{
    // A cast: the proof computes with it.
    let n = s.n as usize;
    if n > Session::TASKS {
        return false;
    }
    let t = s.tasks;
    let none = [0; Session::TASKS];
    let mut roots = places::four_roots(table, n, 0, none, t[0], t[1], t[2], t[3]);
    if n > 4 {
        let next = places::four_roots(table, n, 4, roots, t[4], t[5], t[6], t[7]);
        roots = next;
    } else {
        if !places::blank_four(t[4], t[5], t[6], t[7]) {
            return false;
        }
    }
    if n > 8 {
        let next = places::four_roots(table, n, 8, roots, t[8], t[9], t[10], t[11]);
        roots = next;
    } else {
        if !places::blank_four(t[8], t[9], t[10], t[11]) {
            return false;
        }
    }
    if n > 12 {
        let next = places::four_roots(table, n, 12, roots, t[12], t[13], t[14], t[15]);
        roots = next;
    } else {
        if !places::blank_four(t[12], t[13], t[14], t[15]) {
            return false;
        }
    }
    if !all_roots(roots) {
        return false;
    }
    let standing = &roots[..n];
    if !roots_differ(table, standing) {
        return false;
    }
    main_sound(table, standing, s.main)
        & edition_sound(s.n, s.edition)
        & no_history_sound(s.n, s.no_history)
}
