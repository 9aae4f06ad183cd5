// A screen table's bytes: its check, what it says of a screen, and whether one stands at the start of an input.
#![tactic(auto)]

ghost use Rattle.std.specs.Prelude.{◌+◌, ◌*◌, ◌<◌, ◌≡◌, leb, length};
ghost use Rattle.model.specs.Lists.{all_below};
ghost use Rattle.model.specs.Refusals.{refusal_in};
ghost use Rattle.model.specs.Table.{size_of, main_screen, mode_of, affinity_of, is_single_top, is_single_task, is_single_instance, single_instance, table_refusal};
ghost use Rattle.table.specs.Beginnings.{beginning_of};
ghost use Rattle.table.specs.Modes.{mode_named};

pub mod good;
pub mod screen_mode;

pub use crate::good::Table;
pub use crate::screen_mode::{Mode, UnknownMode};
use model::Refusal;

// The most screens that a table has, and the bytes of the longest table.
const SCREENS: u8 = 64;

pub const LONGEST: usize = 2 + 2 * (SCREENS as usize);

// The number of screens.
pub fn size(table: &[u8]) -> u8
    requires { 0 < length table.now }
    ensures { result ≡ size_of table.now }
{
    table[0]
}

// The main screen.
pub fn main_screen(table: &[u8]) -> u8
    requires { 1 < length table.now }
    ensures { result ≡ main_screen table.now }
{
    table[1]
}

// The byte of a screen's mode.
pub fn mode(table: &[u8], x: u8) -> u8
    requires { 2 + 2 * x < length table.now }
    ensures { result ≡ mode_of table.now x }
{
    table[2 + 2 * usize::from(x)]
}

// The mode of a screen, if its byte names one.
pub fn launch_mode(table: &[u8], x: u8) -> Option<Mode>
    requires { 2 + 2 * x < length table.now }
    ensures { result ≡ mode_named (mode_of table.now x) }
{
    Mode::try_from(mode(table, x)).ok()
}

// Whether a screen is single-top.
pub fn is_single_top(table: &[u8], x: u8) -> bool
    requires { 2 + 2 * x < length table.now }
    ensures { result ≡ is_single_top table.now x }
{
    launch_mode(table, x) == Some(Mode::SingleTop)
}

// Whether a screen is single-task.
pub fn is_single_task(table: &[u8], x: u8) -> bool
    requires { 2 + 2 * x < length table.now }
    ensures { result ≡ is_single_task table.now x }
{
    launch_mode(table, x) == Some(Mode::SingleTask)
}

// Whether a screen is single-instance.
pub fn is_single_instance(table: &[u8], x: u8) -> bool
    requires { 2 + 2 * x < length table.now }
    ensures { result ≡ is_single_instance table.now x }
{
    launch_mode(table, x) == Some(Mode::SingleInstance)
}

// The affinity of a screen.
pub fn affinity(table: &[u8], x: u8) -> u8
    requires { 3 + 2 * x < length table.now }
    ensures { result ≡ affinity_of table.now x }
{
    table[3 + 2 * usize::from(x)]
}

// Each of the n modes is one of the four.
fn modes_fit(table: &[u8], n: u8) -> bool
    requires { 2 * n < length table.now }
    ensures { result ≡ all_below n (λ x. leb (mode_of table.now x) single_instance) }
{
    for x in 0..n {
        if launch_mode(table, x).is_none() {
            return false;
        }
    }
    true
}

// Refuses a table whose length or number of screens is wrong, and then one with a wrong main screen or mode.
pub fn check(table: &[u8]) -> Result<(), Refusal>
    ensures { refusal_in result ≡ table_refusal table.now }
{
    let long = table.len();
    if long < 2 {
        return Err(Refusal::TableLength);
    }
    let n = size(table);
    if long != 2 + 2 * usize::from(n) {
        return Err(Refusal::TableLength);
    }
    if n < 1 {
        return Err(Refusal::TableLength);
    }
    if n > SCREENS {
        return Err(Refusal::TableLength);
    }
    if main_screen(table) >= n {
        return Err(Refusal::TableContents);
    }
    if !modes_fit(table, n) {
        return Err(Refusal::TableContents);
    }
    Ok(())
}

// The length that the table at the start of an input has by its N, whether or not so much is there. Without a byte N is 0.
pub fn length_said(input: &[u8]) -> usize
    ensures { result ≡ 2 + 2 * size_of input.now }
{
    if input.len() == 0 {
        return 2;
    }
    2 + 2 * usize::from(size(input))
}

// What an input begins with, where it is no whole table: one of this length that is cut, or an N that no table has.
#[derive(Clone, Copy, PartialEq, Eq)]
pub enum NoTable {
    Cut(usize),
    Bad,
}

// The length of the table at the start of this input.
pub fn beginning_of(input: &[u8]) -> Result<usize, NoTable>
    ensures { result ≡ beginning_of input.now }
{
    let long = length_said(input);
    if long < 4 {
        return Err(NoTable::Bad);
    }
    if long > LONGEST {
        return Err(NoTable::Bad);
    }
    if long > input.len() {
        return Err(NoTable::Cut(long));
    }
    Ok(long)
}
