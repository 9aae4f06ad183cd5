// A start driven by the flag chart: once the index is formed, neither the six flags nor the screen's mode are read again. The chart's
// entry is decoded into the group of rules and what they ask of the flags; all else is that of a start driven by the rules.
#![tactic(auto)]

ghost use Rattle.std.specs.Prelude.{◌≡◌};
ghost use Rattle.session.specs.Stored.{Ready};
ghost use Rattle.starts.specs.ByNumber.{SoughtByNumber};
ghost use Rattle.chart_starts.specs.Decoding.{group_in, asks_in};

use model::{Flags, Group};
use rules::Asks;
use session::Session;
use starts::{Seeker, Sought};

// ---- an entry

// The group of rules, by the class in the low three bits.
fn group_in(entry: u8) -> Group
    ensures { result ≡ group_in entry }
{
    let class = entry % 8;
    match class {
        1 => Group::Instance,
        2 => Group::Task,
        3 => Group::NotApart,
        _ => Group::Apart,
    }
}

// What the rules ask of the flags, by the values added; class 4 asks for a new task.
fn asks_in(entry: u8) -> Asks
    ensures { result ≡ asks_in entry }
{
    Asks {
        single: entry / 8 % 2 == 1,
        new_task: entry % 8 == 4,
        ctp: entry / 16 % 2 == 1,
        rtf: entry / 64 % 2 == 1,
        ctk: entry / 32 % 2 == 1,
    }
}

// ---- seek

// By way of the chart.
pub struct ByChart;

impl Seeker for ByChart {
    fn seek_task(table: &[u8], s: Session, b: u8, f: Flags) -> Sought {
        let front = s.tasks[0];
        let apart_caller = table::is_single_instance(table, front.top());
        let index = flag_chart::index(table::mode(table, b), apart_caller, f);
        let entry = flag_chart::entry(index);
        let group = group_in(entry);
        let asks = asks_in(entry);
        let found = rules::sought_by(table, s, b, group, asks.new_task);
        Sought {
            index: rules::index_of(found),
            found: found,
            group: group,
            asks: asks,
            noh: f.noh,
        }
    }
}

// What a start seeks by way of the chart; refusal is that of the checks before its own, by its number.
pub fn seek(table: &[u8], s: Session, b: u8, word: u32, refusal: u8) -> Result<Sought, u8>
    requires { refusal ≡ 0 → Ready table.now s }
    ensures { SoughtByNumber table.now s b word refusal result }
{
    starts::by_number::seek::<ByChart>(table, s, b, word, refusal)
}
