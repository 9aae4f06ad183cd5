// The flag chart: what the flags do to a start, a byte for each launch mode, caller and choice of the six flags.
#![tactic(auto)]

ghost use Rattle.std.specs.Prelude.{◌≤◌, ◌≡◌, length};
ghost use Rattle.model.specs.Written.{written};
ghost use Rattle.flag_chart.specs.Chart.{worth, index_of, entry_at, IndexesChart, chart_text, longest_chart};

use entries::{CHART, ENTRIES};
use model::Flags;

mod entries;

// ---- the entries

// The entry at an index; 0, which is no entry, where there is none: the C interface has a byte here.
pub fn entry(index: usize) -> u8
    ensures entry { result ≡ entry_at index }
    ensures indexed { IndexesChart }
{
    if index < ENTRIES {
        return CHART[index];
    }
    0
}

// ---- the index

// What a flag is worth in an index.
fn worth(n: usize, set: bool) -> usize
    ensures value { result ≡ worth n set }
    ensures most { result ≤ n }
{
    if set { n } else { 0 }
}

// The index of a start: B's mode, whether A is single-instance, and the six flags.
pub fn index(mode: u8, apart_caller: bool, f: Flags) -> usize
    ensures { result ≡ index_of mode apart_caller f }
{
    let screens = 128 * usize::from(mode) + worth(64, apart_caller);
    let tasks = worth(32, f.ntk) + worth(16, f.stp) + worth(8, f.mtk);
    screens + tasks + worth(4, f.ctp) + worth(2, f.rtf) + worth(1, f.ctk)
}

// ---- the text

// No text is longer: entries of at most three digits, and a newline behind each.
pub const LONGEST: usize = 4 * ENTRIES;

// Writes the entries in index order, one a line, at the start of a lent buffer. Yields the length of the text.
pub fn write(out: &mut [u8]) -> usize
    requires { longest_chart ≤ length out.old }
    ensures length { result ≡ length chart_text }
    ensures text { out.new ≡ written out.old 0 chart_text }
    ensures bound { result ≤ longest_chart }
{
    let mut at = 0;
    for i in 0..ENTRIES {
        at = line::write_decimal(out, at, entry(i), b'\n');
    }
    at
}
