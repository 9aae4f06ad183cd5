// `same` on each pair of stored recordings that the arguments name: both names on a line, then what `same` prints of them.
//
//   apart_first, apart_second    end in 3:[3] 0:[2,1,1,0] and, by a restore, in 3:[3] 0:[2,1,2,0]: three Backs tell them apart
//   good_table, mode_above_3     the second one's table is refused with 2, and nothing is printed
//   launched_6, launched_7       end in 0:[1,0], in editions 6 and 7: a look tells them apart
//   launched_6, restored_6       the second one is launched in edition 8, and a restore brings it where the first one ends
//   marked, unmarked             end in 0:[1,0], and only the first one has the No-History mark: a look tells them apart
//   marked, restored_marked      the second one is restored with the mark
//   emptied_6, refused_editions  both end empty: one by a Back in edition 6, one after a launch and restores that are all refused
#![tactic(auto)]

use std::rt::{Env, Files};

// Prints the argument at this place and what ends it.
fn show(rt: &(impl Env + Print), place: usize, end: &[u8]) {
    let mut name = [0u8; 4096];
    let n = rt.arg(place, &mut name).unwrap_or(0);
    let _ = rt.write_all(&name[..n]);
    let _ = rt.write_all(end);
}

// Compares the recordings of the pair that ends at this place, if one does.
fn compare_pair(rt: &(impl Files + Env + Print + Eprint), place: usize) {
    if place == 0 {
        return;
    }
    if place % 2 == 1 {
        return;
    }
    let first = place - 1;
    show(rt, first, b" ");
    show(rt, place, b"\n");
    same_files::compare_named(rt, first, place);
}

fn main(rt: HostRuntime) {
    for i in 1..usize::MAX {
        if !reading::has_argument(&rt, i) {
            return;
        }
        compare_pair(&rt, i);
    }
}
