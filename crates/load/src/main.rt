// `load`: the table that standard input begins with, and behind it the records that a seed makes. Here they are the two of seed 1
// under the table of document 01's example.
#![tactic(auto)]

fn main(rt: HostRuntime) {
    if !load_files::load_asked(&rt, &mut rt.stdin()) {
        let _ = eprintln!(rt; "usage: load SEED RECORDS [--records | --state]");
    }
}
