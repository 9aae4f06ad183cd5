// `same FIRST SECOND`: whether two recordings end alike. Its data here: the first four records of document 01's example, and
// four other calls and a look that leave the same session, 0:[0,1,0].
#![tactic(auto)]

fn main(rt: HostRuntime) {
    same_files::compare_files(&rt);
}
