// `depth`: the report on a recording on standard input. Its stdin here is document 01's example; the heights after the seven
// accepted calls are 1 2 1 3 2 1 0, whose mean is 1.43.
#![tactic(auto)]

fn main(rt: HostRuntime) {
    depth_files::report_on(&rt, &mut rt.stdin());
}
