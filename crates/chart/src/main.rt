// `chart`: the flag chart's entries in index order, one a line. Its stdout here is that of tests/flag_chart.py, a script from the
// words of request 9 in document 02.
#![tactic(auto)]

fn main(rt: HostRuntime) {
    let mut text = [0u8; flag_chart::LONGEST];
    let long = flag_chart::write(&mut text);
    reading::print(&rt, &text[..long]);
}
