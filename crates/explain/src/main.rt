// `explain`: what the player says of standard input, and under each start the reason: four numbers, and with `--words` a
// sentence. Its stdin here is document 01's example.
#![tactic(auto)]

use player_files::Manner;
use std::rt::Env;

// The first argument is `--words`.
fn words_asked(rt: &impl Env) -> bool {
    let mut word = [0u8; 4096];
    let n = rt.arg(1, &mut word).unwrap_or(0);
    &word[..n] == b"--words".as_slice()
}

fn main(rt: HostRuntime) {
    if !reading::has_argument(&rt, 1) {
        player_files::play_from(&rt, &mut rt.stdin(), Manner::Reasons);
        return;
    }
    if !reading::has_argument(&rt, 2) & words_asked(&rt) {
        player_files::play_from(&rt, &mut rt.stdin(), Manner::Sentences);
        return;
    }
    let _ = eprintln!(rt; "usage: explain [--words]");
}
