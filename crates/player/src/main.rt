// The player of document 01, on standard input and output. Its stdin and stdout here are the document's example.
#![tactic(auto)]

use player_files::Manner;

fn main(rt: HostRuntime) {
    player_files::play_from(&rt, &mut rt.stdin(), Manner::Lines);
}
