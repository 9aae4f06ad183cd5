// The player, `explain` and `depth` on each stored input that an argument names: the name on a line, then the text. Behind
// `--reasons` and behind `--words` the inputs are explained, behind `--depth` they are reported on.
//
// Where the expected lines come from:
//   trace_launch_modes      the traces of four launch modes printed in documents 003 and 004
//   trace_single_instance   the traces of a single-instance main screen printed in documents 001, 003 and 004
//   trace_single_program       the trace of a single-program main screen printed in document 001
//   trace_flags             the trace of intent flags printed in document 001, without its two steps that document 01 leaves out
//   trace_versions_7, _8    the example of Android's versions printed in document 001, in editions 7 and 8
// The lines of their starts follow the stacks printed there. The first four are in edition 8, and again in 6 and in 7 under names
// that end so. The printed stacks hold there too, but for the last start of trace_single_instance_6 and of trace_single_program_6: by
// 001's section on Android 6.0 it pushes, where the others bring a program to the front as it is. The example of versions cannot be
// prepared in edition 6; bindings/rust/tests/traces.rs plays it there from a restored session.
// By hand from the rules of documents 01 and 02, lines and reasons:
//   affinity_0              each launch mode with affinity 0, beside screens of affinity 1
//   editions                launches in each edition and in none; edition 7's R9; edition 6's searches; the edition when empty
//   full_main_7             edition 7's R9 in a main program of 32 screens
//   no_history              the No-History mark: set, kept and cleared, and starts from a marked front, in each edition
// By hand from request 11 of document 02, the lines of `depth`:
//   half_10_5, half_12_5    nineteen heights of 1 and one of 2; fifteen of 1 and five of 2: 10.5 and 12.5 tenths
//   half_11_5, half_0_5     seventeen heights of 1 and three of 2; nineteen looks at an empty session and a launch
// Those of all others are from the second navigator; they launch with 0, so the edition behind each accepted line is 8:
//   empty                   an empty input
//   no_screen, bad_n        a table whose N is 0, and one whose N is 65
//   cut_table               a table that is cut in its last row
//   refusal_2               a table with a mode above 3: each record is refused by 2, and by 9 where that applies
//   unknown_kinds           records of unknown kinds between known ones
//   bad_arguments           screens not below N and flag bits outside the seven; two lines, of a start with No-History and of the
//                           next start, by hand
//   limits                  both limits reached, passed and left: 32 screens in a program, 16 programs
//   cut_after_1 to _5       a last record that is cut after so many bytes
//   every_rule              each of R1 to R18, and each refusal of a start under a good table
// The reasons in every_rule and in the traces that end in an edition's number, too, were written by hand from the rules, step by
// step with the stacks, and so were the lines of every_rule's four starts before the look, of which two are finishing starts by R9
// and R7. The reasons in the other inputs are from the second navigator. The screens closed and the edition of each other line were
// made twice, by scripts written from the documents and by the second navigator, and both agree.
#![tactic(auto)]

use player_files::Manner;
use std::fs::File;
use std::rt::{Env, Files};
use std::str;

// The program that files are for: the player or `explain`, or `depth`.
#[derive(Clone, Copy)]
enum Program {
    Player(Manner),
    Depth,
}

// Runs it on the file with this path.
fn run_on(rt: &(impl Files + Print + Eprint), path: &str, program: Program) {
    let mut from = match File::open(rt, path) {
        Ok(from) => from,
        Err(why) => {
            reading::fail(rt, path, why);
            return;
        }
    };
    let _ = rt.println(path);
    match program {
        Program::Player(manner) => player_files::play_from(rt, &mut from, manner),
        Program::Depth => depth_files::report_on(rt, &mut from),
    }
}

// Takes the argument at this place: a program, or a file for the one so far. Yields the program for what follows.
fn take(rt: &(impl Files + Env + Print + Eprint), place: usize, program: Program) -> Program {
    let mut word = [0u8; 4096];
    let n = match rt.arg(place, &mut word) {
        Ok(n) => n,
        Err(why) => {
            reading::fail_argument(rt, why);
            return program;
        }
    };
    match &word[..n] {
        b"--reasons" => return Program::Player(Manner::Reasons),
        b"--words" => return Program::Player(Manner::Sentences),
        b"--depth" => return Program::Depth,
        _ => {}
    }
    let Ok(path) = str::from_utf8(&word[..n]) else {
        let _ = rt.eprintln("argument: no UTF-8 text");
        return program;
    };
    run_on(rt, path, program);
    program
}

fn main(rt: HostRuntime) {
    let mut program = Program::Player(Manner::Lines);
    for i in 1..usize::MAX {
        if !reading::has_argument(&rt, i) {
            return;
        }
        program = take(&rt, i, program);
    }
}
