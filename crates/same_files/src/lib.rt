// The program `same`: reads two recordings, prints whether their endings are alike, or where they are told apart.
// It only reads, calls and writes; what it prints is the business of `endings`. Of an input that it cannot take it says what
// is wrong on standard error, and prints nothing; a line there that begins with `warning: ` changes nothing.

#![tactic(auto)]

ghost use Rattle.std.specs.Prelude.{◌≤◌, ◌≡◌, ◌↔◌, false, length, take, IfSome};
ghost use Rattle.model.specs.Table.{table_refusal};
ghost use Rattle.model.specs.Player.{table_in};
ghost use Rattle.endings.specs.Shares.{cut_images};

use endings::Share;
use std::fs::File;
use std::io::Read;
use std::rt::{Env, Files};
use std::str;

// Says what is wrong with a file.
fn complain(rt: &impl Eprint, path: &str, what: &str) {
    let _ = eprintln!(rt; "{path}: {what}");
}

// Warns of what restores bring: a damaged byte may have made one of another call.
fn warn_of_images(rt: &impl Eprint, path: &str, recording: &[u8]) {
    let images = endings::portion_of(recording, Share::Images);
    let restores = images.records;
    if restores.count == 0 {
        return;
    }
    let _ = eprintln!(rt;
        "warning: {path}: bytes taken as images of restores: {}, from record {} on",
        images.bytes, restores.first
    );
}

// Warns of a recording's records that are no call.
fn warn(rt: &impl Eprint, path: &str, recording: &[u8]) {
    let ignored = endings::ignored(recording);
    if ignored.count == 0 {
        return;
    }
    let left = endings::portion_of(recording, Share::LeftOut);
    let numbers = left.records;
    let _ = eprintln!(rt;
        "warning: {path}: records that are no call, of an unknown kind or cut: {}, the first at byte {}; bytes left out: {}, from record {} on",
        ignored.count, ignored.first, left.bytes, numbers.first
    );
}

// The recording ends within a restore, which may have swallowed the rest; it says so.
fn ends_within(rt: &impl Eprint, path: &str, recording: &[u8]) -> bool
    ensures { (result ≡ false) ↔ (cut_images recording.now ≡ 0) }
{
    let cut = endings::portion_of(recording, Share::CutImage);
    let restores = cut.records;
    if restores.count == 0 {
        return false;
    }
    let _ = eprintln!(rt;
        "{path}: ends within a restore, so there is no verdict; it is record {}, and bytes of its image are there: {}",
        restores.first, cut.bytes
    );
    true
}

// Reads all that is left of an open file into the buffer, and yields how many bytes that is. Where it yields nothing, as here and
// below, the file is not taken, and why was said.
fn read_all<R: Read>(rt: &impl Eprint, from: &mut R, path: &str, buffer: &mut [u8]) -> Option<usize>
    ensures { IfSome result (λ long. long ≤ length buffer.new) }
{
    let got = reading::read_full(from, buffer);
    match from.read(&mut [0u8; 1]) {
        Err(why) => {
            reading::fail(rt, path, why);
            None
        }
        Ok(0) => Some(got),
        Ok(_) => {
            complain(rt, path, "longer than 1048576 bytes");
            None
        }
    }
}

// Reads the file with this path into the buffer.
fn read_file(rt: &(impl Files + Eprint), path: &str, buffer: &mut [u8]) -> Option<usize>
    ensures { IfSome result (λ long. long ≤ length buffer.new) }
{
    match File::open(rt, path) {
        Ok(mut from) => read_all(rt, &mut from, path, buffer),
        Err(why) => {
            reading::fail(rt, path, why);
            None
        }
    }
}

// Reads the recording with this path into the buffer. It begins with a good table, and does not end within a restore.
fn read_recording(rt: &(impl Files + Eprint), path: &str, buffer: &mut [u8]) -> Option<usize>
    ensures bound { IfSome result (λ long. long ≤ length buffer.new) }
    ensures table { IfSome result (λ long. table_refusal (table_in (take long buffer.new)) ≡ 0) }
    ensures whole { IfSome result (λ long. cut_images (take long buffer.new) ≡ 0) }
{
    let long = read_file(rt, path, buffer)?;
    let recording = &buffer[..long];
    let refusal = endings::table_refusal(recording);
    if refusal != 0 {
        let _ = eprintln!(rt; "{path}: table refused: {refusal}");
        return None;
    }
    if ends_within(rt, path, recording) {
        return None;
    }
    warn_of_images(rt, path, recording);
    warn(rt, path, recording);
    Some(long)
}

// Reads the recording that the argument at this place names.
fn load(rt: &(impl Files + Env + Eprint), place: usize, buffer: &mut [u8]) -> Option<usize>
    ensures bound { IfSome result (λ long. long ≤ length buffer.new) }
    ensures table { IfSome result (λ long. table_refusal (table_in (take long buffer.new)) ≡ 0) }
    ensures whole { IfSome result (λ long. cut_images (take long buffer.new) ≡ 0) }
{
    let mut path = [0u8; 4096];
    let n = match rt.arg(place, &mut path) {
        Ok(n) => n,
        Err(why) => {
            reading::fail_argument(rt, why);
            return None;
        }
    };
    let Ok(name) = str::from_utf8(&path[..n]) else {
        complain(rt, "argument", "no UTF-8 text");
        return None;
    };
    read_recording(rt, name, buffer)
}

// Prints the verdict on two recordings, or says that their tables differ.
fn tell(rt: &(impl Print + Eprint), first: &[u8], second: &[u8])
    requires first_value { table_refusal (table_in first.now) ≡ 0 }
    requires first_value_2 { (cut_images first.now ≡ 0) × (cut_images second.now ≡ 0) }
{
    if !endings::same_table(first, second) {
        let _ = rt.eprintln("the tables differ");
        return;
    }
    let d = endings::compare(first, second);
    let mut out = [0u8; endings::LONGEST_VERDICT];
    let long = endings::write_verdict(&mut out, d);
    if let Err(why) = rt.write_all(&out[..long]) {
        reading::fail(rt, "standard output", why);
    }
}

// The verdict on the recordings that the arguments at two places name. What is read and written no contract can say; what a
// verdict is stands in `endings`.
pub fn compare_named(rt: &(impl Files + Env + Print + Eprint), i: usize, j: usize) {
    let mut first = [0u8; 1048576];
    let Some(m) = load(rt, i, &mut first) else {
        return;
    };
    let mut second = [0u8; 1048576];
    let Some(n) = load(rt, j, &mut second) else {
        return;
    };
    tell(rt, &first[..m], &second[..n]);
}

// The same of the program's two arguments.
pub fn compare_files(rt: &(impl Files + Env + Print + Eprint)) {
    if !reading::has_argument(rt, 2) | reading::has_argument(rt, 3) {
        let _ = rt.eprintln("usage: same FIRST SECOND");
        return;
    }
    compare_named(rt, 1, 2);
}
