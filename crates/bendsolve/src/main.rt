// bendsolve: a bend file on standard input, its answer on standard output. The answer is made whole before any of it
// is written. An input that cannot be read gets none, and a line on standard error says why; so does one where
// standard output did not take the whole answer.
#![tactic(auto)]

mod input;

use input::Untaken;
use refusals::Refusal;
use std::fmt::InlineText;
use std::io;

// Writes a line to standard error: what failed, a colon and the error's text, without the number that std puts after
// it. Where standard error takes no line either, nothing is left to say it to.
fn fail(rt: &impl Eprint, what: &str, error: io::Error) {
    let text = InlineText::<256>::of(error);
    let (words, _) = text
        .as_str()
        .split_once(" (os error ")
        .unwrap_or((text.as_str(), ""));
    let _ = eprintln!(rt; "{what}: {words}");
}

fn write(rt: &(impl Print + Eprint), answer: &[u8]) {
    if let Err(error) = rt.write_all(answer) {
        fail(
            rt,
            "bendsolve: the answer is not whole: standard output",
            error,
        );
    }
}

fn solve(rt: &(impl Print + Eprint), file: &[u8]) {
    let mut out = [0u8; answer::ROOM];
    let count = answer::of_file(file, &mut out);
    write(rt, &out[..count]);
}

fn refuse(rt: &(impl Print + Eprint), refusal: Refusal) {
    let mut out = [0u8; answer::ROOM];
    let count = printer::refused(u32::from(refusal), &mut out);
    write(rt, &out[..count]);
}

// Fixed memory: nothing here allocates.
fn main(rt: HostRuntime) {
    let mut buffer = [0u8; 65536];
    match input::read(&mut rt.stdin(), &mut buffer) {
        Ok(file) => solve(&rt, file),
        Err(Untaken::TooLong) => refuse(&rt, Refusal::FileSize),
        Err(Untaken::Failed(error)) => fail(&rt, "bendsolve: standard input", error),
    }
}
