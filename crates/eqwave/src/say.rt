// Lines on standard error. Where it takes none, nothing more can be said.
use answers::refused::Numbered;
use eqfile::Refusal;
use std::fmt::Display;
use std::io;
use std::io::Write;

// Some words, and what they tell of.
pub(crate) fn line(rt: &impl Eprint, words: &str, what: &impl Display) {
    let _ = eprintln!(rt; "{words}{what}");
}

// The number of a refusal.
pub(crate) fn refused(rt: &impl Eprint, refusal: Refusal) {
    line(rt, "refused ", &refusal.refused().number);
}

// The system's words, without the number that stands behind them. They end at a zero: how much `write!` filled no contract tells.
fn reason(text: &[u8]) -> &str {
    let all = std::str::from_utf8(text).unwrap_or("");
    match all.split_once(" (os error ") {
        Some((words, _)) => words,
        None => all.trim_end_matches('\0'),
    }
}

// Standard output took no more.
pub(crate) fn output_failed(rt: &impl Eprint, error: io::Error) {
    let mut text = [0u8; 320];
    let mut room: &mut [u8] = &mut text;
    let _ = write!(room, "{error}");
    line(rt, "eqwave: standard output: ", &reason(&text));
}
