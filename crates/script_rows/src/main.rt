// Scripts at the edges of their form, played and printed, a script to a line. The file stdout is written by hand from docs/RULES.md.
#![tactic(auto)]

use playback::play;
use playback::report::Report;
use plotters_backend::error::number_of;
use std::io;

const SCRIPTS: [&str; 22] = [
    "",
    "\n",
    "S 8 8",
    "S 8 8\n",
    "S 0 8\n",
    "S 8 16385",
    "S 16384 16384",
    "s 8 8",
    "S  8 8",
    "S 8 8 ",
    "S 8",
    "S 000008 8",
    "S 0000008 8",
    "S -8 8",
    "S 8 8\r\n",
    "S 8 8\n\nL 1 0 0 0 0",
    "S 8 8\nL 2 0 0 3 3\nL 1 -0 0 3 0\n",
    "S 8 8\nF 1 0 0 4 0 4 4\nR 1 0 0 0 4 4\n",
    "S 8 8\nL 1 -1 2 1 2\nL 1 2 5 2 3",
    "S 8 8\nL 1 +1 2 1 2\nL -1 0 0 1 1\nL 1 0 0 1 1 1",
    "S 8 8\nL 1 16384 0 16384 0\nL 1 16385 0 0 0\nL 1 0 -16385 0 0",
    "S 8 8\nS 8 8\nL 1 1000000 0 0 0\nL 001 7 7 7 7",
];

// Prints the lines of a report's text on one row.
fn print_report(rt: &HostRuntime, report: &Report) -> io::Result<()> {
    let text = format!(in rt.alloc(); "{report}")?;
    for line in text.lines() {
        print!(rt; " {line};")?;
    }
    println!(rt; "")
}

// A script of a first line and empty lines, of a length.
fn long_script(rt: &HostRuntime, len: usize) -> io::Result<Vec<u8>> {
    let mut text = Vec::new(rt.alloc());
    text.extend_from_slice(b"S 8 8")?;
    text.resize(len, b'\n')?;
    Ok(text)
}

// Prints how many answers a long script gets, and the last.
fn print_long(rt: &HostRuntime, len: usize) -> io::Result<()> {
    let text = long_script(rt, len)?;
    let report = play(rt.alloc(), text.as_slice())?;
    let count = report.answers.len();
    print!(rt; "{len} bytes: {count} answers,")?;
    if let Some((line, answer)) = report.answers.last() {
        let number = number_of(*answer);
        print!(rt; " the last {line} {number}")?;
    }
    println!(rt; "")
}

fn main(rt: HostRuntime) -> io::Result<()> {
    for script in SCRIPTS {
        let report = play(rt.alloc(), script.as_bytes())?;
        print_report(&rt, &report)?;
    }
    print_long(&rt, 32768)?;
    print_long(&rt, 32769)
}
