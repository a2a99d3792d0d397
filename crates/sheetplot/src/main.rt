// Reads a chart script, draws it on an archive sheet, and prints the answers and the sheet's pairs.
#![tactic(auto)]

use playback::play;
use std::fmt::Write;
use std::io;
use std::io::Read;

mod lines;

use lines::Lines;

// One byte more than a script may have tells that it is too long.
const ENOUGH: u64 = 32769;

fn main(rt: HostRuntime) -> io::Result<()> {
    let heap = rt.alloc();
    let mut text = Vec::new(heap);
    let _ = rt.stdin().take(ENOUGH).read_to_end(&mut text)?;
    let report = play(heap, text.as_slice())?;
    let mut lines = Lines::new(rt.stdout());
    let _ = write!(lines, "{report}");
    lines.fault()
}
