// Text that goes out a line at a time.

use arrayvec::ArrayVec;
use std::io::{Stdout, Write};
use std::{fmt, io};

// More bytes than a line of a report has. A longer line would go out in parts.
const ROOM: usize = 64;

// Standard output, to which each line goes by a write of its own. After a fault nothing more goes out.
#[derive(Drop)]
pub(super) struct Lines {
    out: Stdout,
    line: ArrayVec<u8, ROOM>,
    fault: io::Result<()>,
}

impl Lines {
    pub(super) fn new(out: Stdout) -> Lines {
        Lines {
            out,
            line: ArrayVec::new(),
            fault: Ok(()),
        }
    }

    // Writes what is in hand.
    fn send(&mut self) -> fmt::Result {
        let sent = self.out.write_all(self.line.as_slice());
        self.line.clear();
        if sent.is_ok() {
            return Ok(());
        }
        self.fault = sent;
        Err(fmt::Error)
    }

    // What became of the writes.
    pub(super) fn fault(self) -> io::Result<()> {
        self.fault
    }
}

impl fmt::Write for Lines {
    fn write_str(&mut self, text: &str) -> fmt::Result {
        for byte in text.as_bytes() {
            if self.line.is_full() {
                self.send()?;
            }
            let _ = self.line.try_push(*byte);
            if *byte == b'\n' {
                self.send()?;
            }
        }
        Ok(())
    }
}
