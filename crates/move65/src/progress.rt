//! A line on a terminal that says how far the runs are.

use std::fs::metadata;
use std::io::Write;
use std::os::unix::fs::MetadataExt;
use std::time::Instant;

/// A line on standard error, if that is a terminal, once the runs have taken a second.
#[derive(Drop)]
pub struct Progress<'r> {
    rt: &'r HostRuntime,
    /// When the runs began, if standard error is a terminal.
    began: Option<Instant>,
    /// After how many tenths of a second the line was written last.
    written: u128,
}

impl<'r> Progress<'r> {
    /// The runs begin. Linux has numbers for kinds of devices: 4 and 5 are consoles, and 136 to 143 windows.
    pub fn new(rt: &'r HostRuntime) -> Progress<'r> {
        let device = metadata(rt, "/dev/stderr").map_or(0, |found| found.rdev() / 256);
        let began = match device {
            4 | 5 | 136..=143 => Instant::now(rt).ok(),
            _ => None,
        };
        Progress {
            rt,
            began,
            written: 9,
        }
    }

    /// Says which address the runs begin at, at most ten times a second.
    pub fn say(&mut self, address: u16) {
        if let Some(began) = self.began
            && let Ok(time) = began.elapsed(self.rt)
            && self.written < time.as_millis() / 100
        {
            self.written = time.as_millis() / 100;
            let _ = write!(self.rt.stderr(), "\rmove65: at ${address:04X} ");
        }
    }

    pub fn end(&self) {
        if 9 < self.written {
            let _ = write!(self.rt.stderr(), "\r\x1B[K");
        }
    }
}
