// Readers and writers that fail.
ghost use Rattle.std.specs.Prelude.{◌≤◌, Some, IfOk};

use std::alloc::Global;
use std::io;
use std::io::{ErrorKind, Read, Write};

/// Each way to fail: std's own `write_all` tries an interrupted call again.
pub const FAULTS: [Fault; 3] = [
    Fault::Fails(ErrorKind::Other),
    Fault::Fails(ErrorKind::Interrupted),
    Fault::MovesNone,
];

/// What a device does in place of moving bytes.
#[derive(Clone, Copy, Debug)]
pub enum Fault {
    /// It fails.
    Fails(ErrorKind),
    /// It takes no byte.
    MovesNone,
}

/// When a device fails: after `room` bytes, once. It would then go on.
#[derive(Drop)]
struct Failing {
    room: usize,
    fault: Option<Fault>,
    has_failed: bool,
    later: usize,
}

impl Failing {
    fn new(room: usize, fault: Option<Fault>) -> Failing {
        Failing {
            room,
            fault,
            has_failed: false,
            later: 0,
        }
    }

    /// How many bytes a call moves that would move this many.
    fn moves(&mut self, most: usize) -> io::Result<usize>
        ensures { IfOk result (λ n. n ≤ most) }
    {
        if self.has_failed {
            self.later = self.later.saturating_add(1);
            return Ok(most);
        }
        let n = most.min(self.room);
        self.room -= n;
        if n == 0 {
            self.has_failed = self.fault.is_some();
            if let Some(Fault::Fails(kind)) = self.fault {
                return Err(io::Error::from(kind));
            }
        }
        Ok(n)
    }
}

/// A reader of some bytes.
#[derive(Drop)]
pub struct Tape<'a> {
    bytes: &'a [u8],
    at_once: usize,
    failing: Failing,
    given: usize,
    reads: usize,
}

impl<'a> Tape<'a> {
    /// Gives the bytes, at most this many at each read, and then ends.
    pub fn new(bytes: &'a [u8], at_once: usize) -> Tape<'a> {
        Tape {
            bytes,
            at_once,
            failing: Failing::new(bytes.len(), None),
            given: 0,
            reads: 0,
        }
    }

    /// Gives this many of the bytes, one at each read, fails once, and then gives the others.
    pub fn failing(bytes: &'a [u8], room: usize, kind: ErrorKind) -> Tape<'a> {
        Tape {
            bytes,
            at_once: 1,
            failing: Failing::new(room, Some(Fault::Fails(kind))),
            given: 0,
            reads: 0,
        }
    }

    /// How many bytes it gave.
    pub fn given(&self) -> usize {
        self.given
    }

    /// How many reads there were.
    pub fn reads(&self) -> usize {
        self.reads
    }

    /// How many reads came after the one that failed.
    pub fn later(&self) -> usize {
        self.failing.later
    }
}

impl Read for Tape<'_> {
    fn read(&mut self, buf: &mut [u8]) -> io::Result<usize> {
        self.reads = self.reads.saturating_add(1);
        let most = self.failing.moves(buf.len().min(self.at_once))?;
        let room = &mut buf[..most];
        let n = self.bytes.read(room)?;
        self.given = self.given.saturating_add(n);
        Ok(n)
    }
}

/// A reader of bytes 00 without end, which counts those that it gave.
#[derive(Drop)]
pub struct Endless {
    given: usize,
}

impl Endless {
    pub fn new() -> Endless {
        Endless { given: 0 }
    }

    /// How many bytes it gave.
    pub fn given(&self) -> usize {
        self.given
    }
}

impl Read for Endless {
    fn read(&mut self, buf: &mut [u8]) -> io::Result<usize> {
        buf.fill(0);
        self.given = self.given.saturating_add(buf.len());
        Ok(buf.len())
    }
}

/// A writer that takes this many bytes, at most eight at each write, meets its fault once, and would then go on.
#[derive(Drop)]
pub struct Short {
    pub bytes: Vec<u8>,
    failing: Failing,
}

impl Short {
    pub fn new(alloc: Global, room: usize, fault: Fault) -> Short {
        Short {
            bytes: Vec::new(alloc),
            failing: Failing::new(room, Some(fault)),
        }
    }

    /// How many writes came after the one that met the fault.
    pub fn later(&self) -> usize {
        self.failing.later
    }
}

impl Write for Short {
    ghost contents = { λ s. Some s.bytes.items };

    fn write(&mut self, buf: &[u8]) -> io::Result<usize> {
        let n = self.failing.moves(buf.len().min(8))?;
        self.bytes.extend_from_slice(&buf[..n])?;
        Ok(n)
    }

    fn flush(&mut self) -> io::Result<()> {
        Ok(())
    }
}

/// A writer that takes one byte at each write.
#[derive(Drop)]
pub struct ByBytes<'a> {
    bytes: &'a mut Vec<u8>,
}

impl<'a> ByBytes<'a> {
    pub fn new(bytes: &'a mut Vec<u8>) -> ByBytes<'a> {
        ByBytes { bytes }
    }
}

impl Write for ByBytes<'_> {
    fn write(&mut self, buf: &[u8]) -> io::Result<usize> {
        let n = buf.len().min(1);
        self.bytes.extend_from_slice(&buf[..n])?;
        Ok(n)
    }

    fn flush(&mut self) -> io::Result<()> {
        Ok(())
    }
}

/// A writer that counts its bytes and its writes, each of which takes at most `at_once` bytes.
#[derive(Debug, Drop)]
pub struct Counted {
    at_once: usize,
    pub bytes: usize,
    pub writes: usize,
}

impl Counted {
    pub fn new(at_once: usize) -> Counted {
        Counted {
            at_once,
            bytes: 0,
            writes: 0,
        }
    }
}

impl Write for Counted {
    fn write(&mut self, buf: &[u8]) -> io::Result<usize> {
        let n = buf.len().min(self.at_once);
        self.bytes = self.bytes.saturating_add(n);
        self.writes = self.writes.saturating_add(1);
        Ok(n)
    }

    fn flush(&mut self) -> io::Result<()> {
        Ok(())
    }
}
