//! Readers and writers that fail, stop or never end.
use std::io;
use std::io::{ErrorKind, Read, Write};

/// Gives one byte at each read, and fails once, after so many reads.
#[derive(Drop)]
pub struct Stumbling {
    rest: &'static [u8],
    before: usize,
    pub calls: usize,
}

impl Stumbling {
    pub fn new(text: &'static [u8], before: usize) -> Stumbling {
        Stumbling {
            rest: text,
            before,
            calls: 0,
        }
    }
}

impl Read for Stumbling {
    fn read(&mut self, buf: &mut [u8]) -> io::Result<usize> {
        let calls = self.calls;
        self.calls = calls.saturating_add(1);
        if calls == self.before {
            return Err(io::Error::from(ErrorKind::Interrupted));
        }
        if self.rest.is_empty() || buf.is_empty() {
            return Ok(0);
        }
        buf[0] = self.rest[0];
        self.rest = &self.rest[1..];
        Ok(1)
    }
}

/// Gives so many letters at each read, and never ends.
#[derive(Drop)]
pub struct Endless {
    pub step: usize,
    pub calls: usize,
}

impl Read for Endless {
    fn read(&mut self, buf: &mut [u8]) -> io::Result<usize> {
        self.calls = self.calls.saturating_add(1);
        let count = buf.len().min(self.step);
        buf[..count].fill(b'a');
        Ok(count)
    }
}

/// Takes one byte at each write, and fails once, after so many writes.
#[derive(Drop)]
pub struct Faltering {
    before: usize,
    pub calls: usize,
}

impl Faltering {
    pub fn new(before: usize) -> Faltering {
        Faltering { before, calls: 0 }
    }
}

impl Write for Faltering {
    fn write(&mut self, buf: &[u8]) -> io::Result<usize> {
        let calls = self.calls;
        self.calls = calls.saturating_add(1);
        if calls == self.before {
            return Err(io::Error::from(ErrorKind::Interrupted));
        }
        Ok(buf.len().min(1))
    }

    fn flush(&mut self) -> io::Result<()> {
        Ok(())
    }
}

/// Takes no byte.
#[derive(Drop)]
pub struct Stuck {
    pub calls: usize,
}

impl Write for Stuck {
    fn write(&mut self, _buf: &[u8]) -> io::Result<usize> {
        self.calls = self.calls.saturating_add(1);
        Ok(0)
    }

    fn flush(&mut self) -> io::Result<()> {
        Ok(())
    }
}

/// Holds the text that is written, up to 256 bytes, without memory.
#[derive(Drop)]
pub struct Sheet {
    bytes: [u8; 256],
    len: usize,
}

impl Sheet {
    pub fn new() -> Sheet {
        Sheet {
            bytes: [0; 256],
            len: 0,
        }
    }

    pub fn text(&self) -> &[u8] {
        self.bytes.get(..self.len).unwrap_or(&[])
    }
}

impl Write for Sheet {
    fn write(&mut self, buf: &[u8]) -> io::Result<usize> {
        let Some(room) = self.bytes.get_mut(self.len..) else {
            return Ok(0);
        };
        let count = buf.len().min(room.len());
        room[..count].copy_from_slice(&buf[..count]);
        self.len = self.len.saturating_add(count);
        Ok(count)
    }

    fn flush(&mut self) -> io::Result<()> {
        Ok(())
    }
}
