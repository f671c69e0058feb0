//! A text in a buffer of fixed size, which does not allocate.

use std::fmt;

/// How many bytes there is room for.
const ROOM: usize = 2048;

/// Text that was written. A write that finds no room is refused.
#[derive(Drop)]
pub struct Sheet {
    bytes: [u8; ROOM],
    len: usize,
}

impl Sheet {
    pub fn new() -> Sheet {
        Sheet {
            bytes: [0; ROOM],
            len: 0,
        }
    }

    pub fn text(&self) -> &str {
        let bytes = self.bytes.get(..self.len).unwrap_or(&[]);
        str::from_utf8(bytes).unwrap_or("")
    }
}

impl fmt::Write for Sheet {
    fn write_str(&mut self, text: &str) -> fmt::Result {
        let Some(room) = self.bytes.get_mut(self.len..) else {
            return Err(fmt::Error);
        };
        let Some(place) = room.get_mut(..text.len()) else {
            return Err(fmt::Error);
        };
        place.copy_from_slice(text.as_bytes());
        self.len = self.len.saturating_add(text.len());
        Ok(())
    }
}
