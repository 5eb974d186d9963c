// What waits to be written, and how handles and bytes are written.
ghost use Rattle.std.specs.Prelude.{◌≤◌, length};

use lines::write::put_bytes;
use records::{NodeId, Range};
use std::fmt;

// What waits are the first bytes of the lent ones.
#[derive(Drop)]
pub struct Sink<'a> {
    bytes: &'a mut [u8],
    waiting: usize,
    ghost in_range: { waiting ≤ length bytes.now },
}

impl<'a> Sink<'a> {
    pub fn new(bytes: &'a mut [u8]) -> Sink<'a> {
        Sink { bytes, waiting: 0 }
    }

    // Nothing waits any more.
    pub fn flush(&mut self) {
        io::write_all(1, &self.bytes[..self.waiting]);
        self.waiting = 0;
    }
}

impl fmt::Write for Sink<'_> {
    // What waits goes out first where it leaves no room for the text.
    fn write_str(&mut self, text: &str) -> fmt::Result {
        if self.bytes.len() - self.waiting < text.len() {
            self.flush();
        }
        let end = self.waiting + text.len();
        if end <= self.bytes.len() {
            self.waiting = put_bytes(self.bytes, self.waiting, text.as_bytes());
        } else {
            io::write_all(1, text.as_bytes());
        }
        Ok(())
    }
}

// A handle, `index:generation`.
#[derive(Clone, Copy)]
pub struct Handle(pub NodeId);

impl Handle {
    // The handle that a word of a list holds.
    pub fn of(word: u64) -> Handle {
        Handle(NodeId::from(word))
    }
}

impl fmt::Display for Handle {
    fn fmt<W: fmt::Write>(&self, f: &mut fmt::Formatter<W>) -> fmt::Result {
        let NodeId { index, generation } = self.0;
        write!(f, "{index}:{generation}")
    }
}

// The start and the length of a range.
#[derive(Clone, Copy)]
pub struct Span(pub Range);

impl fmt::Display for Span {
    fn fmt<W: fmt::Write>(&self, f: &mut fmt::Formatter<W>) -> fmt::Result {
        let Range { start, len } = self.0;
        write!(f, "{start},{len}")
    }
}

// Bytes, one a word: `x` and hex.
#[derive(Clone, Copy)]
pub struct Hex<'a>(pub &'a [u64]);

impl fmt::Display for Hex<'_> {
    fn fmt<W: fmt::Write>(&self, f: &mut fmt::Formatter<W>) -> fmt::Result {
        write!(f, "x")?;
        for word in self.0 {
            write!(f, "{word:02x}")?;
        }
        Ok(())
    }
}

// Numbers, each behind a space.
#[derive(Clone, Copy)]
pub struct Numbers<'a>(pub &'a [u64]);

impl fmt::Display for Numbers<'_> {
    fn fmt<W: fmt::Write>(&self, f: &mut fmt::Formatter<W>) -> fmt::Result {
        for word in self.0 {
            write!(f, " {word}")?;
        }
        Ok(())
    }
}

// Handles, each behind a space.
#[derive(Clone, Copy)]
pub struct Handles<'a>(pub &'a [u64]);

impl fmt::Display for Handles<'_> {
    fn fmt<W: fmt::Write>(&self, f: &mut fmt::Formatter<W>) -> fmt::Result {
        for word in self.0 {
            write!(f, " {}", Handle::of(*word))?;
        }
        Ok(())
    }
}

// Handles, with commas between them.
#[derive(Clone, Copy)]
pub struct Joined<'a>(pub &'a [u64]);

impl fmt::Display for Joined<'_> {
    fn fmt<W: fmt::Write>(&self, f: &mut fmt::Formatter<W>) -> fmt::Result {
        for (k, word) in self.0.iter().enumerate() {
            let comma = if k == 0 { "" } else { "," };
            write!(f, "{comma}{}", Handle::of(*word))?;
        }
        Ok(())
    }
}
