use std::io::{self, Write};

/// Compares written bytes with a text.
#[derive(Clone, Copy)]
pub struct Expecting<'a> {
    left: &'a [u8],
    differs: bool,
    goes_on: bool,
}

impl<'a> Expecting<'a> {
    /// Expects exactly this text.
    pub fn just(text: &'a [u8]) -> Expecting<'a> {
        Expecting {
            left: text,
            differs: false,
            goes_on: false,
        }
    }

    /// Expects this text, followed by any text.
    pub fn front(text: &'a [u8]) -> Expecting<'a> {
        Expecting {
            left: text,
            differs: false,
            goes_on: true,
        }
    }

    /// Returns whether the bytes written so far are as expected and include the whole text.
    pub fn is_met(&self) -> bool {
        self.left.is_empty() && !self.differs
    }

    /// Returns whether the bytes written so far are the beginning of an expected text.
    pub fn is_front(&self) -> bool {
        !self.differs
    }

    pub fn left(&self) -> usize {
        self.left.len()
    }
}

impl Write for Expecting<'_> {
    fn write(&mut self, bytes: &[u8]) -> io::Result<usize> {
        let left = self.left;
        match left.strip_prefix(bytes) {
            Some(rest) => self.left = rest,
            None if self.goes_on && bytes.starts_with(left) => self.left = &[],
            None => self.differs = true,
        }
        Ok(bytes.len())
    }

    fn flush(&mut self) -> io::Result<()> {
        Ok(())
    }
}

/// Compares written bytes with two texts at once.
#[derive(Clone, Copy)]
pub struct Either<'a>(pub Expecting<'a>, pub Expecting<'a>);

impl Write for Either<'_> {
    fn write(&mut self, bytes: &[u8]) -> io::Result<usize> {
        let _ = self.0.write(bytes)?;
        self.1.write(bytes)
    }

    fn flush(&mut self) -> io::Result<()> {
        Ok(())
    }
}
