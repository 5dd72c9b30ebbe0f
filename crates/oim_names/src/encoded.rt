ghost use Rattle.std.specs.Prelude.{◌≡◌, IfOk};

use std::alloc::{AllocError, Global};
use std::marker::Model;

/// The bytes of a text, which need not be valid UTF-8. Contracts see a list of bytes.
#[derive(Debug, Drop)]
pub struct Encoded {
    bytes: Vec<u8>,
}

impl Model for Encoded {
    ghost use Rattle.std.specs.Prelude.{List, ℕ};

    ghost Value = { List ℕ };

    ghost view = { λ e. e.bytes.items };
}

impl Encoded {
    /// Copies these bytes.
    ///
    /// Errors: out of memory.
    pub fn new(alloc: Global, bytes: &[u8]) -> Result<Encoded, AllocError>
        ensures { IfOk result (λ made. made ≡ bytes.now) }
    {
        let bytes = Vec::from_slice(alloc, bytes)?;
        Ok(Encoded { bytes })
    }

    /// Takes these bytes without a copy.
    pub fn from_vec(bytes: Vec<u8>) -> Encoded
        ensures { result ≡ bytes.items }
    {
        Encoded { bytes }
    }

    /// Returns all bytes of the text.
    pub fn as_bytes(&self) -> &[u8]
        ensures { result.now ≡ self.now }
    {
        self.bytes.as_slice()
    }
}
