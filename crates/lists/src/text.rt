ghost use Rattle.std.specs.Prelude.{◌≡◌, ◌==◌, length, IfOk};
ghost use Rattle.std.specs.String.{string_bytes};
ghost use Rattle.lists.specs.Utf8.{GivesText};

use crate::copied::Copied;
use crate::memory::Memory;
use std::alloc::Global;
use std::marker::Model;
use thiserror::Error;

/// A text, which contracts see as the list of its UTF-8 bytes.
#[derive(Debug, Drop)]
pub struct Text {
    inside: String,
}

impl Model for Text {
    ghost use Rattle.std.specs.Prelude.{ℕ, List};
    ghost use Rattle.std.specs.String.{string_bytes};

    ghost Value = { List ℕ };

    ghost view = { λ t. string_bytes t.inside };
}

/// Why bytes are no text.
#[derive(Clone, Copy, Debug, PartialEq, Eq, Error)]
pub enum TextFault {
    #[error("not UTF-8")]
    NotUtf8,
    #[error("out of memory")]
    Memory,
}

impl Text {
    /// The text of these bytes, where they are UTF-8.
    pub fn from_bytes(alloc: Global, bytes: &[u8]) -> Result<Text, TextFault>
        ensures { GivesText result bytes.now }
    {
        let Ok(text) = std::str::from_utf8(bytes) else {
            return Err(TextFault::NotUtf8);
        };
        match String::from_str(alloc, text) {
            Ok(inside) => Ok(Text { inside }),
            Err(_) => Err(TextFault::Memory),
        }
    }

    /// A copy of a `&str`.
    pub fn from_text(alloc: Global, text: &str) -> Result<Text, Memory>
        ensures { IfOk result (λ t. t ≡ text.now) }
    {
        let inside = String::from_str(alloc, text)?;
        Ok(Text { inside })
    }

    /// A string, taken over as it is.
    pub fn from_string(inside: String) -> Text
        ensures { result ≡ string_bytes inside }
    {
        Text { inside }
    }

    /// The UTF-8 bytes.
    pub fn as_slice(&self) -> &[u8]
        ensures { result.now ≡ self.now }
    {
        self.inside.as_bytes()
    }

    pub fn as_str(&self) -> &str
        ensures { result.now ≡ self.now }
    {
        self.inside.as_str()
    }

    /// The number of bytes.
    pub fn len(&self) -> usize
        ensures { result ≡ length self.now }
    {
        self.inside.len()
    }

    pub fn is_empty(&self) -> bool
        ensures { result ≡ (length self.now == 0) }
    {
        self.inside.is_empty()
    }

    pub fn into_string(self) -> String
        ensures { string_bytes result ≡ self }
    {
        self.inside
    }

    /// A second text with the same bytes.
    pub fn copy(&self, alloc: Global) -> Result<Text, Memory>
        ensures { IfOk result (λ t. t ≡ self.now) }
    {
        Text::from_text(alloc, self.as_str())
    }
}

impl Copied for Text {
    fn copy(&self, alloc: Global) -> Result<Text, Memory> {
        self.copy(alloc)
    }
}
