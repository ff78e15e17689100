//! Ids as texts.
ghost use Rattle.std.specs.Prelude.{◌≡◌, Option, Some, None, IsTrue, if◌then◌else◌};
ghost use Rattle.std.specs.List.{list_all};
ghost use Rattle.schema_model.specs.Ids.{is_id, is_id_byte};

use crate::number::Id;

/// The id that a text is, where it is nine characters of `A-Z a-z 0-9 - _`.
pub fn id_of(text: &[u8]) -> Option<Id>
    ensures { result ≡ (if is_id text.now then Some text.now else None) }
{
    let id = <[u8; 9]>::try_from(text).ok()?;
    has_id_bytes(text).then_some(Id(id))
}

/// Whether an id has only the characters of one.
pub fn is_id(id: Id) -> bool
    ensures { result ≡ is_id id }
{
    has_id_bytes(&id.0)
}

/// An id as a text.
pub fn id_text(id: &Id) -> &str
    requires { IsTrue (is_id id.now) }
    ensures { result.now ≡ id.now }
{
    text_of(&id.0)
}

fn text_of(id: &[u8]) -> &str
    requires { IsTrue (is_id id.now) }
    ensures { result.now ≡ id.now }
{
    std::str::from_utf8(id).unwrap()
}

/// Whether all bytes of a text are characters of an id.
pub fn has_id_bytes(text: &[u8]) -> bool
    ensures { result ≡ list_all is_id_byte text.now }
{
    text.iter().all(|byte| is_id_byte(*byte))
}

// A letter, a digit, `_` or `-`.
fn is_id_byte(byte: u8) -> bool
    ensures { result ≡ is_id_byte byte }
{
    byte.is_ascii_alphanumeric() || byte == b'_' || byte == b'-'
}
