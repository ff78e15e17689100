//! Whole numbers and heads as bytes. An `Err` leaves `out` as it was.
ghost use Rattle.std.specs.Prelude.{◌≡◌, ◌<◌, ◌^◌, ◌++◌, ◌∷◌, true, pos, negsuc, OnOk, OnErr};
ghost use Rattle.std.specs.Int.{w16, w32, w64, to_be_bytes};
ghost use Rattle.frame_model.specs.Packs.{binary_head, dict_head, is_whole, list_head, text_head, whole_bytes};

use schema_model::Memory;

/// Appends bytes.
pub fn put(out: &mut Vec<u8>, bytes: &[u8]) -> Result<(), Memory>
    ensures ok { OnOk result (out.new.items ≡ out.old.items ++ bytes.now) }
    ensures err { OnErr result (out.new.items ≡ out.old.items) }
{
    out.extend_from_slice(bytes)?;
    Ok(())
}

/// Appends a whole number.
pub fn put_whole(out: &mut Vec<u8>, number: i128) -> Result<(), Memory>
    requires { is_whole number ≡ true }
    ensures ok { OnOk result (out.new.items ≡ out.old.items ++ whole_bytes number) }
    ensures err { OnErr result (out.new.items ≡ out.old.items) }
{
    if number < 0 {
        put_negative(out, !number as u64)
    } else {
        put_natural(out, number as u64)
    }
}

fn put_natural(out: &mut Vec<u8>, number: u64) -> Result<(), Memory>
    ensures ok { OnOk result (out.new.items ≡ out.old.items ++ whole_bytes (pos number)) }
    ensures err { OnErr result (out.new.items ≡ out.old.items) }
{
    if number < 128 {
        put(out, &[number as u8])
    } else if number < 256 {
        put(out, &[0xcc, number as u8])
    } else if number < 65536 {
        put_two(out, 0xcd, number as u16)
    } else if number < 4294967296 {
        put_four(out, 0xce, number as u32)
    } else {
        put_eight(out, 0xcf, number)
    }
}

// The number is -1 - `below`.
fn put_negative(out: &mut Vec<u8>, below: u64) -> Result<(), Memory>
    requires { below < 2 ^ 63 }
    ensures ok { OnOk result (out.new.items ≡ out.old.items ++ whole_bytes (negsuc below)) }
    ensures err { OnErr result (out.new.items ≡ out.old.items) }
{
    if below < 32 {
        put(out, &[u8::MAX - below as u8])
    } else if below < 128 {
        put(out, &[0xd0, u8::MAX - below as u8])
    } else if below < 32768 {
        put_two(out, 0xd1, u16::MAX - below as u16)
    } else if below < 2147483648 {
        put_four(out, 0xd2, u32::MAX - below as u32)
    } else {
        put_eight(out, 0xd3, u64::MAX - below)
    }
}

// A mark, and behind it a number of two, four or eight bytes.
fn put_two(out: &mut Vec<u8>, mark: u8, number: u16) -> Result<(), Memory>
    ensures ok { OnOk result (out.new.items ≡ out.old.items ++ mark ∷ to_be_bytes w16 number) }
    ensures err { OnErr result (out.new.items ≡ out.old.items) }
{
    let [a, b] = number.to_be_bytes();
    put(out, &[mark, a, b])
}

fn put_four(out: &mut Vec<u8>, mark: u8, number: u32) -> Result<(), Memory>
    ensures ok { OnOk result (out.new.items ≡ out.old.items ++ mark ∷ to_be_bytes w32 number) }
    ensures err { OnErr result (out.new.items ≡ out.old.items) }
{
    let [a, b, c, d] = number.to_be_bytes();
    put(out, &[mark, a, b, c, d])
}

fn put_eight(out: &mut Vec<u8>, mark: u8, number: u64) -> Result<(), Memory>
    ensures ok { OnOk result (out.new.items ≡ out.old.items ++ mark ∷ to_be_bytes w64 number) }
    ensures err { OnErr result (out.new.items ≡ out.old.items) }
{
    let [a, b, c, d, e, f, g, h] = number.to_be_bytes();
    put(out, &[mark, a, b, c, d, e, f, g, h])
}

/// Appends the head of a text of so many bytes.
pub fn put_text_head(out: &mut Vec<u8>, len: u32) -> Result<(), Memory>
    ensures ok { OnOk result (out.new.items ≡ out.old.items ++ text_head len) }
    ensures err { OnErr result (out.new.items ≡ out.old.items) }
{
    if len < 32 {
        put(out, &[0xa0 + len as u8])
    } else if len < 256 {
        put(out, &[0xd9, len as u8])
    } else if len < 65536 {
        put_two(out, 0xda, len as u16)
    } else {
        put_four(out, 0xdb, len)
    }
}

/// Appends the head of so many bytes.
pub fn put_binary_head(out: &mut Vec<u8>, len: u32) -> Result<(), Memory>
    ensures ok { OnOk result (out.new.items ≡ out.old.items ++ binary_head len) }
    ensures err { OnErr result (out.new.items ≡ out.old.items) }
{
    if len < 256 {
        put(out, &[0xc4, len as u8])
    } else if len < 65536 {
        put_two(out, 0xc5, len as u16)
    } else {
        put_four(out, 0xc6, len)
    }
}

/// Appends the head of a list of so many values.
pub fn put_list_head(out: &mut Vec<u8>, len: u32) -> Result<(), Memory>
    ensures ok { OnOk result (out.new.items ≡ out.old.items ++ list_head len) }
    ensures err { OnErr result (out.new.items ≡ out.old.items) }
{
    if len < 16 {
        put(out, &[0x90 + len as u8])
    } else if len < 65536 {
        put_two(out, 0xdc, len as u16)
    } else {
        put_four(out, 0xdd, len)
    }
}

/// Appends the head of a map of so many pairs.
pub fn put_dict_head(out: &mut Vec<u8>, len: u32) -> Result<(), Memory>
    ensures ok { OnOk result (out.new.items ≡ out.old.items ++ dict_head len) }
    ensures err { OnErr result (out.new.items ≡ out.old.items) }
{
    if len < 16 {
        put(out, &[0x80 + len as u8])
    } else if len < 65536 {
        put_two(out, 0xde, len as u16)
    } else {
        put_four(out, 0xdf, len)
    }
}
