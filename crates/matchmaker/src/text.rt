//! Parts of texts by their bytes.
ghost use Rattle.std.specs.Prelude.{◌≡◌, ◌≤◌, ◌==◌, option_map, length};
ghost use Rattle.std.specs.List.{position_or_len};
ghost use Rattle.hub_model.specs.Requests.{after_prefix, up_to};
ghost use Rattle.hub_model.specs.Openings.{behind};

/// What is behind a prefix, where a text begins with it.
pub fn after_prefix<'a>(prefix: &[u8], text: &'a [u8]) -> Option<&'a [u8]>
    ensures { option_map (λ r. r.now) result ≡ after_prefix prefix.now text.now }
{
    text.strip_prefix(prefix)
}

/// A text up to the first byte that is this one.
#[tactic(auto, using(crate::proofs::Texts::up_to_is))]
pub fn up_to(byte: u8, text: &[u8]) -> &[u8]
    ensures { result.now ≡ up_to byte text.now }
{
    &text[..place_of(byte, text)]
}

/// What is behind the first byte that is this one; nothing where there is none.
pub fn behind(byte: u8, text: &[u8]) -> &[u8]
    ensures { result.now ≡ behind byte text.now }
{
    let place = place_of(byte, text);
    if place < text.len() {
        &text[place + 1..]
    } else {
        &[]
    }
}

// Where a byte stands first, or the length where it doesn't.
fn place_of(byte: u8, text: &[u8]) -> usize
    ensures place { result ≡ position_or_len (λ b. b == byte) text.now }
    ensures within { result ≤ length text.now }
{
    text.iter().position(|b| *b == byte).unwrap_or(text.len())
}
