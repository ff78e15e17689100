//! The definitions of a hub.
ghost use Rattle.std.specs.Prelude.{◌≡◌};
ghost use Rattle.std.specs.List.{list_all, list_any};
ghost use Rattle.std.specs.Str.{bytes_eq};
ghost use Rattle.room_model.specs.Definitions.{is_room_def};
ghost use Rattle.hub_core.specs.Held.{are_hub_defs, names_differ};

use lists::Text;
use room_model::RoomDef;

/// The most definitions of a hub.
pub const MOST_DEFS: usize = 256;

/// Whether a hub may be made of these definitions: there are at most `MOST_DEFS`, each is valid, and their names differ.
pub fn are_hub_defs(defs: &[RoomDef]) -> bool
    ensures { result ≡ are_hub_defs defs.now }
{
    defs.len() <= MOST_DEFS && are_valid(defs) && are_different(defs)
}

// A room may be made of each.
fn are_valid(defs: &[RoomDef]) -> bool
    ensures { result ≡ list_all is_room_def defs.now }
{
    defs.iter().all(|def| def.is_valid())
}

// No two definitions have one name.
fn are_different(defs: &[RoomDef]) -> bool
    ensures { result ≡ names_differ defs.now }
{
    let Some((first, rest)) = defs.split_first() else {
        return true;
    };
    !is_among(&first.name, rest) && are_different(rest)
}

// One of the definitions has this name.
fn is_among(name: &Text, defs: &[RoomDef]) -> bool
    ensures { result ≡ list_any (λ d. bytes_eq name.now d.name) defs.now }
{
    defs.iter()
        .any(|def| name.as_slice() == def.name.as_slice())
}
