//! Definitions and rooms among others.
ghost use Rattle.std.specs.Prelude.{◌≡◌, ◌<◌, ◌^◌, false, length, slice_get};
ghost use Rattle.std.specs.List.{position};
ghost use Rattle.std.specs.Option.{option_map_or};
ghost use Rattle.std.specs.Str.{bytes_eq};
ghost use Rattle.hub_model.specs.Decisions.{is_open, meets, room_at, texts_eq};

use hub_model::Listing;
use lists::Text;
use room_model::RoomDef;
use schema_model::Id;

/// The first definition of a name.
pub fn def_at(defs: &[RoomDef], name: &str) -> Option<u32>
    requires { length defs.now < 2 ^ 32 }
    ensures { result ≡ position (λ d. bytes_eq d.name name.now) defs.now }
{
    match defs.iter().position(|def| def.name.as_str() == name) {
        Some(at) => Some(at as u32),
        None => None,
    }
}

/// The first room of an id.
pub fn room_at(rooms: &[Listing], id: &str) -> Option<u32>
    requires { length rooms.now < 2 ^ 32 }
    ensures { result ≡ room_at rooms.now id.now }
{
    match rooms.iter().position(|room| is_text(&room.id, id)) {
        Some(at) => Some(at as u32),
        None => None,
    }
}

/// The oldest room that is open, of this definition, and has these criteria.
pub fn oldest(rooms: &[Listing], def: u32, criteria: &[Text]) -> Option<u32>
    requires { length rooms.now < 2 ^ 32 }
    ensures { result ≡ position (meets def criteria.now) rooms.now }
{
    match rooms.iter().position(|room| meets(def, criteria, room)) {
        Some(at) => Some(at as u32),
        None => None,
    }
}

/// Whether there is a room at a position, and it is open.
pub fn is_open_at(rooms: &[Listing], at: u32) -> bool
    ensures { result ≡ option_map_or is_open (slice_get rooms.now at) false }
{
    match rooms.get(at as usize) {
        Some(room) => is_open(room),
        None => false,
    }
}

// Neither locked nor full.
fn is_open(room: &Listing) -> bool
    ensures { result ≡ is_open room.now }
{
    !room.locked && room.in_use < room.max
}

/// A room is open, of this definition, and has these criteria.
pub fn meets(def: u32, criteria: &[Text], room: &Listing) -> bool
    ensures { result ≡ meets def criteria.now room.now }
{
    is_open(room) && room.def == def && are_equal(room.criteria.as_slice(), criteria)
}

// The same texts in the same order.
fn are_equal(texts: &[Text], others: &[Text]) -> bool
    ensures { result ≡ texts_eq texts.now others.now }
{
    let [text, texts @ ..] = texts else {
        return others.is_empty();
    };
    let [other, others @ ..] = others else {
        return false;
    };
    text.as_str() == other.as_str() && are_equal(texts, others)
}

fn is_text(id: &Id, text: &str) -> bool
    ensures { result ≡ bytes_eq id.now text.now }
{
    id.0.as_slice() == text.as_bytes()
}
