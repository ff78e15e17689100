//! The keys under which the entries of places are found.
ghost use Rattle.std.specs.Prelude.{◌≡◌};
ghost use Rattle.room_model.specs.Ledger.{lapse_of};
ghost use Rattle.seat_ledger.specs.Keys.{HasIdAsToken, id_number, IsId, token_key};

use room_model::Seat;
use schema_model::Id;

// Two to the power of 64: one above what the first eight bytes of an id can be.
const FRONT: u128 = 18446744073709551616;

/// An id as a number.
pub fn id_key(id: Id) -> u128
    ensures value { result ≡ id_number id }
    ensures id { IsId id }
{
    let [a, b, c, d, e, f, g, h, i] = id.0;
    let prefix = u64::from_le_bytes([a, b, c, d, e, f, g, h]);
    u128::from(prefix) + u128::from(i) * FRONT
}

/// The token of a seat as a number.
pub fn token_key(seat: &Seat) -> Option<u128>
    ensures value { result ≡ token_key seat.now }
    ensures id { HasIdAsToken seat.now }
{
    match seat {
        Seat::Reserved(_) => None,
        Seat::Taken(token) => Some(id_key(*token)),
        Seat::Kept(token, _) => Some(id_key(*token)),
    }
}

/// The moment at which a seat lapses.
pub fn lapse_of(seat: &Seat) -> Option<u64>
    ensures { result ≡ lapse_of seat.now }
{
    match seat {
        Seat::Reserved(lapse) => Some(*lapse),
        Seat::Taken(_) => None,
        Seat::Kept(_, lapse) => Some(*lapse),
    }
}

/// That moment as a key.
pub fn lapse_key(seat: &Seat) -> Option<u128>
    ensures value { result ≡ lapse_of seat.now }
{
    match seat {
        Seat::Reserved(lapse) => Some(u128::from(*lapse)),
        Seat::Taken(_) => None,
        Seat::Kept(_, lapse) => Some(u128::from(*lapse)),
    }
}
