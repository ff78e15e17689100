//! Which moments may come.
ghost use Rattle.std.specs.Prelude.{◌≡◌};
ghost use Rattle.room_laws.specs.Places.{is_moment};

use room_model::MOMENT_BOUND;

/// A moment or a lapse is below its bound.
pub fn is_moment(at: u64) -> bool
    ensures { result ≡ is_moment at }
{
    at < MOMENT_BOUND
}
