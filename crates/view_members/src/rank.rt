//! Pairs as numbers that rise as pairs do: by row, then by tag.
ghost use Rattle.std.specs.Prelude.{◌≡◌, ◌<◌, ◌^◌};
ghost use Rattle.std.specs.Int.{w16};
ghost use Rattle.std.specs.Int.RustNames.{FitsSigned};
ghost use Rattle.state_model.specs.Members.{pair_rank};
ghost use Rattle.view_members.specs.Standings.{pair_of_rank};

use schema_model::{Pair, RefNum, Tag};

/// How many tags there are.
pub const TAGS: u64 = 65536;

/// The rank of a pair.
pub fn rank_of(pair: Pair) -> u64
    ensures value { result ≡ pair_rank pair }
    ensures below { result < 2 ^ 48 }
    ensures fits { FitsSigned w16 pair.tag }
{
    TAGS * u64::from(pair.who.0) + (i32::from(pair.tag.0) + 32768) as u64
}

/// The pair of a rank.
pub fn pair_at(rank: u64) -> Pair
    requires { rank < 2 ^ 48 }
    ensures { result ≡ pair_of_rank rank }
{
    Pair {
        who: RefNum((rank / TAGS) as u32),
        tag: Tag(((rank % TAGS) as i32 - 32768) as i16),
    }
}
