//! Drawn numbers: each draw leads a state of 64 bits on, and what it gives are the state's upper bits.
ghost use Rattle.std.specs.Prelude.{◌≡◌, ◌<◌, ◌%◌};
ghost use Rattle.load_maker.specs.Generated.{drawn, next_state};

// By what a state is multiplied, and what is added then.
const FACTOR: u64 = 6_364_136_223_846_793_005;

const SUMMAND: u64 = 1_442_695_040_888_963_407;

/// The state behind a draw.
fn next_state(state: u64) -> u64
    ensures { result ≡ next_state state }
{
    state.wrapping_mul(FACTOR).wrapping_add(SUMMAND)
}

/// What a state gives below a limit.
fn drawn(limit: u32, state: u64) -> u32
    requires { 0 < limit }
    ensures value { result ≡ drawn limit state }
    ensures below { result < limit }
{
    ((state >> 33) % u64::from(limit)) as u32
}

/// Draws a number below a limit.
pub fn draw(state: &mut u64, limit: u32) -> u32
    requires { 0 < limit }
    ensures state { state.new ≡ next_state state.old }
    ensures value { result ≡ drawn limit state.new }
    ensures below { result < limit }
{
    *state = next_state(*state);
    drawn(limit, *state)
}
