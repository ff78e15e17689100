//! The schedule of a load.
ghost use Rattle.std.specs.Prelude.{◌≡◌, ◌≤◌, IfOk, true};
ghost use Rattle.text_model.specs.Schedules.{is_schedule};
ghost use Rattle.load_maker.specs.Generated.{generated, most_rounds};

use crate::game::{game_def, game_schema};
use crate::names::PROCESS;
use crate::parts::push_game;
use crate::rounds::push_rounds;
use lists::{Memory, Seq};
use std::alloc::Global;
use text_model::Schedule;

/// The most rounds of a load.
pub const MOST_ROUNDS: u32 = 10_000;

/// The schedule of a game, by its parts.
fn made(alloc: Global, seed: u64, rounds: u32) -> Result<Schedule, Memory>
    requires { rounds ≤ most_rounds }
    ensures { IfOk result (λ s. s ≡ generated seed rounds) }
{
    let mut defs = Seq::new(alloc);
    defs.push(game_def(alloc)?)?;
    let mut events = Seq::new(alloc);
    push_game(alloc, &mut events)?;
    push_rounds(alloc, &mut events, seed, rounds)?;
    Ok(Schedule {
        schema: game_schema(alloc)?,
        process: PROCESS,
        defs,
        events,
    })
}

/// The schedule of a game with so many rounds, at most `MOST_ROUNDS`, whose numbers are drawn from a seed: eight clients, each
/// with gold and a card that it sees alone, and 200 things, 20 of which get a number in a round. Every 200 rounds the first
/// client drops, and returns 50 rounds later. Two calls with equal arguments give the same.
pub fn generate(alloc: Global, seed: u64, rounds: u32) -> Result<Schedule, Memory>
    requires { rounds ≤ most_rounds }
    ensures value { IfOk result (λ s. s ≡ generated seed rounds) }
    // It is within the limits of schedules, so it has a text.
    ensures fits { IfOk result (λ s. is_schedule s ≡ true) }
{
    made(alloc, seed, rounds)
}
