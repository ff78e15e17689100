//! Schedules, printed outputs, and why a text is none.
ghost use Rattle.std.specs.Prelude.{◌≡◌};
ghost use Rattle.text_model.specs.declared.schedule.ScheduleFault.TheVariants as fault;

use hub_model::{Events, HubOut};
use lists::{Memory, Seq};
use room_model::Defs;
use schema_model::{Id, Schema};
use thiserror::Error;

/// What is played: the schema of the rooms' state, the process, the definitions of rooms, and the events.
#[derive(Debug, Drop)]
pub struct Schedule {
    pub schema: Schema,
    pub process: Id,
    pub defs: Defs,
    pub events: Events,
}

/// Outputs, each with the number of its line.
pub type PrintLines = Seq<(u32, HubOut)>;

/// What a replay printed: the schema, and the outputs.
#[derive(Debug, Drop)]
pub struct Print {
    pub schema: Schema,
    pub outs: PrintLines,
}

/// The part of a text in which a line can't stand.
#[derive(Clone, Copy, Debug, PartialEq, Eq)]
pub enum Word {
    Schema,
    Process,
    Room,
    Event,
    /// The text ends without its `end`, or goes on behind it.
    End,
    Output,
    Image,
}

/// Why a text isn't of its grammar.
#[derive(Clone, Copy, Debug, PartialEq, Eq, Error)]
pub enum ScheduleFault {
    /// The first line that can't stand where it stands, counted from 1.
    #[error("line {0}")]
    Line(u32, Word),
    #[error("out of memory")]
    Memory,
}

impl From<Memory> for ScheduleFault {
    ghost from_gives = { λ _ given. given ≡ fault.Memory };

    fn from(_: Memory) -> Self {
        ScheduleFault::Memory
    }
}
