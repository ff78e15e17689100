//! How many places and bytes of text all rows have.
ghost use Rattle.std.specs.Prelude.{◌≡◌, ◌≤◌, ◌-◌, length, option_copied};
ghost use Rattle.state_model.specs.Rows.{values_in};
ghost use Rattle.state_model.specs.State.{places_limit, text_limit};
ghost use Rattle.command_laws.specs.Accounts.{replaced, row_text};
ghost use Rattle.instance_table.specs.Amounts.{places_after, text_after};
ghost use Rattle.instance_table.specs.Bodies.{row_of};
ghost use Rattle.instance_table.specs.Found.{is_absent};

use crate::amounts::{places_after, row_text, text_after};
use crate::body::Body;
use crate::found::Found;
use state_model::Command;

/// How many places, and bytes of text values and map keys, the rows of a table have.
#[derive(Clone, Copy, Debug)]
pub struct Totals {
    pub places: usize,
    pub text: usize,
}

impl Totals {
    /// What they are after a command that changes a row.
    pub fn after(self, command: &Command, body: &Body, found: &Found<'_>) -> Totals
        requires absent { found.now.absent ≡ is_absent command.now (row_of body.now) }
        requires value { option_copied found.now.value ≡ replaced command.now (row_of body.now) }
        requires places { self.places ≤ places_limit }
        requires text { row_text (row_of body.now) ≤ text_limit }
        requires few { text_after command.now (row_of body.now) self.text ≤ text_limit }
        ensures places { result.places ≡ places_after command.now (row_of body.now) self.places }
        ensures text { result.text ≡ text_after command.now (row_of body.now) self.text }
    {
        Totals {
            places: places_after(self.places, command, body, found),
            text: text_after(self.text, command, body, found) as usize,
        }
    }

    /// What they are without a row.
    pub fn without(self, body: &Body) -> Totals
        requires places { length (values_in (row_of body.now)) ≤ self.places }
        requires text { row_text (row_of body.now) ≤ self.text }
        requires few { self.text ≤ text_limit }
        ensures places { result.places ≡ self.places - length (values_in (row_of body.now)) }
        ensures text { result.text ≡ self.text - row_text (row_of body.now) }
    {
        Totals {
            places: self.places - body.len(),
            text: self.text - row_text(body),
        }
    }
}
