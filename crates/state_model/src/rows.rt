ghost use Rattle.std.specs.Prelude.{◌≡◌, ◌-◌, length, take, [], ◌∷◌, ◌++◌, is_ok, if◌then◌else◌, IfOk, option_copied};
ghost use Rattle.std.specs.Option.{option_to_list};
ghost use Rattle.lists.specs.Rising.{RisesFrom, IsAbove};
ghost use Rattle.state_model.specs.declared.row.RowEntry.{RowEntry};
ghost use Rattle.state_model.specs.Rows.{number_of, row_at, root_alone};

use crate::row::{Row, RowEntry};
use lists::Rising;
use schema_model::{Memory, RefNum, Schema};
use std::alloc::Global;
use std::marker::Model;

/// The rows of a state, rising by reference number.
#[derive(Debug, Drop)]
pub struct Rows {
    entries: Rising<RowEntry>,
}

impl Model for Rows {
    ghost use Rattle.std.specs.Prelude.{List};
    ghost use Rattle.lists.specs.Rising.{RisesFrom};
    ghost use Rattle.state_model.specs.declared.row.RowEntry.{RowEntry};
    ghost use Rattle.state_model.specs.Rows.{number_of};

    ghost Value = { List RowEntry };

    ghost view = { λ r. r.entries };

    ghost invariant = { λ r. RisesFrom number_of 0 r.entries };
}

impl Rows {
    /// No rows. They take no memory.
    pub fn new(alloc: Global) -> Rows
        ensures { result ≡ [] }
    {
        Rows {
            entries: Rising::new(alloc),
        }
    }

    /// The rows of a list of them.
    pub fn from_rising(entries: Rising<RowEntry>) -> Rows
        ensures { result ≡ entries }
    {
        Rows { entries }
    }

    /// The root alone, of its class and without fields.
    pub fn root_alone(alloc: Global, schema: &Schema) -> Result<Rows, Memory>
        ensures { IfOk result (λ r. r ≡ root_alone schema.now) }
    {
        let mut entries = Rising::with_capacity(alloc, 1)?;
        entries.push(RowEntry {
            who: RefNum(0),
            row: Row::Struct(schema.root, Rising::new(alloc)),
        })?;
        Ok(Rows { entries })
    }

    /// The numbers of the rows rise. It does nothing else than to say so.
    pub fn know_rising(&self)
        ensures { RisesFrom number_of 0 self.now }
    {
        let _ = &self.entries;
    }

    pub fn as_slice(&self) -> &[RowEntry]
        ensures value { result.now ≡ self.now }
        ensures rises { RisesFrom number_of 0 self.now }
    {
        self.entries.as_slice()
    }

    /// The row of this number.
    pub fn get(&self, who: RefNum) -> Option<&Row>
        ensures { option_copied result ≡ row_at self.now who }
    {
        self.entries.get(who.0).map(|entry| &entry.row)
    }

    /// Adds a row behind all others. An `Err` changes nothing.
    pub fn push(&mut self, entry: RowEntry) -> Result<(), Memory>
        requires { IsAbove (λ (e : RowEntry). e.who) entry.who self.old }
        ensures { self.new ≡ (if is_ok result then self.old ++ entry ∷ [] else self.old) }
    {
        self.entries.push(entry)
    }

    /// Takes the last row out.
    pub fn pop(&mut self) -> Option<RowEntry>
        ensures items { self.old ≡ self.new ++ option_to_list result }
        ensures rest { self.new ≡ take (length self.old - 1) self.old }
    {
        self.entries.pop()
    }

    /// A second list with the same rows.
    pub fn copy(&self, alloc: Global) -> Result<Rows, Memory>
        ensures { IfOk result (λ x. x ≡ self.now) }
    {
        let mut out = Rows::new(alloc);
        for entry in self.as_slice() {
            out.push(entry.copy(alloc)?)?;
        }
        Ok(out)
    }
}
