//! Rows while a frame is read.
ghost use Rattle.std.specs.Prelude.{◌≡◌, Some, OnOk, IfOk};
ghost use Rattle.lists.specs.Rising.{RisesFrom};
ghost use Rattle.state_model.specs.Rows.{number_of, kinds_of, emptied, put_row};
ghost use Rattle.wire_model.specs.Resolved.{holder_kind};
ghost use Rattle.canon_patch.specs.Applying.{with_row};
ghost use Rattle.patch_decoder.specs.Drafts.{row_of, old_row};
ghost use Rattle.patch_decoder.specs.Runs.{row_or_first};

use crate::draft::Draft;
use canon_patch::linked::emptied;
use lists::{Memory, Rising};
use op_reader::{Known, RowKind};
use plain_rows::Rows;
use schema_model::{RefNum, TypeNum};
use state_model::{Row, RowEntry};
use std::alloc::Global;
use std::collections::BTreeMap;
use std::marker::Model;

/// Rows while a frame is read, found by number in logarithmic time. A row that was open may rest as it is, so that a
/// frame which goes back and forth doesn't open it anew each time.
#[derive(Drop)]
pub struct Drafts {
    drafts: BTreeMap<u32, Draft>,
}

impl Model for Drafts {
    ghost use Rattle.std.specs.Prelude.{List};
    ghost use Rattle.lists.specs.Rising.{RisesFrom};
    ghost use Rattle.state_model.specs.declared.row.RowEntry.{RowEntry};
    ghost use Rattle.state_model.specs.Rows.{number_of};
    ghost use Rattle.patch_decoder.specs.Drafts.{entries_of};

    ghost Value = { List RowEntry };

    ghost view = { λ d. entries_of d.drafts.entries };

    ghost invariant = { λ d. RisesFrom number_of 0 (entries_of d.drafts.entries) };
}

impl Known for Drafts {
    ghost rows = { λ d. d };

    fn kind_of(&self, who: RefNum) -> Option<RowKind> {
        let draft = self.drafts.get(&who.0)?;
        Some(draft.kind())
    }
}

impl Drafts {
    /// Copies of rows.
    pub fn of(alloc: Global, rows: &Rows) -> Result<Drafts, Memory>
        ensures rows { IfOk result (λ drafts. drafts ≡ rows.now) }
        ensures rises { RisesFrom number_of 0 rows.now }
    {
        let mut drafts = BTreeMap::new(alloc);
        for entry in rows.as_slice() {
            let who = entry.who;
            let draft = Draft::Kept(entry.row.copy(alloc)?);
            drafts.insert(who.0, draft)?;
        }
        Ok(Drafts { drafts })
    }

    /// The rows.
    pub fn into_rows(self, alloc: Global) -> Result<Rows, Memory>
        ensures { IfOk result (λ rows. rows ≡ self) }
    {
        let mut rows = Rising::new(alloc);
        for (who, draft) in self.drafts {
            let row = draft.close(alloc)?;
            rows.push(RowEntry {
                who: RefNum(who),
                row,
            })?;
        }
        Ok(Rows::from_rising(rows))
    }

    /// A row without its places; an instance of the first class where it isn't there.
    pub fn holder_kind(&self, alloc: Global, who: RefNum) -> Row
        ensures { result ≡ holder_kind (kinds_of self.now) who }
    {
        match self.drafts.get(&who.0) {
            Some(draft) => draft.bare(alloc),
            None => Row::Struct(TypeNum(0), Rising::new(alloc)),
        }
    }

    /// Takes a row to open it; its kind alone stays. A row that isn't there counts as an instance of the first class.
    pub fn take(&mut self, alloc: Global, who: RefNum, kind: &Row) -> Result<Draft, Memory>
        ensures rows { OnOk result (self.new ≡ put_row who (emptied kind.now) self.old) }
        ensures row { IfOk result (λ draft. row_of draft ≡ row_or_first self.old who) }
    {
        let draft = Draft::Kept(emptied(alloc, kind));
        let old = self.drafts.insert(who.0, draft)?;
        Ok(old_draft(alloc, old))
    }

    /// Puts a row in its place.
    pub fn put(&mut self, who: RefNum, draft: Draft) -> Result<(), Memory>
        ensures { OnOk result (self.new ≡ put_row who (row_of draft) self.old) }
    {
        self.drafts.insert(who.0, draft)?;
        Ok(())
    }

    /// Adds a row where there is none of its number.
    pub fn add(&mut self, entry: RowEntry) -> Result<(), Memory>
        ensures { OnOk result (self.new ≡ with_row (Some entry) self.old) }
    {
        let who = entry.who;
        match self.drafts.get(&who.0) {
            Some(_) => Ok(()),
            None => self.put(who, Draft::Kept(entry.row)),
        }
    }
}

// The draft that was there, or an instance of the first class.
fn old_draft(alloc: Global, old: Option<Draft>) -> Draft
    ensures { row_of result ≡ old_row old }
{
    match old {
        Some(draft) => draft,
        None => Draft::Kept(Row::Struct(TypeNum(0), Rising::new(alloc))),
    }
}
