//! What was read so far, where names are looked up.
ghost use Rattle.std.specs.Prelude.{◌≡◌, ◌<◌, ℕ, List, [], IfOk, OnOk, OnErr, Some, None, length, option_copied, true};
ghost use Rattle.std.specs.List.{list_any};
ghost use Rattle.std.specs.Str.{bytes_eq};
ghost use Rattle.text_model.specs.Marks.{is_class_name};
ghost use Rattle.text_model.specs.SchemaReading.{class_place, empty_draft, last_names, names_from, names_inherited, with_class, with_field};
ghost use Rattle.text_words.specs.Words.{bytes_of};
ghost use Rattle.schema_reader.specs.Indexes.{place_in};
ghost use Rattle.std.specs.Map.{update};
ghost use Rattle.std.specs.HashMap.{IsUnchanged};

use lists::{Memory, Seq};
use schema_model::{MOST_CLASSES, TypeNum};
use std::alloc::{AllocError, Global};
use std::collections::HashMap;
use std::marker::Model;
use text_model::{DraftClass, DraftField, DraftRoot};
use text_words::{is_one_of, name_text};

/// Adds the place of a name.
fn add_place<'a>(
    places: &mut HashMap<&'a [u8], u32>,
    name: &'a [u8],
    place: u32,
) -> Result<(), AllocError>
    ensures ok { OnOk result ((q : List ℕ) → place_in places.new q ≡ update bytes_eq (place_in places.old) name.now (Some place) q) }
    ensures err { OnErr result (IsUnchanged places.old places.new) }
{
    places.insert(name, place)?;
    Ok(())
}

/// The classes and the root that were read. Beside them stand the place of each class's name, and the
/// names of each class's fields, the inherited ones first.
#[derive(Drop)]
pub struct Draft<'a> {
    classes: Vec<DraftClass>,
    root: Option<DraftRoot>,
    places: HashMap<&'a [u8], u32>,
    names: Vec<Vec<&'a [u8]>>,
}

impl<'a> Model for Draft<'a> {
    ghost use Rattle.text_model.specs.SchemaReading.{Draft as DraftOf};
    ghost use Rattle.schema_reader.specs.Indexes.{IsIndexed};

    ghost Value = { DraftOf };

    ghost view = { λ d. record { classes = d.classes.items; root = d.root } };

    ghost invariant = { λ d. IsIndexed d.classes.items d.places d.names.items };
}

impl<'a> Draft<'a> {
    /// Nothing was read.
    pub fn new(alloc: Global) -> Self
        ensures { result ≡ empty_draft }
    {
        Draft {
            classes: Vec::new(alloc),
            root: None,
            places: HashMap::new(alloc),
            names: Vec::new(alloc),
        }
    }

    pub fn classes(&self) -> &[DraftClass]
        ensures { result.now ≡ self.now.classes }
    {
        self.classes.as_slice()
    }

    pub fn root(&self) -> Option<&DraftRoot>
        ensures { option_copied result ≡ self.now.root }
    {
        self.root.as_ref()
    }

    /// The place of a class by its name.
    pub fn place(&self, name: &[u8]) -> Option<TypeNum>
        ensures { result ≡ class_place self.now.classes name.now }
    {
        self.places.get(name).map(|place| TypeNum(*place))
    }

    /// Whether the last class has a field of this name, an inherited one too.
    pub fn has_field(&self, name: &[u8]) -> bool
        ensures { result ≡ list_any (bytes_eq name.now) (last_names self.now.classes) }
    {
        match self.names.last() {
            Some(names) => is_one_of(names, name),
            None => false,
        }
    }

    /// How many fields the last class has, the inherited ones too.
    pub fn field_count(&self) -> usize
        ensures { result ≡ length (last_names self.now.classes) }
    {
        match self.names.last() {
            Some(names) => names.len(),
            None => 0,
        }
    }

    /// The names of the fields that a class inherits.
    fn inherited(&self, alloc: Global, class: &DraftClass) -> Result<Vec<&'a [u8]>, AllocError>
        ensures { IfOk result (λ names. bytes_of names.items ≡ names_inherited (names_from [] self.now.classes) class.now.parent) }
    {
        let Some(parent) = class.parent else {
            return Ok(Vec::new(alloc));
        };
        match self.names.get(parent.0 as usize) {
            Some(names) => Vec::from_slice(alloc, names),
            None => Ok(Vec::new(alloc)),
        }
    }

    /// Adds a class with no fields of its own.
    #[tactic(auto, using(text_model::proofs::Ascii::class_name_bytes))]
    pub fn push_class(
        &mut self,
        alloc: Global,
        name: &'a [u8],
        parent: Option<TypeNum>,
    ) -> Result<(), Memory>
        requires named { is_class_name name.now ≡ true }
        requires fresh { class_place self.old.classes name.now ≡ None }
        requires room { length self.old.classes < MOST_CLASSES }
        ensures { OnOk result (self.new ≡ with_class self.old name.now parent) }
    {
        let class = DraftClass {
            name: name_text(alloc, name)?,
            parent,
            own: Seq::new(alloc),
        };
        let names = self.inherited(alloc, &class)?;
        let place = self.classes.len() as u32;
        self.names.reserve(1)?;
        self.classes.reserve(1)?;
        add_place(&mut self.places, name, place)?;
        self.names.push(names).unwrap();
        self.classes.push(class).unwrap();
        Ok(())
    }

    /// Adds a field to the last class.
    pub fn push_field(&mut self, name: &'a [u8], field: DraftField) -> Result<(), Memory>
        requires named { field.name ≡ name.now }
        requires some { 0 < length self.old.classes }
        ensures { OnOk result (self.new ≡ record { classes = with_field self.old.classes field; root = self.old.root }) }
    {
        let last = self.classes.len() - 1;
        let names = &mut self.names[last];
        names.reserve(1)?;
        self.classes[last].own.push(field)?;
        names.push(name).unwrap();
        Ok(())
    }

    /// Sets the root.
    pub fn set_root(&mut self, root: DraftRoot)
        ensures { self.new ≡ record { classes = self.old.classes; root = Some root } }
    {
        self.root = Some(root);
    }
}
