ghost use Rattle.std.specs.Prelude.{◌≡◌};
ghost use Rattle.std.specs.Option.{option_map};
ghost use Rattle.schema_model.specs.Classes.{home_field};
ghost use Rattle.schema_model.specs.declared.class.FieldDecl.{FieldDecl};
ghost use Rattle.state_model.specs.Sound.{has_kind};
ghost use Rattle.op_reader.specs.Known.{known_kind, kind_of_row, is_holder};

use schema_model::{Home, RefNum, Schema, Shape};
use state_model::{Row, RowEntry};
use trees::Tree;
use wire_model::RowKind;

/// The rows that are known while state bytes are read.
pub trait Known {
    ghost use Rattle.std.specs.Prelude.{List};
    ghost use Rattle.state_model.specs.declared.row.RowEntry.{RowEntry};

    /// The rows; their places don't matter.
    ghost rows: { Self → List RowEntry };

    /// What a number is known to be; `None` where it isn't known.
    fn kind_of(&self, who: RefNum) -> Option<RowKind>
        ensures { result ≡ known_kind (rows self.now) who };
}

impl Known for Tree<RowEntry> {
    ghost rows = { λ t. t };

    fn kind_of(&self, who: RefNum) -> Option<RowKind> {
        let entry = self.get(who.0)?;
        Some(kind_of_row(&entry.row))
    }
}

/// What a row is.
pub fn kind_of_row(row: &Row) -> RowKind
    ensures { result ≡ kind_of_row row.now }
{
    match row {
        Row::Struct(class, _) => RowKind::Struct(*class),
        Row::Map(home, _) => RowKind::Coll(*home),
        Row::Array(home, _) => RowKind::Coll(*home),
        Row::Set(home, _) => RowKind::Coll(*home),
    }
}

/// A row is there, as an instance of a class of the schema or as a collection of the home and the shape of a field.
pub fn is_holder(schema: &Schema, rows: &Tree<RowEntry>, who: RefNum) -> bool
    ensures { result ≡ is_holder schema.now rows.now who }
{
    match rows.get(who.0) {
        Some(entry) => has_kind(schema, &entry.row),
        None => false,
    }
}

fn has_kind(schema: &Schema, row: &Row) -> bool
    ensures { result ≡ has_kind schema.now row.now }
{
    match row {
        Row::Struct(class, _) => (class.0 as usize) < schema.classes().len(),
        Row::Map(home, _) => matches!(shape_of(schema, home), Some(Shape::Map(_))),
        Row::Array(home, _) => matches!(shape_of(schema, home), Some(Shape::Array(_))),
        Row::Set(home, _) => matches!(shape_of(schema, home), Some(Shape::Set(_))),
    }
}

// The shape of the field of a home.
fn shape_of(schema: &Schema, home: &Home) -> Option<Shape>
    ensures { result ≡ option_map (λ (f : FieldDecl). f.shape) (home_field schema.now home.now) }
{
    Some(schema.home_field(*home)?.shape)
}
