//! Classes and fields by their names.
ghost use Rattle.std.specs.Prelude.{◌≡◌};
ghost use Rattle.std.specs.List.{position};
ghost use Rattle.std.specs.Option.{option_map};
ghost use Rattle.std.specs.Str.{bytes_eq};
ghost use Rattle.schema_model.specs.Classes.{Declared, field_of, fields_of};
ghost use Rattle.script_model.specs.Scenes.{field_named};
ghost use Rattle.script_model.specs.ScriptWords.{class_of};

use schema_model::{Class, MOST_FIELDS, Schema, TypeNum};

// The first class of a name.
fn class_at(classes: &[Class], name: &[u8]) -> Option<usize>
    ensures { result ≡ position (λ c. bytes_eq c.name name.now) classes.now }
{
    classes
        .iter()
        .position(|class| class.name.as_slice() == name)
}

/// The class of a name.
pub fn class_named(schema: &Schema, name: &[u8]) -> Option<TypeNum>
    ensures { result ≡ class_of schema.now name.now }
{
    let at = class_at(schema.classes().as_slice(), name)?;
    Some(TypeNum(at as u32))
}

// Whether the field at an index has a name; None where there is no such field.
fn has_name(schema: &Schema, class: TypeNum, index: u8, name: &[u8]) -> Option<bool>
    ensures { result ≡ option_map (λ f. bytes_eq f.name name.now) (field_of schema.now class index) }
{
    let field = schema.field(class, index)?;
    Some(field.name.as_slice() == name)
}

/// The index of a class's field of a name, own or inherited.
pub fn field_named(schema: &Schema, class: TypeNum, name: &[u8]) -> Option<u8>
    ensures { result ≡ field_named schema.now class name.now }
{
    schema.know_limits();
    'fields: for index in 0..MOST_FIELDS as u8 {
        if has_name(schema, class, index, name)? {
            return Some(index);
        }
    }
    None
}
