//! The fields, homes and kinds of a schema's classes, found on the way up a class's parents.
ghost use Rattle.std.specs.Prelude.{◌≡◌, IsTrue, List, [], length, map, slice_get, nat_le, option_copied, option_and_then};
ghost use Rattle.std.specs.List.{list_all};
ghost use Rattle.std.specs.Option.{option_map};
ghost use Rattle.schema_model.specs.Classes.{field_of, fields_of, home_of, home_field, is_kind_of, parent_of, parents_earlier, fields_from, most_fields, Declared};

use crate::class::{Class, FieldDecl};
use crate::number::TypeNum;
use crate::place::Home;
use crate::schema::Schema;

impl Schema {
    /// The field of a class at an index, the inherited ones first; `None` where there is no such class or field.
    /// It goes up the class's parents at most twice.
    pub fn field(&self, class: TypeNum, index: u8) -> Option<&FieldDecl>
        ensures { option_copied result ≡ field_of self.now class index }
    {
        match self.declared(class, index) {
            Some((_, field)) => Some(field),
            None => None,
        }
    }

    /// The home of a field: the class that declares it, with the index; `None` where there is no such class or field.
    /// It goes up the class's parents at most twice.
    pub fn home(&self, class: TypeNum, index: u8) -> Option<Home>
        ensures { result ≡ home_of self.now class index }
    {
        match self.declared(class, index) {
            Some((class, _)) => Some(Home {
                class,
                field: index,
            }),
            None => None,
        }
    }

    /// The field that a home names, where its class declares one at this index.
    /// It goes up the class's parents at most twice.
    pub fn home_field(&self, home: Home) -> Option<&FieldDecl>
        ensures { option_copied result ≡ home_field self.now home }
    {
        match self.declared(home.class, home.field) {
            Some((class, field)) if class == home.class => Some(field),
            _ => None,
        }
    }

    /// Whether a class is another or descends from it. It goes up the class's parents at most once.
    pub fn is_kind_of(&self, sub: TypeNum, sup: TypeNum) -> bool
        ensures { result ≡ is_kind_of self.now sub sup }
    {
        is_in_line(self.classes().as_slice(), sub, sup)
    }

    /// The field of a class at an index, with the class that declares it; `None` where there is no such class or field.
    /// It goes up the class's parents at most twice.
    pub fn declared(&self, class: TypeNum, index: u8) -> Option<(TypeNum, &FieldDecl)>
        ensures { option_map (λ d. let found : Declared = record { class = d.0; field = d.1.now } in found) result ≡ slice_get (fields_of self.now class) index }
    {
        let classes = self.classes().as_slice();
        let count = field_count(classes, class);
        find_declared(classes, class, usize::from(index), count)
    }
}

// The class of this number, where there is a number and a class.
fn class_of(classes: &[Class], number: Option<TypeNum>) -> Option<&Class>
    ensures { option_copied result ≡ option_and_then (slice_get classes.now) number }
{
    classes.get(number?.0 as usize)
}

// How many fields a class has with its ancestors.
fn field_count(classes: &[Class], class: TypeNum) -> usize
    requires earlier { IsTrue (parents_earlier 0 classes.now) }
    requires small { IsTrue (list_all (λ (fs : List Declared). nat_le (length fs) most_fields) (fields_from [] classes.now)) }
    ensures { result ≡ length (fields_of (record { classes = classes.now; root = 0 }) class) }
{
    let mut count = 0;
    let mut line = Some(class);
    while let Some(class) = class_of(classes, line) {
        count += class.own.len();
        line = class.parent;
    }
    count
}

// The field of a class at an index, with the class that declares it. The count is of all the class's fields, inherited
// ones too: what is left of it above a class's own is where the inherited ones end.
fn find_declared(
    classes: &[Class],
    class: TypeNum,
    index: usize,
    mut count: usize,
) -> Option<(TypeNum, &FieldDecl)>
    requires earlier { IsTrue (parents_earlier 0 classes.now) }
    requires counted { count ≡ length (fields_of (record { classes = classes.now; root = 0 }) class) }
    ensures { option_map (λ d. let found : Declared = record { class = d.0; field = d.1.now } in found) result ≡ slice_get (fields_of (record { classes = classes.now; root = 0 }) class) index }
{
    let mut number = class;
    while let Some(class) = class_of(classes, Some(number)) {
        let inherited = count - class.own.len();
        if inherited <= index {
            return own_field(class, number, index - inherited);
        }
        count = inherited;
        number = class.parent?;
    }
    None
}

// The field at an index among a class's own, with the class's number.
fn own_field(class: &Class, number: TypeNum, index: usize) -> Option<(TypeNum, &FieldDecl)>
    ensures { option_map (λ d. let found : Declared = record { class = d.0; field = d.1.now } in found) result
        ≡ slice_get (map (λ f. let own : Declared = record { class = number; field = f } in own) class.now.own) index }
{
    let field = class.own.as_slice().get(index)?;
    Some((number, field))
}

// The parent of a class.
fn parent_of(classes: &[Class], class: TypeNum) -> Option<TypeNum>
    ensures { result ≡ parent_of classes.now class }
{
    classes.get(class.0 as usize)?.parent
}

// Whether a class is another or descends from it.
fn is_in_line(classes: &[Class], sub: TypeNum, sup: TypeNum) -> bool
    requires { IsTrue (parents_earlier 0 classes.now) }
    ensures { result ≡ is_kind_of (record { classes = classes.now; root = 0 }) sub sup }
{
    let mut line = Some(sub);
    while let Some(class) = line {
        if class == sup {
            return true;
        }
        line = parent_of(classes, class);
    }
    false
}
