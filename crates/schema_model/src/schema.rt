ghost use Rattle.std.specs.Prelude.{◌≡◌, IfOk, IsTrue, Some, None, if◌then◌else◌};
ghost use Rattle.schema_model.specs.Classes.{is_kept};

use crate::class::Classes;
use crate::kept::makes_schema;
use crate::number::TypeNum;
use lists::Memory;
use std::alloc::Global;
use std::marker::Model;
use std::rc::Rc;

/// A list of classes and the class of the root. It has at most `MOST_CLASSES` classes, its type
/// numbers are in range, its parents stand earlier, and no class has more than `MOST_FIELDS` fields
/// in all. All copies of a schema have their classes in common.
#[derive(Debug, Drop)]
pub struct Schema {
    classes: Rc<Classes>,
    pub root: TypeNum,
}

impl Model for Schema {
    ghost use Rattle.std.specs.Prelude.{IsTrue};
    ghost use Rattle.schema_model.specs.Classes.{Schema as SchemaOf, is_kept};

    ghost Value = { SchemaOf };

    ghost view = { λ s. record { classes = s.classes.value; root = s.root } };

    ghost invariant = { λ s. IsTrue (is_kept (record { classes = s.classes.value; root = s.root })) };
}

impl Schema {
    /// The schema of these classes, where they keep the limits.
    pub fn new(alloc: Global, classes: Classes, root: TypeNum) -> Result<Option<Schema>, Memory>
        ensures { IfOk result (λ schema. schema ≡ (if is_kept (record { classes = classes; root = root })
            then Some (record { classes = classes; root = root }) else None)) }
    {
        if !makes_schema(classes.as_slice(), root) {
            return Ok(None);
        }
        let classes = Rc::new(alloc, classes)?;
        Ok(Some(Schema { classes, root }))
    }

    /// The classes, in the order of their numbers. They keep the limits.
    pub fn classes(&self) -> &Classes
        ensures value { result.now ≡ self.now.classes }
        ensures kept { IsTrue (is_kept (record { classes = result.now; root = self.now.root })) }
    {
        self.classes.as_ref()
    }

    /// A schema keeps its limits. It does nothing else than to say so.
    pub fn know_limits(&self)
        ensures { IsTrue (is_kept self.now) }
    {
        let _ = &self.root;
    }

    /// A second schema with the same classes. It takes no memory; `Memory` comes where there are 2^64 copies.
    pub fn copy(&self) -> Result<Schema, Memory>
        ensures { IfOk result (λ x. x ≡ self.now) }
    {
        Ok(Schema {
            classes: self.classes.clone()?,
            root: self.root,
        })
    }
}
