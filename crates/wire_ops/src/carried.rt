ghost use Rattle.std.specs.Prelude.{◌≡◌, IfOk};
ghost use Rattle.wire_model.specs.Edits.{carried_value, scalar_value};
ghost use Rattle.wire_model.specs.Grammar.{scalar_of};
ghost use Rattle.wire_ops.specs.PlainEdits.{plain_value};

use schema_model::{Memory, Value};
use std::alloc::Global;
use wire_model::OpValue;

/// The value that an operation puts in a place.
pub fn placed_value(alloc: Global, carried: &OpValue) -> Result<Value, Memory>
    ensures { IfOk result (λ v. v ≡ carried_value (plain_value carried.now)) }
{
    match carried {
        OpValue::Scalar(_, scalar) => scalar_copy(alloc, scalar),
        OpValue::Struct(who, _) => Ok(Value::Link(*who)),
        OpValue::Coll(who) => Ok(Value::Link(*who)),
    }
}

// A scalar is never a link: the number of one stands for itself.
fn scalar_copy(alloc: Global, scalar: &Value) -> Result<Value, Memory>
    ensures { IfOk result (λ v. v ≡ scalar_value (scalar_of scalar.now)) }
{
    match scalar {
        Value::Whole(number) => Ok(Value::Whole(*number)),
        Value::Str(text) => Ok(Value::Str(text.copy(alloc)?)),
        Value::Truth(truth) => Ok(Value::Truth(*truth)),
        Value::Link(who) => Ok(Value::Whole(i128::from(who.0))),
    }
}
