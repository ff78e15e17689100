/// The table of the kinds of scalar: each with its schema word, and how it is spelled: those of a fixed width with
/// their sign and their count of bytes. The macro that is named first is called with what is given and all rows.
#[macro_export]
macro_rules! each_scalar {
    ($then:ident $($given:tt)*) => {
        $then! {
            $($given)*
            (Number "number" number)
            (Str "string" text)
            (Bool "boolean" truth)
            (I8 "int8" signed 1)
            (U8 "uint8" unsigned 1)
            (I16 "int16" signed 2)
            (U16 "uint16" unsigned 2)
            (I32 "int32" signed 4)
            (U32 "uint32" unsigned 4)
        }
    };
}

/// The kinds of scalar that a field or an item may have.
#[derive(Clone, Copy, Debug, PartialEq, Eq)]
pub enum ScalarKind {
    /// `number`: a whole number from -2147483648 to 2147483647, in the shortest of several forms.
    Number,
    /// `string`: a text shorter than 2^32 bytes.
    Str,
    /// `boolean`
    Bool,
    /// `int8`
    I8,
    /// `uint8`
    U8,
    /// `int16`
    I16,
    /// `uint16`
    U16,
    /// `int32`
    I32,
    /// `uint32`
    U32,
}
