//! Words of kinds of scalar.
ghost use Rattle.std.specs.Prelude.{◌≡◌};
ghost use Rattle.text_model.specs.Marks.{scalar_word};
ghost use Rattle.text_model.specs.SchemaLines.{kind_of_word};

use schema_model::{ScalarKind, each_scalar};

macro_rules! word_of {
    ($kind:ident; (Number $number:literal number) (Str $text:literal text) (Bool $truth:literal truth)
        $(($fixed:ident $word:literal $sign:ident $width:tt))*) => {
        match $kind {
            ScalarKind::Number => $number,
            ScalarKind::Str => $text,
            ScalarKind::Bool => $truth,
            $(ScalarKind::$fixed => $word,)*
        }
    };
}

macro_rules! kinds {
    ($(($kind:ident $word:literal $($spelled:tt)*))*) => { [$(ScalarKind::$kind),*] };
}

/// The word of a kind.
pub fn scalar_word(kind: ScalarKind) -> &'static str
    ensures { result.now ≡ scalar_word kind }
{
    each_scalar!(word_of kind;)
}

/// All kinds.
const ALL_KINDS: [ScalarKind; 9] = each_scalar!(kinds);

/// The kind of a word.
pub fn kind_of_word(word: &[u8]) -> Option<ScalarKind>
    ensures { result ≡ kind_of_word word.now }
{
    ALL_KINDS
        .iter()
        .find(|kind| scalar_word(**kind).as_bytes() == word)
        .copied()
}
