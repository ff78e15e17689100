//! What a replay printed, of its text.
ghost use Rattle.std.specs.Prelude.{◌≡◌, ◌+◌, ◌<◌, ◌-◌, ◌^◌, length, IfOk};
ghost use Rattle.text_model.specs.declared.schedule.Print.{Print as PrintOf};
ghost use Rattle.text_model.specs.Lines.{behind_lines, lines_in};
ghost use Rattle.text_model.specs.OutLines.{IsPrintText, outs_from, read_print_text};
ghost use Rattle.schedule_text.specs.Tells.{IsAnswer, Tells};

use crate::output::read_out;
use crate::part::read_schema_part;
use crate::schedule::{at_end, breaks_off, fault_of};
use lists::Seq;
use std::alloc::Global;
use text_model::{Print, PrintLines, ScheduleFault, Word};
use text_words::{is_word, next_line};

/// Outputs from a line of a number on, each with its number, up to `end`.
fn read_outs(alloc: Global, first: u32, text: &[u8]) -> Result<PrintLines, ScheduleFault>
    requires { first + length text.now < 2 ^ 32 }
    ensures { Tells result (outs_from first (lines_in text.now) (behind_lines text.now)) }
{
    let mut outs = Seq::new(alloc);
    let mut number = first;
    let mut rest = text;
    while let Some((line, behind)) = next_line(rest) {
        if is_word(line, "end") {
            return at_end(number + 1, behind, outs);
        }
        let out = match read_out(alloc, line) {
            Ok(out) => out,
            Err(fault) => return Err(fault_of(fault, number, Word::Output)),
        };
        outs.push((number, out))?;
        number += 1;
        rest = behind;
    }
    Err(breaks_off(number, Word::Output, rest))
}

/// What a replay printed, of its text, or the first line that can't stand where it stands, with the word of its part.
fn read_parts(alloc: Global, text: &[u8]) -> Result<Print, ScheduleFault>
    requires { length text.now < 2 ^ 32 - 1 }
    ensures { Tells result (read_print_text text.now) }
{
    let (schema, lines, behind) = read_schema_part(alloc, text)?;
    let outs = read_outs(alloc, lines + 1, behind)?;
    Ok(Print { schema, outs })
}

/// What a replay printed, of its text, or the first line that can't stand where it stands, with the word of its part. A text
/// has fewer than 2^32 - 1 bytes.
pub fn read_print(alloc: Global, text: &[u8]) -> Result<Print, ScheduleFault>
    requires { length text.now < 2 ^ 32 - 1 }
    ensures exact { Tells result (read_print_text text.now) }
    // Outputs are answered only for their one text, and for this always, unless memory runs out.
    ensures found { IfOk result (λ print. IsPrintText text.now print) }
    ensures only { (p : PrintOf) → IsPrintText text.now p → IsAnswer p result }
{
    read_parts(alloc, text)
}
