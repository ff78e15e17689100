//! Words and lines of texts: decimals and names read, lines and words cut, decimals written.
#![tactic(auto)]

mod append;
mod decimal;
mod line;
mod names;
mod wide;

pub use append::{append_decimal, append_signed, append_whole};
pub use decimal::{is_decimal, read_below, read_byte, read_decimal, read_signed, read_within};
pub use line::{cut_word, first_words, next_line};
pub use names::{has_name_length, is_one_of, is_room_name, is_word, name_text, read_id};
pub use wide::read_whole;
