//! A text, line by line, and a line, word by word.
ghost use Rattle.std.specs.Prelude.{◌≡◌, ◌==◌, IfOk, position, take};
ghost use Rattle.text_model.specs.Lines.{words_of};
ghost use Rattle.text_words.specs.Cuts.{IsFirstLine, IsFirstWord};
ghost use Rattle.text_words.specs.Words.{bytes_of};

use std::alloc::{AllocError, Global};

/// How many bytes of a text stand before its first LF, where it has one.
fn line_len(text: &[u8]) -> Option<usize>
    ensures { result ≡ position (λ b. b == 10) text.now }
{
    text.iter().position(|byte| *byte == b'\n')
}

/// The first line of a text, without its LF, and what stands behind it.
pub fn next_line(text: &[u8]) -> Option<(&[u8], &[u8])>
    ensures { IsFirstLine text.now result }
{
    let len = line_len(text)?;
    let (line, behind) = text.split_at(len);
    Some((line, &behind[1..]))
}

/// How many bytes of a line stand before its first space, where it has one.
fn word_len(line: &[u8]) -> Option<usize>
    ensures { result ≡ position (λ b. b == 32) line.now }
{
    line.iter().position(|byte| *byte == b' ')
}

/// The first word of a line, and what stands behind the space behind it.
pub fn cut_word(line: &[u8]) -> Option<(&[u8], &[u8])>
    ensures { IsFirstWord line.now result }
{
    let len = word_len(line)?;
    let (word, behind) = line.split_at(len);
    Some((word, &behind[1..]))
}

/// The first words of a line, at most so many. However long the line is, they take little memory.
pub fn first_words(alloc: Global, line: &[u8], most: usize) -> Result<Vec<&[u8]>, AllocError>
    ensures { IfOk result (λ words. bytes_of words.items ≡ take most (words_of line.now)) }
{
    line.split(|byte| *byte == b' ').take(most).collect(alloc)
}
