//! Blocks and their bytes: what is written is read again.
#![tactic(auto)]

ghost use Rattle.block_laws.specs.ReadAgain.{BlocksReadAgain};

/// The bytes of blocks that fit the kinds of the rows known are read as these blocks.
pub fn blocks_read_again()
    ensures { BlocksReadAgain }
{}
