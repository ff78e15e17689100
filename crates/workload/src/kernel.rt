//! What is measured, by name: what no text reaches that the program takes.
use crate::fault::WorkFault;
use crate::part::Part;
use crate::{packs, patches, seats};
use std::alloc::Global;

/// What is measured.
#[derive(Clone, Copy)]
pub enum Kernel {
    /// The patch between rows.
    Patch,
    /// The same patch, and what it makes of the old rows.
    ApplyBlocks,
    /// The places of a room.
    Ledger,
    /// MessagePack values.
    PackRead,
    PackWrite,
    PackLies,
}

// Each with its name.
const KERNELS: [(&str, Kernel); 6] = [
    ("patch", Kernel::Patch),
    ("apply_blocks", Kernel::ApplyBlocks),
    ("ledger", Kernel::Ledger),
    ("pack_read", Kernel::PackRead),
    ("pack_write", Kernel::PackWrite),
    ("pack_lies", Kernel::PackLies),
];

impl Kernel {
    /// The kernel of this name.
    pub fn named(name: &str) -> Option<Kernel> {
        for (known, kernel) in KERNELS {
            if known == name {
                return Some(kernel);
            }
        }
        None
    }

    /// Does the kernel's work of a size so many times, or what comes before it, and sums up what it gave.
    pub fn work(self, alloc: Global, size: u32, times: u32, part: Part) -> Result<u64, WorkFault> {
        let done = part.times(times);
        match self {
            Kernel::Patch => patches::compare(alloc, size, done, false),
            Kernel::ApplyBlocks => patches::compare(alloc, size, done, true),
            Kernel::Ledger => seats::seat(alloc, size, done),
            Kernel::PackRead => packs::read_players(alloc, size, done),
            Kernel::PackWrite => packs::write_players(alloc, size, done),
            Kernel::PackLies => packs::read_lies(alloc, size, done),
        }
    }
}
