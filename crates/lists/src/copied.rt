use crate::memory::Memory;
use std::alloc::Global;

/// What a second one of the same value can be made of, where there is memory for it.
pub trait Copied: Drop + Sized {
    ghost use Rattle.std.specs.Prelude.{◌≡◌, IfOk};

    /// The second one.
    fn copy(&self, alloc: Global) -> Result<Self, Memory>
        ensures { IfOk result (λ x. x ≡ self.now) };
}
