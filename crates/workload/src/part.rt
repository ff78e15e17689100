//! What is done of a kernel.
ghost use Rattle.std.specs.Prelude.{◌≡◌};
ghost use Rattle.workload.specs.declared.part.Part.TheVariants as part;

/// All of it, or only what comes before the work.
#[derive(Clone, Copy)]
pub enum Part {
    All,
    Before,
}

impl Part {
    /// The part of this name; all where there is none.
    pub fn named(name: Option<String>) -> Option<Part> {
        let Some(name) = name else {
            return Some(Part::All);
        };
        match name.as_str() {
            "before" => Some(Part::Before),
            _ => None,
        }
    }

    /// How often work is done that is done all or not at all.
    pub fn times(self, times: u32) -> u32
        ensures all { self ≡ part.All → result ≡ times }
        ensures before { self ≡ part.Before → result ≡ 0 }
    {
        match self {
            Part::All => times,
            Part::Before => 0,
        }
    }
}
