//! How a pair stands since the last tick.
ghost use Rattle.std.specs.Prelude.{◌≡◌};

/// How a pair stands: whether it is a member now, and whether it was one at the last tick.
#[derive(Clone, Copy, Debug, PartialEq, Eq)]
pub enum Standing {
    /// A member then and now.
    Stays,
    /// A member now that wasn't one then.
    Came,
    /// A member then that isn't one now.
    Left,
    /// A member in between, and neither then nor now.
    Passed,
    /// No member at any time: room for a pair that is about to come.
    Spare,
}

impl Standing {
    ghost use Rattle.view_members.specs.Standings.{is_now, is_last, is_changed, is_passed, is_spare, after_coming, after_leaving};

    /// Whether the pair is a member now.
    pub fn is_member(self) -> bool
        ensures { result ≡ is_now self }
    {
        matches!(self, Standing::Stays | Standing::Came)
    }

    /// Whether the pair was a member at the last tick.
    pub fn was_member(self) -> bool
        ensures { result ≡ is_last self }
    {
        matches!(self, Standing::Stays | Standing::Left)
    }

    /// Whether the pair is a member at exactly one of both times.
    pub fn changed(self) -> bool
        ensures { result ≡ is_changed self }
    {
        matches!(self, Standing::Came | Standing::Left)
    }

    /// Whether the pair came and left in between.
    pub fn passed(self) -> bool
        ensures { result ≡ is_passed self }
    {
        self == Standing::Passed
    }

    /// Whether this is room alone.
    pub fn spare(self) -> bool
        ensures { result ≡ is_spare self }
    {
        self == Standing::Spare
    }

    /// How the pair stands once it is added.
    pub fn coming(self) -> Standing
        ensures { result ≡ after_coming self }
    {
        if self.was_member() {
            Standing::Stays
        } else {
            Standing::Came
        }
    }

    /// How the pair stands once it is taken out.
    pub fn leaving(self) -> Standing
        ensures { result ≡ after_leaving self }
    {
        match self {
            Standing::Stays => Standing::Left,
            Standing::Came => Standing::Passed,
            other => other,
        }
    }
}
