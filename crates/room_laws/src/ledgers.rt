ghost use Rattle.room_laws.specs.Ledgers.{LedgersKeep};

/// Every call of a seat ledger leaves at most as many places in use as there are.
pub fn ledgers_keep()
    ensures { LedgersKeep }
{}
