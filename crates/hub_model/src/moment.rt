/// The last moment, in milliseconds; later ones count as this.
pub const LAST_MOMENT: u64 = (1 << 53) - 1;
