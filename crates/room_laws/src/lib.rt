//! Laws of a room's step, as it is defined: that seat ledgers keep their places, that rooms do, that a room's places and
//! sessions tell the same, and what its outputs tell of who is connected.
#![tactic(auto)]

mod ledgers;
mod placed;
mod places;
mod steps;

pub use ledgers::ledgers_keep;
pub use placed::rooms_stay_placed;
pub use places::rooms_keep_places;
pub use steps::rooms_obey;
