//! Laws of a hub's step, as it is defined: what a request makes and reserves.
#![tactic(auto)]
