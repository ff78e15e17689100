//! Laws of plain rows: what is reached, and what freeing leaves.
#![tactic(auto)]
