//! What every state that commands make keeps, and that each accepted command and each sweep keeps it.
#![tactic(auto)]
