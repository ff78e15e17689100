//! What no clause of the readers and writers of texts says, tried from the top: schemas, schedules and requests by their bytes.
#![tactic(auto)]

#[cfg(test)]
mod requests;
#[cfg(test)]
mod schedules;
#[cfg(test)]
mod schemas;
