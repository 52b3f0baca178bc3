//! Tests of `report_text` by its public calls, in a crate of their own so that it is proved once.
#![tactic(auto)]

#[cfg(test)]
mod changes;
#[cfg(test)]
mod lanes;
#[cfg(test)]
mod reports;
#[cfg(test)]
mod tests;
