//! Tests of numbered calls, by the public calls of the service and of their lines, in a crate of their own: each is proved once.
#![tactic(auto)]

#[cfg(test)]
mod faults;
#[cfg(test)]
mod line_rows;
#[cfg(test)]
mod many;
#[cfg(test)]
mod rows;
#[cfg(test)]
mod service_rows;
