//! Tests of the events and the pictures of reports, by the public calls of `report_events`, `report_pictures` and `report_sequence`.
#![tactic(auto)]

#[cfg(test)]
mod tests;
