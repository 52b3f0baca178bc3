//! Tests of the order of events and of escaped text, by the public calls of `event_order` and `picture_text`.
#![tactic(auto)]

#[cfg(test)]
mod tests;
