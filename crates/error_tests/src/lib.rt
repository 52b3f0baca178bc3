//! Tests that every error and refusal of the public surface has a text, in a crate of their own that sees all of them.
#![tactic(auto)]

#[cfg(test)]
mod texts;
