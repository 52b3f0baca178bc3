//! Tests of `scenario_lang` by its public calls, in a crate of their own so that it is proved once.
#![tactic(auto)]

#[cfg(test)]
mod calls;
#[cfg(test)]
mod channels;
#[cfg(test)]
mod labels;
#[cfg(test)]
mod largest;
#[cfg(test)]
mod limits;
#[cfg(test)]
mod lines;
#[cfg(test)]
mod loads;
#[cfg(test)]
mod reading;
#[cfg(test)]
mod refused_calls;
#[cfg(test)]
mod texts;
