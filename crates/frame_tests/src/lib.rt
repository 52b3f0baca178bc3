//! Tests of the crates of frames, letters and names, with the buffers of `mc_base`, by their public calls, in a crate of their
//! own so that each is proved once.
#![tactic(auto)]

#[cfg(test)]
mod announcements;
#[cfg(test)]
mod buffers;
#[cfg(test)]
mod full_names;
#[cfg(test)]
mod headers;
#[cfg(test)]
mod known_names;
#[cfg(test)]
mod letters;
#[cfg(test)]
mod readings;
#[cfg(test)]
mod rows;
