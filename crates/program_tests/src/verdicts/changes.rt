//! Lines of reports that are changed, and what comes of it: a table for each reason and each report.

pub mod link;
pub mod right;
pub mod script;
pub mod step;
pub mod text;
pub mod total;

/// The number of a line, what stands in its place, and the first wrong line of the report that comes of it.
pub type Change = (usize, &'static [u8], u32);
