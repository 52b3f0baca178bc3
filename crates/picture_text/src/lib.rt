//! Text as it stands in SVG and in JSON, the elements of a picture in SVG, and the objects of a trace in JSON.
#![tactic(auto)]

mod escape;
mod json;
mod svg;

pub use escape::{put_json, put_xml};
pub use json::{Member, Name, Phase, Value, put_object, put_trace_end, put_trace_head};
pub use svg::{Key, Look, Number, Shape, Tag, put_element, put_end, put_head};
