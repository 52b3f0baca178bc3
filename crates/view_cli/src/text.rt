//! The form `text`: what each domain did for each line of its script, in words.

ghost use Rattle.view_cli.specs.Statuses.{Shows};

use crate::asked::Asked;
use crate::status::{self, after_write};
use crate::wrong::refuse;
use outer_io::Sink;
use report_view::View;
use std::alloc::Global;
use view_text::{read_text, write_text};

/// Writes what the domains of a report did, in words. Returns the status.
pub fn tell_text<K: Sink>(
    alloc: Global,
    report: &[u8],
    view: &View<'_>,
    asked: Asked,
    output: &mut K,
) -> u8
    ensures { Shows K.Sink result output.old output.new }
{
    match read_text(alloc, report, view, asked.filter, asked.together) {
        Ok(mut told) => after_write(write_text(&mut told, view, output), status::DONE),
        Err(fault) => refuse(fault, output),
    }
}
