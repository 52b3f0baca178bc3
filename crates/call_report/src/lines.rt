//! Puts the lines of numbered calls, piece by piece.

ghost use Rattle.std.specs.Prelude.{◌≡◌, ◌<◌};
ghost use Rattle.std.specs.List.{flat_map};
ghost use Rattle.outer_io.specs.Puts.{Puts};
ghost use Rattle.call_service.specs.Served.{rising};
ghost use Rattle.call_report.specs.CallsText.{carried_line, carried_text, cell_line, cells_text, got_line, heading, is_named, outcome_text};

use call_logs::Got;
use call_service::{Carried, Service};
use outer_io::{Sink, Writer};

/// How many cells a service has.
const CELLS: u8 = 16;

/// Puts `calls CLIENTS`, and a line for each call that the service carried out, in order:
/// `carried CLIENT NUMBER CELL AMOUNT done|over VALUE`.
pub fn put_carried<K: Sink>(out: &mut Writer<'_, K>, clients: u8, service: &Service)
    ensures { Puts K.Sink out.old out.new (carried_text clients service.now.history) }
{
    put_heading(out, clients);
    put_history(out, service);
}

/// Puts a line for each call that a client got, in order: `got CLIENT NUMBER done|over VALUE`.
pub fn put_gots<K: Sink>(out: &mut Writer<'_, K>, client: u8, gots: &[Got])
    ensures { Puts K.Sink out.old out.new (flat_map (got_line client) gots.now) }
{
    for got in gots {
        put_got(out, client, *got);
    }
}

fn put_got<K: Sink>(out: &mut Writer<'_, K>, client: u8, got: Got)
    ensures { Puts K.Sink out.old out.new (got_line client got) }
{
    out.put(b"got ");
    out.put_number(client as u64);
    out.put(b" ");
    out.put_number(got.number as u64);
    out.put(b" ");
    out.put(outcome_word(got.status == 1));
    out.put(b" ");
    out.put_number(got.value);
    out.put(b"\n");
}

/// Puts a line for each cell that a call of the service names, in rising order, `cell CELL VALUE`, and then `end`.
pub fn put_cells<K: Sink>(out: &mut Writer<'_, K>, service: &Service)
    ensures { Puts K.Sink out.old out.new (cells_text service.now.history) }
{
    put_each_cell(out, service);
    out.put(b"end\n");
}

fn put_heading<K: Sink>(out: &mut Writer<'_, K>, clients: u8)
    ensures { Puts K.Sink out.old out.new (heading clients) }
{
    out.put(b"calls ");
    out.put_number(clients as u64);
    out.put(b"\n");
}

fn put_history<K: Sink>(out: &mut Writer<'_, K>, service: &Service)
    ensures { Puts K.Sink out.old out.new (flat_map carried_line service.now.history) }
{
    for at in 0..service.len() {
        put_call(out, service.entry(at).unwrap());
    }
}

fn put_call<K: Sink>(out: &mut Writer<'_, K>, call: Carried)
    ensures { Puts K.Sink out.old out.new (carried_line call) }
{
    out.put(b"carried ");
    out.put_number(call.client as u64);
    out.put(b" ");
    out.put_number(call.number as u64);
    out.put(b" ");
    out.put_number(call.cell as u64);
    out.put(b" ");
    out.put_number(call.amount);
    out.put(b" ");
    out.put(outcome_word(call.over));
    out.put(b" ");
    out.put_number(call.value);
    out.put(b"\n");
}

fn outcome_word(over: bool) -> &'static [u8]
    ensures { result.now ≡ outcome_text over }
{
    if over { b"over" } else { b"done" }
}

fn put_each_cell<K: Sink>(out: &mut Writer<'_, K>, service: &Service)
    ensures { Puts K.Sink out.old out.new (flat_map (cell_line service.now.history) (rising 0 16)) }
{
    for cell in 0..CELLS {
        put_cell(out, service, cell);
    }
}

/// Puts the line of a cell, or nothing where no call names it.
fn put_cell<K: Sink>(out: &mut Writer<'_, K>, service: &Service, cell: u8)
    requires { cell < 16 }
    ensures { Puts K.Sink out.old out.new (cell_line service.now.history cell) }
{
    if !has_call_on(service, cell) {
        return;
    }
    out.put(b"cell ");
    out.put_number(cell as u64);
    out.put(b" ");
    out.put_number(service.cell(cell));
    out.put(b"\n");
}

/// Whether a call that was carried out names a cell.
fn has_call_on(service: &Service, cell: u8) -> bool
    ensures { result ≡ is_named service.now.history cell }
{
    for at in 0..service.len() {
        if service.entry(at).unwrap().cell == cell {
            return true;
        }
    }
    false
}
