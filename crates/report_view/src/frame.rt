//! What a frame says, in words.
#![tactic(auto, using(crate::proofs::TextSteps::text_steps))]

ghost use Rattle.report_view.specs.Texts.{PutsText};

use crate::letter::put_letter;
use mc_base::{Letter, Ns};
use name_service::{Said, read_frame};
use outer_io::{Sink, Writer};

/// Puts what a frame says: an announcement, a letter with the addresses between which it goes, or that it has a fault.
pub fn put_frame<K: Sink>(out: &mut Writer<'_, K>, frame: &[u8])
    ensures { PutsText K.Sink out.old out.new }
{
    match read_frame(frame) {
        Said::Faulty(_) => put_faulty(out, frame.len()),
        Said::Announces(ns) => put_announcement(out, &ns),
        Said::Sends { src, dst, letter } => put_sent(out, src, dst, &letter),
    }
}

/// Puts that a frame of so many bytes has a fault.
fn put_faulty<K: Sink>(out: &mut Writer<'_, K>, size: usize)
    ensures { PutsText K.Sink out.old out.new }
{
    out.put(b"faulty frame of ");
    out.put_number(size as u64);
    out.put(b" bytes");
}

/// Puts an announcement: that an endpoint is there, or gone.
fn put_announcement<K: Sink>(out: &mut Writer<'_, K>, ns: &Ns)
    ensures { PutsText K.Sink out.old out.new }
{
    out.put(announcement_word(ns.create));
    out.put(ns.name.as_slice());
    out.put(b" at ");
    out.put_number(u64::from(ns.addr));
}

fn announcement_word(create: bool) -> &'static [u8] {
    if create { b"announce " } else { b"withdraw " }
}

/// Puts a letter, behind the addresses between which it goes.
fn put_sent<K: Sink>(out: &mut Writer<'_, K>, src: u32, dst: u32, letter: &Letter<'_>)
    ensures { PutsText K.Sink out.old out.new }
{
    out.put_number(u64::from(src));
    out.put(b" to ");
    out.put_number(u64::from(dst));
    out.put(b": ");
    put_letter(out, letter);
}
