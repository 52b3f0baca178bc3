//! Entries of journals, in words.
#![tactic(auto, using(report_view::proofs::TextSteps::text_steps))]

ghost use Rattle.report_view.specs.Texts.{PutsText};

use crate::answer::put_answer;
use mc_journal::{Entry, fate_word};
use outer_io::{Sink, Writer};
use report_view::{answer_in, last_word, put_frame};

/// Puts an entry of a journal, which is the line at the front of a text. `brings` says whether the call that it is for may bring bytes.
pub fn put_entry<K: Sink>(out: &mut Writer<'_, K>, entry: &Entry<'_>, text: &[u8], brings: bool)
    ensures { PutsText K.Sink out.old out.new }
{
    match *entry {
        Entry::Turn => out.put(b"turn"),
        Entry::Idle { turns } => put_count(out, b"idle turns: ", turns),
        Entry::Back { peer, count } => put_peer(out, b"buffers back from ", peer, count),
        Entry::See { peer, count } => put_peer(out, b"frames there from ", peer, count),
        Entry::Put { peer, frame } => put_put(out, peer, frame),
        Entry::Take { peer, frame, fate } => put_take(out, peer, frame, fate_word(fate)),
        Entry::Again { .. } => put_word(out, b"again: ", last_word(text)),
        Entry::Spin { times, .. } => put_tries(out, times, last_word(text)),
        Entry::WaitStart { .. } => out.put(b"wait"),
        Entry::Called { answer, .. } => put_answer(out, &answer, answer_in(text), brings),
    }
}

fn put_count<K: Sink>(out: &mut Writer<'_, K>, words: &[u8], count: u64)
    ensures { PutsText K.Sink out.old out.new }
{
    out.put(words);
    out.put_number(count);
}

fn put_peer<K: Sink>(out: &mut Writer<'_, K>, words: &[u8], peer: u8, count: u32)
    ensures { PutsText K.Sink out.old out.new }
{
    put_count(out, words, u64::from(peer));
    put_count(out, b": ", u64::from(count));
}

fn put_word<K: Sink>(out: &mut Writer<'_, K>, words: &[u8], word: &[u8])
    ensures { PutsText K.Sink out.old out.new }
{
    out.put(words);
    out.put(word);
}

fn put_tries<K: Sink>(out: &mut Writer<'_, K>, times: u64, word: &[u8])
    ensures { PutsText K.Sink out.old out.new }
{
    put_count(out, b"again, each after an idle turn: ", times);
    out.put(b" times ");
    out.put(word);
}

fn put_put<K: Sink>(out: &mut Writer<'_, K>, peer: u8, frame: &[u8])
    ensures { PutsText K.Sink out.old out.new }
{
    out.put(b"put to ");
    out.put_number(u64::from(peer));
    out.put(b": ");
    put_frame(out, frame);
}

fn put_take<K: Sink>(out: &mut Writer<'_, K>, peer: u8, frame: &[u8], fate: &[u8])
    ensures { PutsText K.Sink out.old out.new }
{
    out.put(b"take from ");
    out.put_number(u64::from(peer));
    out.put(b": ");
    put_frame(out, frame);
    out.put(b": ");
    out.put(fate);
}
