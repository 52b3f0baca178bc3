//! The table of one queue.
use crate::rule::Board;
use mc_base::Buffer;
use std::marker::Model;

/// One split virtqueue: its fields as atomic words, and a slot for each buffer that is in it.
///
/// Two halves step on it, each from one thread at a time. Each call but `tell` and `close` makes exactly one atomic step,
/// which the half's view counts. No call waits for anybody, and none can fail.
#[derive(Drop)]
pub struct RingTable {
    pub(crate) board: Board,
    pub(crate) size: u32,
    pub(crate) queue: u8,
    /// Room for the words and the buffers that `close` hands out.
    pub(crate) words: Vec<u64>,
    pub(crate) home: Vec<Option<Buffer>>,
}

impl Model for RingTable {
    ghost use Rattle.std.specs.Prelude.{◌≡◌, ◌≤◌, [], vec_capacity};
    ghost use Rattle.shared_words.specs.Shown.{TableShown};
    ghost use Rattle.shared_words.specs.TableHolds.{TableHolds};
    ghost use Rattle.shared_words.specs.Layout.{word_count};

    ghost Value = { TableShown };

    ghost view = { λ t. record { ring = record { table = t.board.shared.table_id; width = t.board.shared.key.length }; queue = t.queue } };

    ghost invariant = { λ t. TableHolds t.board.shared.table_id t.board.shared.key t.queue t.size × (t.words.items ≡ []) × (word_count t.size ≤ vec_capacity t.words) × (t.home.items ≡ []) × (t.size ≤ vec_capacity t.home) };
}

impl RingTable {
    ghost use Rattle.std.specs.Prelude.{◌≡◌, ◌%◌, ◌<◌};
    ghost use Rattle.shared_words.specs.Shown.{size_of};

    /// How many buffers the ring has.
    pub(crate) fn size(&self) -> u32
        ensures value { result ≡ size_of self.now.ring }
        ensures some { 0 < result }
    {
        self.size
    }

    /// The place of the entry of this count.
    pub(crate) fn place(&self, count: u16) -> u16
        ensures { result ≡ count % size_of self.now.ring }
    {
        count & (self.size - 1) as u16
    }
}
