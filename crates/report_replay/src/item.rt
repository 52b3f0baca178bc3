ghost use Rattle.std.specs.Prelude.{◌≡◌, ◌≤◌, ◌∷◌, [], length, min};
ghost use Rattle.board_model.specs.State.{frames_from};
ghost use Rattle.report_replay.specs.Replayed.{greatest, most_bytes};

use board_model::Seq;
use std::marker::Model;

/// A message, packet or scalar that is held. The frames that brought it have names, on which only `FrameNames` depend: `earlier` are those of
/// all but the last, and take no memory where a single frame brought it.
#[derive(Debug, Drop)]
pub struct Item {
    pub(crate) peer: u8,
    pub(crate) source: u32,
    pub(crate) priority: u8,
    pub(crate) channel: Option<u32>,
    pub(crate) content: Seq<u8>,
    pub(crate) earlier: Vec<u32>,
    pub(crate) name: u32,
}

impl Model for Item {
    ghost use Rattle.std.specs.Prelude.{◌≤◌, ◌∷◌, ◌++◌, [], length};
    ghost use Rattle.board_model.specs.State.{Item as Plain};
    ghost use Rattle.report_replay.specs.Replayed.{most_bytes};

    ghost Value = { Plain };

    ghost view = { λ i. record { peer = i.peer; source = i.source; priority = i.priority; channel = i.channel; content = i.content; frames = i.earlier.items ++ i.name ∷ [] } };

    ghost invariant = { λ i. length i.content ≤ most_bytes };
}

impl Item {
    /// The bytes of the item.
    pub(crate) fn content(&self) -> &[u8]
        ensures content { result.now ≡ self.now.content }
        ensures short { length result.now ≤ most_bytes }
    {
        self.content.as_slice()
    }

    /// How many frames from a peer brought it.
    pub(crate) fn frames_from(&self, peer: u8) -> u64
        ensures { result ≡ length (frames_from peer (self.now ∷ [])) }
    {
        if self.peer == peer {
            self.earlier.len() as u64 + 1
        } else {
            0
        }
    }
}

/// How many frames from a peer brought these items, or the greatest `u64` where there are more.
pub(crate) fn items_from(items: &[Item], peer: u8) -> u64
    ensures { result ≡ min greatest (length (frames_from peer items.now)) }
{
    let mut count: u64 = 0;
    for item in items {
        count = count.saturating_add(item.frames_from(peer));
    }
    count
}
