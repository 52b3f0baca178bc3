//! The lengths that the buffers move with.
ghost use Rattle.std.specs.Prelude.{◌<◌};
ghost use Rattle.mc_base.specs.Limits.{shortest_buffer};

/// The length of a buffer in a round, which differs from round to round. It fits the buffers of every ring.
pub(crate) fn length(round: u32, id: u16) -> u32
    ensures { result < shortest_buffer }
{
    round.wrapping_add(id as u32) % 64
}
