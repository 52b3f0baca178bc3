//! The lengths with which receivers return buffers.
ghost use Rattle.lane_end.specs.ReturnedLengths.{Queue1ReturnsAreEmpty};

/// Shows that a receiver over queue 1 returns every buffer with a length of 0 (VIRTIO 1.2, section 2.7.8.2), whatever moves it
/// makes. The image of a finished ring of queue 1 requires this.
pub fn queue_1_returns_are_empty()
    ensures { Queue1ReturnsAreEmpty }
{}
