//! The finished ring of a lane is left with the image that the numbers of its buffers come to, and no buffer came back before its frame was
//! put: laws of a lane's run, as contracts of functions that have no code.
#![tactic(auto)]

ghost use Rattle.lane_images.specs.LaneImages.{BacksAreLater, ImagesAreLeft};
ghost use Rattle.lane_images.specs.PlacesGiven.{PlacesAreGiven};

/// Shows that no buffer comes back before the frame was put that it carried. The function has no code: its contract is what it shows.
#[tactic(none)]
pub fn backs_are_later()
    ensures { BacksAreLater }
{}

/// Shows which image the finished ring of a lane is left with, where its buffers have 512 bytes. The function has no code: its
/// contract is what it shows.
#[tactic(none)]
pub fn images_are_left()
    ensures { ImagesAreLeft }
{}

/// Shows of which frames a domain gives the buffers back. The function has no code: its contract is what it shows.
#[tactic(none)]
pub fn places_are_given()
    ensures { PlacesAreGiven }
{}
