//! What is proved of the definitions themselves. Each function has no code: its contract is the law.
ghost use Rattle.ring_trace.specs.BothSides.{BothSidesMakeTheImage};
ghost use Rattle.ring_trace.specs.SoundImages.{FinishedImagesAreSound, FinishedImagesAreShort};

/// The starting image with the writes of both sides, in either order of the sides, is the image of the finished ring, where its
/// buffers have 512 bytes.
pub fn both_sides_make_the_image()
    ensures { BothSidesMakeTheImage }
{}

/// The image of a finished ring of at most 256 buffers of 512 bytes has no fault: [`check_image`](crate::check_image) of what
/// [`image_of`](crate::image_of) returns, and of the bytes that [`write_image`](crate::write_image) writes in hexadecimal, answers
/// `Ok` with the ring's size, its queue and its two indices, and it has at most 6,670 bytes. In queue 1 each buffer has to be
/// returned with a length of 0, as the receiver of a lane returns it: any other length is a `LenRange`.
pub fn finished_images_are_sound()
    ensures sound { FinishedImagesAreSound }
    ensures short { FinishedImagesAreShort }
{}
