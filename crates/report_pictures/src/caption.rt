//! A short text of a picture.

use arrayvec::ArrayVec;
use outer_io::{Failed, Sink, Writer};
use report_view::put_frame;

/// The most bytes of a caption.
pub const CAPTION_SIZE: usize = 64;

/// A short text. What does not fit is cut off, and two dots stand in the place of its last bytes.
#[derive(Drop)]
pub struct Caption {
    bytes: ArrayVec<u8, CAPTION_SIZE>,
    limit: usize,
}

impl Caption {
    /// An empty caption of at most 64 bytes.
    pub fn new() -> Caption {
        Caption::limited(CAPTION_SIZE)
    }

    /// An empty caption of at most so many bytes, and 64.
    pub fn limited(limit: usize) -> Caption {
        Caption {
            bytes: ArrayVec::new(),
            limit,
        }
    }

    /// Takes up to so many bytes from now on.
    pub fn widen(&mut self, limit: usize) {
        self.limit = limit;
    }

    /// Adds as many bytes as fit.
    pub fn add(&mut self, text: &[u8]) {
        for byte in text {
            if self.bytes.len() >= self.limit || self.bytes.try_push(*byte).is_err() {
                self.cut();
                return;
            }
        }
    }

    /// Adds a number in decimal.
    pub fn add_number(&mut self, number: u64) {
        let mut writer = Writer::new(self);
        writer.put_number(number);
        let _written = writer.finish();
    }

    /// Adds what a frame says.
    pub fn add_frame(&mut self, frame: &[u8]) {
        let mut writer = Writer::new(self);
        put_frame(&mut writer, frame);
        let _written = writer.finish();
    }

    /// Puts two dots in the place of the last two bytes, or as many as fit.
    fn cut(&mut self) {
        for _dot in 0..2 {
            let _last = self.bytes.pop();
        }
        for _dot in 0..2 {
            if self.bytes.len() < self.limit {
                let _room = self.bytes.try_push(b'.');
            }
        }
    }

    pub fn as_slice(&self) -> &[u8] {
        self.bytes.as_slice()
    }
}

impl Sink for Caption {
    ghost use Rattle.std.specs.Prelude.{None};

    ghost written = { λ _. None };

    ghost faults = { λ _. 0 };

    fn write(&mut self, piece: &[u8]) -> Result<usize, Failed> {
        self.add(piece);
        Ok(piece.len())
    }
}

/// The caption of a frame: what was done with it, and what it says.
pub fn frame_caption(words: &[u8], frame: &[u8]) -> Caption {
    let mut caption = Caption::new();
    caption.add(words);
    caption.add_frame(frame);
    caption
}
