//! What a half counts.
ghost use Rattle.std.specs.Prelude.{◌≡◌, ◌+◌, ◌-◌, ◌<◌, ◌%◌, ◌^◌};

/// The counts of one half.
#[derive(Debug, Drop)]
pub(crate) struct Counts {
    /// How many entries it took, modulo 65536.
    pub taken: u16,
    /// How many entries were shown and not taken.
    pub left: u32,
    /// How many looks it made, modulo 2^64.
    pub looks: u64,
    /// What they answered in all, modulo 2^64.
    pub saw: u64,
}

impl Counts {
    pub fn none() -> Counts
        ensures { result ≡ record { taken = 0; left = 0; looks = 0; saw = 0 } }
    {
        Counts {
            taken: 0,
            left: 0,
            looks: 0,
            saw: 0,
        }
    }

    /// A look showed so many entries.
    pub fn look(&mut self, shown: u32)
        ensures { self.new ≡ record self.old { left = shown; looks = (self.old.looks + 1) % 2 ^ 64; saw = (self.old.saw + shown) % 2 ^ 64 } }
    {
        self.left = shown;
        self.looks = self.looks.wrapping_add(1);
        self.saw = self.saw.wrapping_add(shown as u64);
    }

    /// A meeting showed all that the other half wrote, a count modulo 65536.
    pub fn show(&mut self, written: u16)
        ensures { self.new ≡ record self.old { left = (written + 65536 - self.old.taken) % 65536 } }
    {
        self.left = u32::from(written.wrapping_sub(self.taken));
    }

    /// One of the entries that are left is taken.
    pub fn take(&mut self)
        requires { 0 < self.old.left }
        ensures { self.new ≡ record self.old { taken = (self.old.taken + 1) % 2 ^ 16; left = self.old.left - 1 } }
    {
        self.taken = self.taken.wrapping_add(1);
        self.left -= 1;
    }
}
