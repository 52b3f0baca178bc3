//! A record.

ghost use Rattle.std.specs.Prelude.{◌≡◌};
ghost use Rattle.endpoint_table.specs.Table.{ended};

use mc_base::Local;

/// An endpoint whose record is in use: its name in its domain, its address, and whether it is live.
#[derive(Clone, Copy, Debug)]
pub struct Record {
    pub local: Local,
    pub address: u32,
    pub live: bool,
}

impl Record {
    /// Notes that the endpoint is live no more, where it has this address.
    pub fn end(&mut self, address: u32)
        ensures { self.new ≡ ended address self.old }
    {
        if self.address == address {
            self.live = false;
        }
    }
}
