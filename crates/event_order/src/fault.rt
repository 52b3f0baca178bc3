ghost use Rattle.std.specs.Prelude.{◌≡◌};
ghost use Rattle.event_order.specs.declared.fault.OrderFault.TheVariants as order_fault;

use mc_base::NoMemory;
use thiserror::Error;

/// Why events have no order.
#[derive(Clone, Copy, Debug, PartialEq, Eq, Error)]
pub enum OrderFault {
    /// The event at this line of the report waits for one that never comes.
    #[error("the event at line {line} has no cause")]
    NoCause { line: u32 },
    /// An allocation failed, which may happen at any time.
    #[error("out of memory")]
    NoMemory,
}

impl From<NoMemory> for OrderFault {
    ghost from_gives = { λ _ fault. fault ≡ order_fault.NoMemory };

    fn from(_: NoMemory) -> OrderFault {
        OrderFault::NoMemory
    }
}
