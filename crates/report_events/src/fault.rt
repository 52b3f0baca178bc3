use event_order::OrderFault;
use mc_base::NoMemory;
use thiserror::Error;

/// Why the events of a report have no order.
#[derive(Clone, Copy, Debug, PartialEq, Eq, Error)]
pub enum EventFault {
    /// The event at this line of the report waits for one that never comes.
    #[error("the event at line {line} has no cause")]
    NoCause { line: u32 },
    /// An allocation failed, which may happen at any time.
    #[error("out of memory")]
    NoMemory,
}

impl From<NoMemory> for EventFault {
    fn from(_: NoMemory) -> EventFault {
        EventFault::NoMemory
    }
}

impl From<OrderFault> for EventFault {
    fn from(fault: OrderFault) -> EventFault {
        match fault {
            OrderFault::NoCause { line } => EventFault::NoCause { line },
            OrderFault::NoMemory => EventFault::NoMemory,
        }
    }
}
