//! A split virtqueue shared by a driver and a device, each on a thread of its own, without a lock.
//!
//! The driver offers buffers with lengths, and the device fetches them in that order. The device gives them back in
//! any order, and the driver reclaims them in the order in which they were given. No call waits.
#![tactic(auto)]

mod closed;
mod counts;
mod device;
mod driver;
mod finish;
mod meeting;
mod ring;
mod room;
mod threads;

pub use closed::Closed;
pub use device::Device;
pub use driver::Driver;
pub use ring::Ring;
pub use shared_words::RingFault;
pub use threads::may_cross_threads;
