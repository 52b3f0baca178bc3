//! What is called before each line of a run on threads.

/// Is called before each line of a run on threads, on the thread of the line's domain. In a test it can hold a line back until
/// another domain has come to a line of its own.
pub trait Gate {
    /// Is called before line `number` of domain `domain`. The lines of a domain are numbered from 1.
    fn pass(&self, domain: u8, number: u32);
}

/// A gate that does nothing.
#[derive(Clone, Copy, Debug)]
pub struct NoGate;

impl Gate for NoGate {
    fn pass(&self, _domain: u8, _number: u32) {}
}
