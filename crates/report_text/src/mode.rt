/// How a board was run.
#[derive(Clone, Copy, Debug, PartialEq, Eq)]
pub enum Mode {
    /// Its domains by turns, on one thread.
    Serial,
    /// Each domain on a thread of its own.
    Threads,
}
