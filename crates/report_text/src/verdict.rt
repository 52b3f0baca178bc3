/// Why a line of a report is wrong.
#[derive(Clone, Copy, Debug, PartialEq, Eq)]
pub enum CheckReason {
    /// The format does not allow the line at its place, or the text ends before it.
    Text,
    /// The state of the domain does not allow it.
    Step,
    /// The journal ends before its script does.
    Script,
    /// The line does not fit what the domain at the other end of the lane did.
    Link,
    /// The journals give other numbers.
    Total,
}

/// What is found of a report.
#[derive(Clone, Copy, Debug, PartialEq, Eq)]
pub enum Verdict {
    /// It is the report of a whole run of its board.
    Right,
    /// It is none. The first wrong line is counted from 1.
    Wrong { line: u32, reason: CheckReason },
}
