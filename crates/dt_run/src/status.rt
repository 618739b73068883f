//! How a run ends.

/// How a run ends. A program's exit status follows from it.
#[derive(Clone, Copy, Debug, PartialEq, Eq)]
pub enum Status {
    /// The job was run, and what it prints was written.
    Done,
    /// The words of the command line are none that the program takes.
    BadWords,
    /// The job is refused; the text says which line, and why.
    Refused,
    /// The source failed.
    ReadFault,
    /// The sink failed.
    WriteFault,
    /// Memory ran out.
    NoMemory,
}
