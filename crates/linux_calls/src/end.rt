//! How a call ends.

/// How a call ended. After a fault of a stream it wasn't done: what it had moved by then stands.
#[derive(Clone, Copy, Debug, PartialEq, Eq)]
pub enum CallEnd {
    /// Its answer is in x0, and the program goes on behind it.
    Returned,
    /// The program ends with this code.
    Exit(u8),
    /// The input failed.
    ReadFault,
    /// The output failed.
    WriteFault,
    /// The stream of errors failed.
    ErrorsFault,
}
