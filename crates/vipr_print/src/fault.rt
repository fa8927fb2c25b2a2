// Why a certificate wasn't printed whole.

/// Why a certificate wasn't printed whole.
#[derive(Clone, Copy, Debug, PartialEq, Eq)]
pub enum PrintFault {
    /// A write to the sink failed.
    Sink,
    /// There was no memory for a line.
    Memory,
}
