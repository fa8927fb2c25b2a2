// The one fault that a sink or a disk answers.

/// The call failed, and its object has counted that.
#[derive(Clone, Copy, Debug, PartialEq, Eq)]
pub struct Failed;
