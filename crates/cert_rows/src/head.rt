// The head of a certificate.
use crate::certificate::{Goal, Part, Points};

/// What of a certificate stands before its derived lines: the problem, the claim, the listed points, and how many derived lines follow.
#[derive(Drop)]
pub struct CertHead {
    pub part: Part,
    pub claim: Goal,
    pub points: Points,
    pub lines: usize,
}
