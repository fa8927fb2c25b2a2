// The problems of models.

use case_tools::problem_of;
use problem::Problem;
use std::alloc::Global;
use std::io;

/// The problem of a text. A text that is refused is an error.
pub(crate) fn made(alloc: Global, text: &[u8]) -> io::Result<Problem> {
    match problem_of(alloc, text) {
        Ok(problem) => Ok(problem),
        Err(_) => Err(io::Error::other("a model that is refused")),
    }
}
