// Why the program ends with status 1.
use std::alloc::AllocError;
use std::io;

#[derive(Drop)]
pub(crate) enum Failure {
    Usage,
    Unreadable,
    Refused,
    Different,
    Output(io::Error),
    OutOfMemory,
}

impl From<io::Error> for Failure {
    fn from(error: io::Error) -> Failure {
        Failure::Output(error)
    }
}

impl From<AllocError> for Failure {
    fn from(_error: AllocError) -> Failure {
        Failure::OutOfMemory
    }
}
