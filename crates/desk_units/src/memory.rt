//! Out of memory.

ghost use Rattle.std.specs.Prelude.{Some, codes};

use std::alloc::{AllocError, AllocFailed};
use std::error::Error;
use std::fmt;

/// No memory could be had. It is the only error of the calls that answer it.
#[derive(Clone, Copy, Debug, PartialEq, Eq)]
pub struct NoMem;

impl fmt::Display for NoMem {
    ghost output = { λ _. Some (codes "out of memory") };

    fn fmt<W: fmt::Write>(&self, f: &mut fmt::Formatter<W>) -> fmt::Result {
        write!(f, "out of memory")
    }
}

impl Error for NoMem {}

impl From<AllocError> for NoMem {
    fn from(_error: AllocError) -> NoMem {
        NoMem
    }
}

impl<T: Drop> From<AllocFailed<T>> for NoMem {
    fn from(_error: AllocFailed<T>) -> NoMem {
        NoMem
    }
}
