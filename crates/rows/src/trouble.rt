//! Why the rows can't be run.

use std::alloc::{AllocError, AllocFailed};
use std::{fmt, io};

/// What stops the program of rows.
#[derive(Clone, Copy)]
pub enum Trouble {
    /// A file of rows is none, or a row or a text has another form.
    BadForm,
    /// A file of rows can't be read, or a line can't be printed.
    NoFile,
    NoMemory,
}

impl fmt::Display for Trouble {
    fn fmt<W: fmt::Write>(&self, f: &mut fmt::Formatter<W>) -> fmt::Result {
        match self {
            Trouble::BadForm => write!(f, "no rows, or a row or a text of another form"),
            Trouble::NoFile => write!(f, "a file not read, or a line not printed"),
            Trouble::NoMemory => write!(f, "no memory"),
        }
    }
}

impl From<AllocError> for Trouble {
    fn from(_: AllocError) -> Trouble {
        Trouble::NoMemory
    }
}

impl<T: Drop> From<AllocFailed<T>> for Trouble {
    fn from(_: AllocFailed<T>) -> Trouble {
        Trouble::NoMemory
    }
}

impl From<outside::NoMemory> for Trouble {
    fn from(_: outside::NoMemory) -> Trouble {
        Trouble::NoMemory
    }
}

impl From<io::Error> for Trouble {
    fn from(_: io::Error) -> Trouble {
        Trouble::NoFile
    }
}
