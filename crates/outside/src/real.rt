ghost use Rattle.std.specs.Prelude.{◌≡◌, ◌≤◌, ℕ, List, None};
ghost use Rattle.meaning.specs.Counts.{Rose};

use crate::shelf::{Failed, Shelf, Sink};
use std::fs;
use std::io::{Read, Write};
use std::rt::Files;

/// Real files. A read from place 0 opens the file; one from another place goes on in the file that
/// was opened last. It has one count of faults and one of bytes for all names, which stand still at
/// the greatest `u64`, and tells nothing of content.
pub struct FileShelf<'r, R: Files> {
    rt: &'r R,
    open: Option<R::File>,
    next: u64,
    given: u64,
    faults: u64,
}

impl<'r, R: Files> FileShelf<'r, R> {
    /// No file is open yet. Making it takes no memory.
    pub fn new(rt: &'r R) -> FileShelf<'r, R>
        ensures at_front { ⟦<FileShelf<'r, R> as Shelf>⟧.next result ≡ 0 }
        ensures no_faults { (name : List ℕ) → ⟦<FileShelf<'r, R> as Shelf>⟧.faults result name ≡ 0 }
        ensures nothing_given { (name : List ℕ) → ⟦<FileShelf<'r, R> as Shelf>⟧.given result name ≡ 0 }
    {
        FileShelf {
            rt,
            open: None,
            next: 0,
            given: 0,
            faults: 0,
        }
    }

    /// Lets go of the open file and counts the fault.
    fn fail(&mut self) -> Failed
        ensures starts_again { self.new.next ≡ 0 }
        ensures fault { Rose self.old.faults self.new.faults }
        ensures no_fewer { self.old.faults ≤ self.new.faults }
        ensures same_given { self.new.given ≡ self.old.given }
    {
        self.open = None;
        self.next = 0;
        self.faults = self.faults.saturating_add(1);
        Failed
    }
}

impl<'r, R: Files> Drop for FileShelf<'r, R> {
    fn drop(self) {
        let FileShelf {
            rt: _,
            open: _,
            next: _,
            given: _,
            faults: _,
        } = self;
    }
}

impl<'r, R: Files> Shelf for FileShelf<'r, R> {
    ghost holds = { λ _ _. None };

    ghost faults = { λ s _. s.faults };

    ghost next = { λ s. s.next };

    ghost given = { λ s _. s.given };

    #[tactic(auto, using(crate::proofs::Laws::count_laws))]
    fn part(&mut self, name: &str, from: u64, buf: &mut [u8]) -> Result<usize, Failed> {
        if from == 0 {
            match fs::open(self.rt, name) {
                Ok(file) => self.open = Some(file),
                Err(_) => return Err(self.fail()),
            }
        }
        let read = match &mut self.open {
            Some(file) => file.read(buf),
            None => return Err(self.fail()),
        };
        match read {
            Ok(n) => {
                self.next = from + n as u64;
                self.given = self.given.saturating_add(n as u64);
                Ok(n)
            }
            Err(_) => Err(self.fail()),
        }
    }
}

/// A stream, such as standard output. An error and a write of no bytes both count as faults. It
/// tells nothing of what it got.
#[derive(Drop)]
pub struct StreamSink<W> {
    stream: W,
    faults: u64,
}

impl<W: Write + Drop> StreamSink<W> {
    /// Nothing is given to the stream yet. Making it takes no memory.
    pub fn new(stream: W) -> StreamSink<W>
        ensures no_faults { ⟦<StreamSink<W> as Sink>⟧.faults result ≡ 0 }
    {
        StreamSink { stream, faults: 0 }
    }
}

impl<W: Write + Drop> Sink for StreamSink<W> {
    ghost got = { λ _. None };

    ghost faults = { λ s. s.faults };

    fn put(&mut self, piece: &[u8]) -> Result<usize, Failed> {
        match self.stream.write(piece) {
            Ok(n) if n > 0 => Ok(n),
            _ => {
                self.faults = self.faults.saturating_add(1);
                Err(Failed)
            }
        }
    }
}
