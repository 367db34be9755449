ghost use Rattle.std.specs.Prelude.{◌≡◌, ◌≤◌, ◌<◌, ◌+◌, ◌-◌, ◌^◌, ℕ, List, Some, None, length, min, vec_len, OnOk, OnErr, if◌then◌else◌, IfOk, is_err, is_none, ◌||◌};
ghost use Rattle.outside.specs.Pieces.{IsPart, IsPlace, is_listed};
ghost use Rattle.outside.specs.MemFiles.{place};
ghost use Rattle.meaning.specs.Counts.{counted, Rose, NoFewer};
ghost use Rattle.std.specs.Str.{bytes_eq};

use crate::shelf::{Failed, NoMemory, Shelf};
use std::alloc::Global;

/// A name and the bytes under it.
#[derive(Drop)]
struct MemFile {
    name: String,
    bytes: Vec<u8>,
}

/// What happened under one name.
#[derive(Clone, Copy)]
struct ReadCounts {
    faults: u64,
    given: u64,
}

/// Files in memory, of which chosen reads fail. It tells all that it holds.
#[derive(Drop)]
pub struct MemShelf {
    files: Vec<MemFile>,
    counts: Vec<ReadCounts>,
    missing: u64,
    failing: Vec<u64>,
    reads: u64,
    next: u64,
    ghost one_count_each: { vec_len counts ≡ vec_len files },
}

/// The place of a name among the files, or how many there are.
fn place_of(files: &[MemFile], name: &str) -> usize
    ensures { result ≡ place files.now name.now }
{
    let mut at = 0;
    'files: for file in files {
        if file.name.as_str() == name {
            return at;
        }
        at += 1;
    }
    at
}

/// Copies the bytes from a place on, as far as they and the buffer go.
fn copy_part(bytes: &[u8], from: u64, buf: &mut [u8]) -> usize
    requires { 0 < length buf.old }
    ensures part { IsPart bytes.now from result buf.new }
    ensures as_much { result ≡ min (length buf.old) (length bytes.now - from) }
{
    if from >= bytes.len() as u64 {
        return 0;
    }
    let start = from as usize;
    let n = (bytes.len() - start).min(buf.len());
    buf[..n].copy_from_slice(&bytes[start..start + n]);
    n
}

impl MemShelf {
    ghost use Rattle.outside.specs.MemShelves.{bytes_under, faults_under, given_under, next_place, reads_made, failing_reads, SameCounts};

    /// No files. The reads whose numbers `failing` lists fail, counted from 0. Its own lists use
    /// the allocator of `failing`, and making them takes no memory.
    pub fn new(failing: Vec<u64>) -> MemShelf
        ensures no_files { (name : List ℕ) → bytes_under result name ≡ None }
        ensures no_faults { (name : List ℕ) → faults_under result name ≡ 0 }
        ensures nothing_given { (name : List ℕ) → given_under result name ≡ 0 }
        ensures at_front { next_place result ≡ 0 }
        ensures no_reads { reads_made result ≡ 0 }
        ensures failing { failing_reads result ≡ failing.items }
    {
        let alloc = *failing.allocator();
        MemShelf {
            files: Vec::new(alloc),
            counts: Vec::new(alloc),
            missing: 0,
            failing,
            reads: 0,
            next: 0,
        }
    }

    /// Puts bytes under a name, in place of those that were there. All counts stay.
    pub fn add(&mut self, name: &str, bytes: &[u8]) -> Result<(), NoMemory>
        ensures ok { OnOk result ((other : List ℕ) → bytes_under self.new other
            ≡ (if bytes_eq name.now other then Some bytes.now else bytes_under self.old other)) }
        ensures err { OnErr result ((other : List ℕ) → bytes_under self.new other ≡ bytes_under self.old other) }
        ensures same_counts { SameCounts self.old self.new }
    {
        let alloc = *self.failing.allocator();
        let at = place_of(self.files.as_slice(), name);
        let bytes = Vec::from_slice(alloc, bytes)?;
        if at < self.files.len() {
            self.files[at].bytes = bytes;
            return Ok(());
        }
        let name = String::from_str(alloc, name)?;
        self.counts.reserve(1)?;
        self.files.push(MemFile { name, bytes })?;
        self.counts.push(ReadCounts {
            faults: self.missing,
            given: 0,
        })?;
        Ok(())
    }
}

impl Shelf for MemShelf {
    ghost use Rattle.outside.specs.MemShelves.{bytes_under, faults_under, given_under, next_place, reads_made, failing_reads, shares_count};

    ghost holds = { bytes_under };

    ghost faults = { faults_under };

    ghost next = { next_place };

    ghost given = { given_under };

    fn part(&mut self, name: &str, from: u64, buf: &mut [u8]) -> Result<usize, Failed>
        requires room { 0 < length buf.old }
        requires place { IsPlace from (next_place self.old) }
        requires fits { from + length buf.old < 2 ^ 64 }
        ensures count { IfOk result (λ n. n ≤ length buf.new) }
        ensures bytes { IfOk result (λ n. (file : List ℕ) → bytes_under self.old name.now ≡ Some file
            → IsPart file from n buf.new) }
        ensures goes_on { IfOk result (λ n. next_place self.new ≡ from + n) }
        ensures more_given { IfOk result (λ n. given_under self.new name.now ≡ counted (given_under self.old name.now) n) }
        ensures fault { OnErr result (Rose (faults_under self.old name.now) (faults_under self.new name.now)) }
        ensures starts_again { OnErr result (next_place self.new ≡ 0) }
        ensures no_fewer_faults { NoFewer (faults_under self.old) (faults_under self.new) }
        ensures no_less_given { NoFewer (given_under self.old) (given_under self.new) }
        ensures same_files { bytes_under self.new ≡ bytes_under self.old }

        // Beyond the trait: exactly when a read fails, how much it gives, what it counts under each name.
        ensures fails { is_err result
            ≡ (is_none (bytes_under self.old name.now) || is_listed (failing_reads self.old) (reads_made self.old)) }
        ensures as_much { IfOk result (λ n. (file : List ℕ) → bytes_under self.old name.now ≡ Some file
            → n ≡ min (length buf.old) (length file - from)) }
        ensures counts_read { reads_made self.new ≡ counted (reads_made self.old) 1 }
        ensures counts_fault { OnErr result ((other : List ℕ) → faults_under self.new other
            ≡ (if shares_count self.old name.now other then counted (faults_under self.old other) 1
            else faults_under self.old other)) }
        ensures counts_no_fault { OnOk result ((other : List ℕ) → faults_under self.new other ≡ faults_under self.old other) }
        ensures gives_under_the_name { IfOk result (λ n. (other : List ℕ) → given_under self.new other
            ≡ (if bytes_eq name.now other then counted (given_under self.old other) n else given_under self.old other)) }
        ensures gives_nothing { OnErr result ((other : List ℕ) → given_under self.new other ≡ given_under self.old other) }
        ensures same_failing { failing_reads self.new ≡ failing_reads self.old }
    {
        let number = self.reads;
        self.reads = self.reads.saturating_add(1);
        let at = place_of(self.files.as_slice(), name);
        if at >= self.files.len() {
            self.missing = self.missing.saturating_add(1);
            self.next = 0;
            return Err(Failed);
        }
        if self.failing.contains(&number) {
            self.counts[at].faults = self.counts[at].faults.saturating_add(1);
            self.next = 0;
            return Err(Failed);
        }
        let n = copy_part(self.files[at].bytes.as_slice(), from, buf);
        self.counts[at].given = self.counts[at].given.saturating_add(n as u64);
        self.next = from + n as u64;
        Ok(n)
    }
}
