ghost use Rattle.std.specs.Prelude.{◌≡◌, ◌≤◌, ◌<◌, ◌-◌, ◌||◌, Some, [], length, take, vec_len, vec_capacity, IfOk, OnOk, OnErr, is_err, nat_lt, min};
ghost use Rattle.meaning.specs.Counts.{Rose, counted, appended};
ghost use Rattle.outside.specs.Pieces.{is_listed};

use crate::shelf::{Failed, NoMemory, Sink};
use std::alloc::Global;

/// A sink in memory, of a fixed room, of which chosen puts fail. It tells all that it got.
#[derive(Drop)]
pub struct MemSink {
    bytes: Vec<u8>,
    room: usize,
    most: usize,
    failing: Vec<u64>,
    puts: u64,
    faults: u64,
    ghost has_room: { room ≤ vec_capacity bytes },
    ghost within: { vec_len bytes ≤ room },
    ghost some: { 0 < most },
}

impl MemSink {
    ghost use Rattle.outside.specs.MemSinks.{bytes_taken, room_of, most_of, failing_puts, puts_made, faults_of};

    /// An empty sink. It takes `room` bytes in all, at most `most` in one put. The puts whose
    /// numbers `failing` lists fail, counted from 0, and so does a put for which the room is too
    /// small.
    pub fn new(
        alloc: Global,
        room: usize,
        most: usize,
        failing: Vec<u64>,
    ) -> Result<MemSink, NoMemory>
        requires { 0 < most }
        ensures empty { IfOk result (λ sink. bytes_taken sink ≡ []) }
        ensures room { IfOk result (λ sink. room_of sink ≡ room) }
        ensures most { IfOk result (λ sink. most_of sink ≡ most) }
        ensures failing { IfOk result (λ sink. failing_puts sink ≡ failing.items) }
        ensures no_puts { IfOk result (λ sink. puts_made sink ≡ 0) }
        ensures no_faults { IfOk result (λ sink. faults_of sink ≡ 0) }
    {
        let bytes = Vec::with_capacity(alloc, room)?;
        Ok(MemSink {
            bytes,
            room,
            most,
            failing,
            puts: 0,
            faults: 0,
        })
    }

    /// What it got so far.
    pub fn bytes(&self) -> &[u8]
        ensures { result.now ≡ bytes_taken self.now }
    {
        self.bytes.as_slice()
    }
}

impl Sink for MemSink {
    ghost use Rattle.outside.specs.MemSinks.{bytes_taken, room_of, most_of, failing_puts, puts_made, faults_of, SameSetup};

    ghost got = { λ sink. Some (bytes_taken sink) };

    ghost faults = { faults_of };

    fn put(&mut self, piece: &[u8]) -> Result<usize, Failed>
        requires { 0 < length piece.now }
        ensures some { IfOk result (λ n. 0 < n) }
        ensures count { IfOk result (λ n. n ≤ length piece.now) }
        ensures taken { IfOk result (λ n. Some (bytes_taken self.new) ≡ appended (Some (bytes_taken self.old)) (take n piece.now)) }
        ensures kept { OnErr result (Some (bytes_taken self.new) ≡ Some (bytes_taken self.old)) }
        ensures fault { OnErr result (Rose (faults_of self.old) (faults_of self.new)) }
        ensures no_fewer_faults { faults_of self.old ≤ faults_of self.new }

        // Beyond the trait: exactly when a put fails, how much it takes, what it counts.
        ensures fails { is_err result
            ≡ (is_listed (failing_puts self.old) (puts_made self.old)
            || nat_lt (room_of self.old - length (bytes_taken self.old)) (min (most_of self.old) (length piece.now))) }
        ensures as_much { IfOk result (λ n. n ≡ min (most_of self.old) (length piece.now)) }
        ensures counts_put { puts_made self.new ≡ counted (puts_made self.old) 1 }
        ensures counts_fault { OnErr result (faults_of self.new ≡ counted (faults_of self.old) 1) }
        ensures counts_no_fault { OnOk result (faults_of self.new ≡ faults_of self.old) }
        ensures same_setup { SameSetup self.old self.new }
    {
        let number = self.puts;
        self.puts = self.puts.saturating_add(1);
        let want = self.most.min(piece.len());
        if self.failing.contains(&number) || self.room - self.bytes.len() < want {
            self.faults = self.faults.saturating_add(1);
            return Err(Failed);
        }
        match self.bytes.extend_from_slice(&piece[..want]) {
            Ok(()) => Ok(want),
            Err(_) => unreachable!(),
        }
    }
}
