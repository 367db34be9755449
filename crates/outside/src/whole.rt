ghost use Rattle.std.specs.Prelude.{◌≡◌, ◌<◌, ◌≤◌, ◌+◌, ◌^◌, ℕ, List, Option, Some, Err, length, take, IfOk, IfErr, OnOk, OnErr, vec_len, ◌≢◌};
ghost use Rattle.meaning.specs.Counts.{counted, Rose, RoseBy, NoFewer, appended};
ghost use Rattle.outside.specs.Pieces.{IsPlace, IsFront};

use crate::shelf::{Failed, Shelf, Sink};
use std::alloc::{AllocError, Global};

/// Why a file was not read whole.
#[derive(Clone, Copy, Debug, PartialEq, Eq)]
pub enum ReadStop {
    /// A read of the file failed.
    Failed,
    /// The file is longer than the limit: `limit + 1` bytes of it were taken.
    TooLong,
    /// There is no memory for its bytes.
    NoMemory,
}

impl From<AllocError> for ReadStop {
    ghost use Rattle.outside.specs.declared.whole.ReadStop.{ReadStop};

    ghost from_gives = { λ _ stop. stop ≡ ReadStop.NoMemory };

    fn from(_: AllocError) -> ReadStop {
        ReadStop::NoMemory
    }
}

const CHUNK: usize = 65_536;

/// Room for a piece of a file.
fn chunk(alloc: Global) -> Result<Vec<u8>, AllocError>
    ensures { IfOk result (λ v. 0 < vec_len v) }
{
    vec![in alloc; 0u8; CHUNK]
}

/// Reads one more piece, and answers how long it is.
fn read_part<S: Shelf>(
    shelf: &mut S,
    name: &str,
    whole: &mut Vec<u8>,
    chunk: &mut [u8],
    most: usize,
) -> Result<usize, ReadStop>
    requires room { 0 < length chunk.old }
    requires place { IsPlace (vec_len whole.old) (S.next shelf.old) }
    requires below { vec_len whole.old < most }
    requires most { most ≤ 2 ^ 32 }
    ensures longer { IfOk result (λ n. vec_len whole.new ≡ vec_len whole.old + n) }
    ensures within { IfOk result (λ _. vec_len whole.new ≤ most) }
    ensures goes_on { IfOk result (λ _. S.next shelf.new ≡ vec_len whole.new) }
    ensures front { IfOk result (λ _. (file : List ℕ) → S.holds shelf.old name.now ≡ Some file
        → IsFront file whole.old.items → IsFront file whole.new.items) }
    ensures at_end { IfOk result (λ n. n ≡ 0 → (file : List ℕ) → S.holds shelf.old name.now ≡ Some file
        → length file ≤ vec_len whole.new) }
    ensures more_given { IfOk result (λ n. S.given shelf.new name.now ≡ counted (S.given shelf.old name.now) n) }
    ensures never_too_long { IfErr result (λ stop. stop ≢ ReadStop.TooLong) }
    ensures fault { result ≡ Err ReadStop.Failed → Rose (S.faults shelf.old name.now) (S.faults shelf.new name.now) }
    ensures starts_again { result ≡ Err ReadStop.Failed → S.next shelf.new ≡ 0 }
    ensures no_fewer_faults { NoFewer (S.faults shelf.old) (S.faults shelf.new) }
    ensures no_less_given { NoFewer (S.given shelf.old) (S.given shelf.new) }
    ensures same_files { S.holds shelf.new ≡ S.holds shelf.old }
{
    let want = (most - whole.len()).min(chunk.len());
    let n = match shelf.part(name, whole.len() as u64, &mut chunk[..want]) {
        Ok(n) => n,
        Err(Failed) => return Err(ReadStop::Failed),
    };
    whole.extend_from_slice(&chunk[..n])?;
    Ok(n)
}

/// Reads a whole file of at most `limit` bytes, from its first byte to its end. Each read names
/// this file.
#[tactic(auto, using(crate::proofs::Laws::read_laws))]
pub fn read_whole<S: Shelf>(
    alloc: Global,
    shelf: &mut S,
    name: &str,
    limit: u64,
) -> Result<Vec<u8>, ReadStop>
    requires { limit < 2 ^ 32 }
    ensures whole { IfOk result (λ v. (file : List ℕ) → S.holds shelf.old name.now ≡ Some file → v.items ≡ file) }
    ensures within { IfOk result (λ v. vec_len v ≤ limit) }
    ensures read_to_end { IfOk result (λ v. S.next shelf.new ≡ vec_len v) }
    ensures fault { result ≡ Err ReadStop.Failed → Rose (S.faults shelf.old name.now) (S.faults shelf.new name.now) }
    ensures starts_again { result ≡ Err ReadStop.Failed → S.next shelf.new ≡ 0 }
    ensures too_long_place { result ≡ Err ReadStop.TooLong → S.next shelf.new ≡ limit + 1 }
    ensures too_long_given { result ≡ Err ReadStop.TooLong
        → RoseBy (S.given shelf.old name.now) (S.given shelf.new name.now) (limit + 1) }
    ensures too_long_file { result ≡ Err ReadStop.TooLong
        → (file : List ℕ) → S.holds shelf.old name.now ≡ Some file → limit < length file }
    ensures no_fewer_faults { NoFewer (S.faults shelf.old) (S.faults shelf.new) }
    ensures no_less_given { NoFewer (S.given shelf.old) (S.given shelf.new) }
    ensures same_files { S.holds shelf.new ≡ S.holds shelf.old }
{
    let mut chunk = chunk(alloc)?;
    let mut whole = Vec::new(alloc);
    let most = limit as usize + 1;
    'pieces: while whole.len() < most {
        if read_part(shelf, name, &mut whole, &mut chunk, most)? == 0 {
            return Ok(whole);
        }
    }
    Err(ReadStop::TooLong)
}

/// Gives all bytes to the sink, or a prefix of them where a put fails. Each put is given all that is
/// left.
#[tactic(auto, using(crate::proofs::Laws::write_laws))]
pub fn write_whole<O: Sink>(sink: &mut O, bytes: &[u8]) -> Result<(), Failed>
    ensures taken { OnOk result (O.got sink.new ≡ appended (O.got sink.old) bytes.now) }
    ensures prefix { OnErr result ((n : ℕ) × (n ≤ length bytes.now)
        × (O.got sink.new ≡ appended (O.got sink.old) (take n bytes.now))) }
    ensures fault { OnErr result (Rose (O.faults sink.old) (O.faults sink.new)) }
    ensures no_fewer_faults { O.faults sink.old ≤ O.faults sink.new }
{
    let mut done = 0;
    'pieces: while done < bytes.len() {
        done += sink.put(&bytes[done..])?;
    }
    Ok(())
}
