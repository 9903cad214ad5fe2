//! Whole inputs and whole lines, over a source and a sink.
ghost use Rattle.std.specs.Prelude.{◌≡◌, ◌<◌, ◌≤◌, ◌+◌, ◌++◌, [], List, ℕ, Some, length, take, IfOk, OnOk, OnErr, IsErrOf};
ghost use Rattle.snap_io.specs.Causes.{Counted, is_fault};
ghost use Rattle.snap_io.specs.Streams.{HoldsFront};
ghost use Rattle.snap_io_streams.specs.Streams.{is_read_fault, TakesPiece, TakesAtMost, TakesExactly, input_limit};

use snap_io::{Fault, Sink, Source};
use std::alloc::{AllocError, Global};

/// The most bytes that an input may have.
const MAX_INPUT: usize = 67_108_864;

const PIECE: usize = 4096;

/// Why an input is not read.
#[derive(Clone, Copy, Debug, PartialEq, Eq)]
pub enum ReadError {
    Fault,
    TooLong,
    OutOfMemory,
}

impl From<Fault> for ReadError {
    ghost use Rattle.std.specs.Prelude.{◌≡◌};
    ghost use Rattle.snap_io_streams.specs.declared.streams.ReadError.TheVariants.{Fault};

    ghost from_gives = { λ _ e. e ≡ Fault };

    fn from(_: Fault) -> Self {
        ReadError::Fault
    }
}

impl From<AllocError> for ReadError {
    ghost use Rattle.std.specs.Prelude.{◌≡◌};
    ghost use Rattle.snap_io_streams.specs.declared.streams.ReadError.TheVariants.{OutOfMemory};

    ghost from_gives = { λ _ e. e ≡ OutOfMemory };

    fn from(_: AllocError) -> Self {
        ReadError::OutOfMemory
    }
}

/// Reads once, and adds what was given to the bytes.
fn read_piece<S: Source>(
    source: &mut S,
    buffer: &mut [u8],
    bytes: &mut Vec<u8>,
) -> Result<usize, ReadError>
    ensures piece { IfOk result (λ count.
        TakesPiece count bytes.old.items bytes.new.items (S.left source.old) (S.left source.new)) }
    ensures end { IfOk result (λ count. count ≡ 0 → 0 < length buffer.old → (xs : List ℕ)
        → S.left source.old ≡ Some xs → xs ≡ []) }
    ensures within { IfOk result (λ count. count ≤ length buffer.old) }
    ensures taken { TakesAtMost (length buffer.old) (S.left source.old) (S.left source.new) }
    ensures kept { IsErrOf result ReadError.Fault → S.left source.new ≡ S.left source.old }
    ensures not_long { IsErrOf result ReadError.TooLong → ⊥ }
    ensures cause { Counted is_read_fault (S.faults source.old) (S.faults source.new) result }
{
    let count = source.read(buffer)?;
    let (piece, _) = buffer.split_at(count);
    bytes.extend_from_slice(piece)?;
    Ok(count)
}

/// Reads the source to its end, within the limit. At most one byte more than the limit is ever taken, and where it is,
/// the source is not read again.
pub fn read_all<S: Source>(alloc: Global, source: &mut S) -> Result<Vec<u8>, ReadError>
    ensures all { IfOk result (λ bytes. (xs : List ℕ) → S.left source.old ≡ Some xs
        → bytes.items ≡ xs) }
    ensures end { IfOk result (λ bytes. (xs : List ℕ) → S.left source.old ≡ Some xs
        → S.left source.new ≡ Some []) }
    ensures within { IfOk result (λ bytes. length bytes.items ≤ input_limit) }
    ensures taken { TakesAtMost (input_limit + 1) (S.left source.old) (S.left source.new) }
    ensures fault { IsErrOf result ReadError.Fault
        → TakesAtMost input_limit (S.left source.old) (S.left source.new) }
    ensures too_long { IsErrOf result ReadError.TooLong
        → TakesExactly (input_limit + 1) (S.left source.old) (S.left source.new) }
    ensures cause { Counted is_read_fault (S.faults source.old) (S.faults source.new) result }
{
    let mut bytes = Vec::new(alloc);
    let mut buffer = [0u8; PIECE];
    while bytes.len() <= MAX_INPUT {
        let room = PIECE.min(MAX_INPUT + 1 - bytes.len());
        let count = read_piece(source, &mut buffer[..room], &mut bytes)?;
        if count == 0 {
            return Ok(bytes);
        }
    }
    Err(ReadError::TooLong)
}

/// Writes all the bytes. After a fault a part of their front is written.
pub fn write_all<K: Sink>(sink: &mut K, bytes: &[u8]) -> Result<(), Fault>
    ensures all { OnOk result ((w : List ℕ) → K.written sink.old ≡ Some w
        → K.written sink.new ≡ Some (w ++ bytes.now)) }
    ensures part { OnErr result ((w : List ℕ) → K.written sink.old ≡ Some w
        → HoldsFront bytes.now w (K.written sink.new)) }
    ensures cause { Counted is_fault (K.faults sink.old) (K.faults sink.new) result }
{
    let mut done = 0;
    while done < bytes.len() {
        let (_, rest) = bytes.split_at(done);
        let count = sink.write(rest)?;
        done += count;
    }
    Ok(())
}
