//! Lines out of a source, however it cuts its bytes. Nothing but the bytes of one read and one line is held.
ghost use Rattle.std.specs.Prelude.{◌≡◌, ◌+◌, ◌<◌, ◌≤◌, ◌++◌, ◌∷◌, [], List, ℕ, Some, true, false, length, drop, IfOk, IfErr, OnOk, IsErrOf, MatchOption};
ghost use Rattle.snap_io.specs.Causes.{Counted};
ghost use Rattle.snap_str.specs.Cut.{Lacks, IsCutAtFirst};
ghost use Rattle.snap_io_streams.specs.Streams.{TakesPiece};
ghost use Rattle.snap_io_lines.specs.Ahead.{line_limit, is_read_fault, IsAhead, SpendsOf, TakesLine, IsLong, HandsOut, StopsLine, StopsPiece, BudgetEnd};
ghost use Rattle.snap_io_lines.specs.declared.lines.LineEnd.TheVariants.{Ended};

use memchr::memchr;
use snap_io::Source;
use std::alloc::Global;
use std::marker::Model;

/// The most bytes of a line before its end.
pub const MAX_LINE: usize = 1_048_576;

/// The most bytes of a whole input.
pub const MAX_INPUT: u64 = 1_099_511_627_776;

const PIECE: usize = 4096;

/// How a line ended.
#[derive(Clone, Copy, Debug, PartialEq, Eq)]
pub enum LineEnd {
    /// By a line's end.
    Ended,
    /// By the end of the input: it is empty where the input is empty or ends with a line's end.
    Last,
}

/// Why there is no line.
#[derive(Clone, Copy, Debug, PartialEq, Eq)]
pub enum LineError {
    /// The source failed.
    Fault,
    /// The line has more than `MAX_LINE` bytes before its end.
    LineTooLong,
    /// The source gave more bytes than the budget allowed: the budget is used up, and the source is not to be read again.
    InputTooLong,
    OutOfMemory,
}

/// Bytes that were read and not handed out yet: those of one read at most.
#[derive(Drop)]
pub struct Held {
    bytes: Vec<u8>,
    at: usize,
}

impl Model for Held {
    ghost use Rattle.std.specs.Prelude.{ℕ, List, ◌≤◌, drop, length};

    ghost Value = { List ℕ };

    ghost view = { λ held. drop held.at held.bytes.items };

    ghost invariant = { λ held. held.at ≤ length held.bytes.items };
}

/// The bytes before the first line's end, and how many bytes they and that end are.
fn split_line(bytes: &[u8]) -> Option<(&[u8], usize)>
    ensures { MatchOption result (Lacks 10 bytes.now)
        (λ p. IsCutAtFirst 10 bytes.now p.0.now (drop (p.1) bytes.now)
        × (p.1 ≡ length p.0.now + 1)) }
{
    match memchr(b'\n', bytes) {
        None => None,
        Some(at) => {
            let (line, _) = bytes.split_at(at);
            Some((line, at + 1))
        }
    }
}

impl Held {
    pub fn new(alloc: Global) -> Held
        ensures { result ≡ [] }
    {
        Held {
            bytes: Vec::new(alloc),
            at: 0,
        }
    }

    /// Adds the bytes up to the first line's end, or all where there is none. Whether there was one.
    fn hand_out(&mut self, line: &mut Vec<u8>) -> Result<bool, LineError>
        requires { length line.old.items ≤ line_limit }
        ensures out { IfOk result (λ ended. HandsOut ended line.old.items line.new.items self.old self.new) }
        ensures within { IfOk result (λ _. length line.new.items ≤ line_limit) }
        ensures why { IfErr result (λ error. StopsLine error line.old.items self.old) }
    {
        let (_, rest) = self.bytes.as_slice().split_at(self.at);
        match split_line(rest) {
            Some((piece, used)) => match add_piece(line, piece) {
                Err(error) => Err(error),
                Ok(()) => {
                    self.at += used;
                    Ok(true)
                }
            },
            None => match add_piece(line, rest) {
                Err(error) => Err(error),
                Ok(()) => {
                    self.at = self.bytes.len();
                    Ok(false)
                }
            },
        }
    }

    /// Reads once, where nothing is held. Whether there was something left.
    fn fill<S: Source>(&mut self, source: &mut S, budget: &mut u64) -> Result<bool, LineError>
        requires budget { 0 < budget.old }
        requires empty { self.old ≡ [] }
        ensures more { IfOk result (λ more. more ≡ true
            → (all : List ℕ) → IsAhead [] (S.left source.old) all
            → IsAhead self.new (S.left source.new) all) }
        ensures less { IfOk result (λ more. more ≡ true → budget.new < budget.old) }
        ensures kept { IfOk result (λ more. budget.new + length self.new ≡ budget.old) }
        ensures end { IfOk result (λ more. more ≡ false
            → (all : List ℕ) → IsAhead [] (S.left source.old) all
            → (all ≡ []) × IsAhead self.new (S.left source.new) []) }
        ensures spent { SpendsOf budget.old budget.new (S.left source.old) (S.left source.new) }
        ensures left { BudgetEnd result budget.new }
        ensures not_long { IsErrOf result LineError.LineTooLong → ⊥ }
        ensures cause { Counted is_read_fault (S.faults source.old) (S.faults source.new) result }
    {
        self.bytes.clear();
        self.at = 0;
        read_more(source, budget, &mut self.bytes)
    }

    /// The next line, without its end, in place of what `line` held. The budget, the bytes that may still be read, is counted down by
    /// each read. How the source cuts its bytes makes no difference: whatever is ahead, held here or left in the source, is the
    /// line, its end and what is ahead after it.
    pub fn next_line<S: Source>(
        &mut self,
        source: &mut S,
        budget: &mut u64,
        line: &mut Vec<u8>,
    ) -> Result<LineEnd, LineError>
        requires { 0 < budget.old }
        ensures line { IfOk result (λ end. (all : List ℕ) → IsAhead self.old (S.left source.old) all
            → TakesLine end line.new.items all self.new (S.left source.new)) }
        ensures unbroken { IfOk result (λ _. Lacks 10 line.new.items) }
        ensures within { IfOk result (λ _. length line.new.items ≤ line_limit) }
        ensures less { IfOk result (λ end. end ≡ Ended
            → budget.new + length self.new < budget.old + length self.old) }
        ensures kept { IfOk result (λ _. budget.new + length self.new
            ≤ budget.old + length self.old) }
        ensures long { IsErrOf result LineError.LineTooLong
            → (all : List ℕ) → IsAhead self.old (S.left source.old) all → IsLong all }
        ensures spent { SpendsOf budget.old budget.new (S.left source.old) (S.left source.new) }
        ensures left { BudgetEnd result budget.new }
        ensures cause { Counted is_read_fault (S.faults source.old) (S.faults source.new) result }
    {
        line.clear();
        'pieces: loop {
            match self.hand_out(line) {
                Err(error) => return Err(error),
                Ok(true) => return Ok(LineEnd::Ended),
                Ok(false) => {}
            }
            match self.fill(source, budget) {
                Err(error) => return Err(error),
                Ok(false) => return Ok(LineEnd::Last),
                Ok(true) => {}
            }
        }
    }
}

/// Adds a piece to a line, which has no more bytes than it may have.
fn add_piece(line: &mut Vec<u8>, piece: &[u8]) -> Result<(), LineError>
    requires { length line.old.items ≤ line_limit }
    ensures added { OnOk result (line.new.items ≡ line.old.items ++ piece.now) }
    ensures within { OnOk result (length line.new.items ≤ line_limit) }
    ensures why { IfErr result (λ error.
        StopsPiece error (length line.old.items + length piece.now)) }
{
    if piece.len() > MAX_LINE - line.len() {
        return Err(LineError::LineTooLong);
    }
    match line.extend_from_slice(piece) {
        Ok(()) => Ok(()),
        Err(_) => Err(LineError::OutOfMemory),
    }
}

/// Reads once, and adds what was given to the bytes.
fn read_piece<S: Source>(
    source: &mut S,
    buffer: &mut [u8],
    budget: &mut u64,
    bytes: &mut Vec<u8>,
) -> Result<usize, LineError>
    requires budget { 0 < budget.old }
    requires room { length buffer.old ≤ budget.old }
    ensures piece { IfOk result (λ count.
        TakesPiece count bytes.old.items bytes.new.items (S.left source.old) (S.left source.new)) }
    ensures end { IfOk result (λ count. count ≡ 0 → 0 < length buffer.old → (xs : List ℕ)
        → S.left source.old ≡ Some xs → xs ≡ []) }
    ensures count { IfOk result (λ count. count + budget.new ≡ budget.old) }
    ensures spent { SpendsOf budget.old budget.new (S.left source.old) (S.left source.new) }
    ensures left { BudgetEnd result budget.new }
    ensures not_long { IsErrOf result LineError.LineTooLong → ⊥ }
    ensures cause { Counted is_read_fault (S.faults source.old) (S.faults source.new) result }
{
    match source.read(buffer) {
        Err(_) => Err(LineError::Fault),
        Ok(count) => {
            *budget -= count as u64;
            if *budget == 0 {
                return Err(LineError::InputTooLong);
            }
            let (piece, _) = buffer.split_at(count);
            if bytes.extend_from_slice(piece).is_err() {
                return Err(LineError::OutOfMemory);
            }
            Ok(count)
        }
    }
}

/// Reads once, as much as one read gives and the budget allows, and adds what was given to the bytes.
fn read_some<S: Source>(
    source: &mut S,
    budget: &mut u64,
    bytes: &mut Vec<u8>,
) -> Result<usize, LineError>
    requires { 0 < budget.old }
    ensures piece { IfOk result (λ count.
        TakesPiece count bytes.old.items bytes.new.items (S.left source.old) (S.left source.new)) }
    ensures end { IfOk result (λ count. count ≡ 0 → (xs : List ℕ)
        → S.left source.old ≡ Some xs → xs ≡ []) }
    ensures count { IfOk result (λ count. count + budget.new ≡ budget.old) }
    ensures spent { SpendsOf budget.old budget.new (S.left source.old) (S.left source.new) }
    ensures left { BudgetEnd result budget.new }
    ensures not_long { IsErrOf result LineError.LineTooLong → ⊥ }
    ensures cause { Counted is_read_fault (S.faults source.old) (S.faults source.new) result }
{
    let mut buffer = [0u8; PIECE];
    let room = (PIECE as u64).min(*budget) as usize;
    read_piece(source, &mut buffer[..room], budget, bytes)
}

/// Reads once into bytes of which there are none. Whether there was something left.
fn read_more<S: Source>(
    source: &mut S,
    budget: &mut u64,
    bytes: &mut Vec<u8>,
) -> Result<bool, LineError>
    requires budget { 0 < budget.old }
    requires empty { bytes.old.items ≡ [] }
    ensures more { IfOk result (λ more. more ≡ true
        → (all : List ℕ) → IsAhead [] (S.left source.old) all
        → IsAhead bytes.new.items (S.left source.new) all) }
    ensures less { IfOk result (λ more. more ≡ true → budget.new < budget.old) }
    ensures kept { IfOk result (λ more. budget.new + length bytes.new.items ≡ budget.old) }
    ensures end { IfOk result (λ more. more ≡ false
        → (all : List ℕ) → IsAhead [] (S.left source.old) all
        → (all ≡ []) × IsAhead bytes.new.items (S.left source.new) []) }
    ensures spent { SpendsOf budget.old budget.new (S.left source.old) (S.left source.new) }
    ensures left { BudgetEnd result budget.new }
    ensures not_long { IsErrOf result LineError.LineTooLong → ⊥ }
    ensures cause { Counted is_read_fault (S.faults source.old) (S.faults source.new) result }
{
    match read_some(source, budget, bytes) {
        Err(error) => Err(error),
        Ok(count) => { if count == 0 { Ok(false) } else { Ok(true) } }
    }
}
