ghost use Rattle.std.specs.Prelude.{◌≡◌, ◌≢◌, ◌+◌, ◌<◌, ◌≤◌, ◌++◌, [], Some, Err, MatchOption, IfErr, IfOk, IfSome, OnOk, OnErr, length, take, drop, vec_len, vec_capacity};
ghost use Rattle.std.specs.Option.{option_map};
ghost use Rattle.base_core.specs.Faults.{IsCounted, faults_after};
ghost use Rattle.script_model.specs.Lines.{line_fault, longest_input};
ghost use Rattle.script_io.specs.LinesStates.{Extends, IsOpenAt, ended_by};
ghost use Rattle.script_io.specs.Windows.{Takes, Finds, IsBounded, error_of, judgement_of, feed_index};

use crate::line_error::LineError;
use crate::source::Source;
use crate::words::index_of;
use base_core::Fault;
use std::alloc::{AllocError, Global};

// How many bytes are asked for in a read.
const PIECE: usize = 65536;

const LONGEST_LINE: u64 = 8400000;

pub const LONGEST_INPUT: u64 = 1073741824;

/// The bytes of an input that came and are not handed out: those from `start` on.
#[derive(Debug, Drop)]
pub struct Window {
    pub bytes: Vec<u8>,
    pub start: usize,
    pub piece: Vec<u8>,
    ghost within: { start ≤ length bytes.items },
}

/// A line of so many bytes, which one line feed or none ends.
#[derive(Clone, Copy, Debug)]
pub struct LineSpan {
    pub length: usize,
    pub feed: usize,
}

impl Window {
    /// Nothing came. It takes no memory.
    pub fn new(alloc: Global) -> Window
        ensures bytes { result.bytes.items ≡ [] }
        ensures start { result.start ≡ 0 }
    {
        Window {
            bytes: Vec::new(alloc),
            start: 0,
            piece: Vec::new(alloc),
        }
    }

    /// The bytes.
    pub fn pending(&self) -> &[u8]
        ensures { result.now ≡ drop self.now.start self.now.bytes.items }
    {
        &self.bytes[self.start..]
    }

    /// Moves the bytes to the start.
    fn compact(&mut self)
        ensures start { self.new.start ≡ 0 }
        ensures bytes { self.new.bytes.items ≡ drop self.old.start self.old.bytes.items }
    {
        if self.start > 0 {
            let kept = self.bytes.len() - self.start;
            self.bytes.rotate_left(self.start);
            self.bytes.truncate(kept);
            self.start = 0;
        }
    }

    /// Reads another piece behind the bytes, and answers how many bytes it has.
    pub fn fill<S: Source>(&mut self, source: &mut S) -> Result<usize, LineError>
        ensures start { self.new.start ≡ 0 }
        ensures takes { IfOk result (λ n. IfSome (S.left source.old) (λ left.
            Takes left (S.left source.new) (drop self.old.start self.old.bytes.items) self.new.bytes.items n)) }
        ensures more { IfOk result (λ n. length self.new.bytes.items ≡ length (drop self.old.start self.old.bytes.items) + n) }
        ensures kept { take (length (drop self.old.start self.old.bytes.items)) self.new.bytes.items ≡ drop self.old.start self.old.bytes.items }
        ensures err { OnErr result (self.new.bytes.items ≡ drop self.old.start self.old.bytes.items) }
        ensures left { OnErr result (IfSome (S.left source.old) (λ left. S.left source.new ≡ Some left)) }
        ensures counted { S.faults source.new ≡ faults_after (ended_by result) (S.faults source.old) }
        ensures no_fault { (result ≢ Err LineError.Long) × (result ≢ Err LineError.Past) }
    {
        self.compact();
        if widen(&mut self.piece, PIECE).is_err() {
            return Err(LineError::NoMemory);
        }
        if self.bytes.reserve(PIECE).is_err() {
            return Err(LineError::NoMemory);
        }
        match take_piece(source, &mut self.piece, &mut self.bytes) {
            Ok(n) => Ok(n),
            Err(Fault) => Err(LineError::ReadFault),
        }
    }

    /// The index of the first line feed, where none stands among the first `scanned` bytes.
    fn line_end(&self, scanned: usize) -> Option<usize>
        requires { scanned ≤ feed_index (drop self.now.start self.now.bytes.items) }
        ensures { MatchOption result
            (length (drop self.now.start self.now.bytes.items) ≤ feed_index (drop self.now.start self.now.bytes.items))
            (λ n. (n < length (drop self.now.start self.now.bytes.items)) × (feed_index (drop self.now.start self.now.bytes.items) ≡ n)) }
    {
        let (_, rest) = self.pending().split_at(scanned);
        match index_of(rest, b'\n') {
            Some(more) => Some(scanned + more),
            None => None,
        }
    }

    /// Reads on until the first line is whole, and answers where it ends; or nothing, where nothing is
    /// left. `before` bytes of the input came before it. It hands out no byte.
    pub fn find_line<S: Source>(
        &mut self,
        source: &mut S,
        before: u64,
    ) -> Result<Option<LineSpan>, LineError>
        requires { before ≤ longest_input }
        ensures finds { IfSome (S.left source.old) (λ left. Finds (drop self.old.start self.old.bytes.items ++ left) before
            (drop self.new.start self.new.bytes.items) (S.left source.new) result) }
        ensures extends { Extends (drop self.old.start self.old.bytes.items) (S.left source.old)
            (drop self.new.start self.new.bytes.items) (S.left source.new) }
        ensures undecided { IfErr result (λ error. IsOpenAt error before (drop self.new.start self.new.bytes.items)) }
        ensures fits { IfOk result (λ found. IfSome found (λ span. IsBounded before (drop self.new.start self.new.bytes.items) span)) }
        ensures counted { S.faults source.new ≡ faults_after (ended_by result) (S.faults source.old) }
    {
        let mut scanned = 0;
        loop {
            if let Some(length) = self.line_end(scanned) {
                return judged(before, LineSpan { length, feed: 1 });
            }
            scanned = self.pending().len();
            if let Some(error) = fault(before, scanned as u64, 0) {
                return Err(error);
            }
            if self.fill(source)? == 0 {
                return Ok(if scanned == 0 {
                    None
                } else {
                    Some(LineSpan {
                        length: scanned,
                        feed: 0,
                    })
                });
            }
        }
    }
}

// Makes a buffer so long.
fn widen(buffer: &mut Vec<u8>, count: usize) -> Result<(), AllocError>
    ensures { OnOk result (vec_len buffer.new ≡ count) }
{
    buffer.resize(count, 0)
}

// Reads a piece and puts it behind the bytes that came before, for which there is room.
fn take_piece<S: Source>(
    source: &mut S,
    piece: &mut [u8],
    bytes: &mut Vec<u8>,
) -> Result<usize, Fault>
    requires piece { 0 < length piece.old }
    requires room { vec_len bytes.old + length piece.old ≤ vec_capacity bytes.old }
    ensures takes { IfOk result (λ n. IfSome (S.left source.old) (λ left. Takes left (S.left source.new) bytes.old.items bytes.new.items n)) }
    ensures more { IfOk result (λ n. length bytes.new.items ≡ length bytes.old.items + n) }
    ensures small { IfOk result (λ n. n ≤ length piece.old) }
    ensures kept { take (length bytes.old.items) bytes.new.items ≡ bytes.old.items }
    ensures err { OnErr result (bytes.new.items ≡ bytes.old.items) }
    ensures left { OnErr result (IfSome (S.left source.old) (λ left. S.left source.new ≡ Some left)) }
    ensures counted { IsCounted (S.faults source.old) (S.faults source.new) result }
{
    let n = source.read(piece)?;
    let _ = bytes.extend_from_slice(&piece[..n]);
    Ok(n)
}

// Why a line is not read that begins behind `before` bytes and has so many bytes and line feeds.
fn fault(before: u64, length: u64, feed: u64) -> Option<LineError>
    requires before { before ≤ longest_input }
    requires feed { feed ≤ 1 }
    ensures { result ≡ option_map error_of (line_fault before length feed) }
{
    if length > LONGEST_LINE && before + LONGEST_LINE <= LONGEST_INPUT {
        Some(LineError::Long)
    } else if length >= LONGEST_INPUT - before + 1 - feed {
        Some(LineError::Past)
    } else {
        None
    }
}

// A line that begins behind `before` bytes, or why it is not read.
fn judged(before: u64, span: LineSpan) -> Result<Option<LineSpan>, LineError>
    requires before { before ≤ longest_input }
    requires feed { span.feed ≤ 1 }
    ensures { result ≡ judgement_of before span }
{
    match fault(before, span.length as u64, span.feed as u64) {
        Some(error) => Err(error),
        None => Ok(Some(span)),
    }
}
