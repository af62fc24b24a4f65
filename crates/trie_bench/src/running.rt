use crate::asked::{Asked, read_line};
use crate::bench::Bench;
use crate::bench_error::BenchError;
use script_io::{LineError, Lines, Source};
use std::alloc::Global;

/// Does what the lines of a source ask for, up to its end.
pub fn run<S: Source>(alloc: Global, source: &mut S) -> Result<Bench, BenchError> {
    let mut bench = Bench::new(alloc)?;
    let mut lines = Lines::new(alloc);
    for _ in 0..u64::MAX {
        match next(alloc, &mut lines, source)? {
            Some(asked) => bench.step(asked)?,
            None => break,
        }
    }
    Ok(bench)
}

/// What the next line asks for, or nothing at the end of the input.
fn next<S: Source>(
    alloc: Global,
    lines: &mut Lines,
    source: &mut S,
) -> Result<Option<Asked>, BenchError> {
    match lines.next(source) {
        Ok(Some(line)) => match read_line(alloc, line) {
            Ok(asked) => Ok(Some(asked)),
            Err(error) => Err(error),
        },
        Ok(None) => Ok(None),
        Err(LineError::Long) => Err(BenchError::Line),
        Err(LineError::Past) => Err(BenchError::Input),
        Err(LineError::ReadFault) => Err(BenchError::Input),
        Err(LineError::NoMemory) => Err(BenchError::NoMemory),
    }
}
