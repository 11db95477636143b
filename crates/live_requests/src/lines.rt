//! The lines of an input, none of which takes more memory than a request may.

ghost use Rattle.std.specs.Prelude.{◌≡◌, ◌≤◌, ◌∷◌, ◌++◌, [], length, take, IfOk, MatchResult, OnOk};
ghost use Rattle.std.specs.Io.KnownBytes.{Keeps};
ghost use Rattle.live_requests.specs.Lines.{IsFound, IsTaken, TakesByte, most_of};

use std::alloc::{AllocError, Global};
use std::io;
use std::io::Read;

/// The most bytes of a request, with its LF.
pub const LINE_BYTES: usize = 65_536;

/// What stands next in an input.
#[derive(Clone, Copy, Debug, PartialEq, Eq)]
pub enum Found {
    /// A line of at most `LINE_BYTES` bytes, with its LF where it has one.
    Line,
    /// A longer line, which is passed over.
    Long,
    /// Nothing: the input has ended.
    End,
}

/// The next byte of an input, none at its end. A read that was interrupted is made again, at most 2^64 times.
fn next_byte<I: Read>(input: &mut I) -> io::Result<Option<u8>>
    ensures { MatchResult result (TakesByte (I.remaining input.old) (I.remaining input.new)) (λ _. Keeps (I.remaining input.old) (I.remaining input.new)) }
{
    let mut byte = [0u8; 1];
    for _try in 0..u64::MAX {
        match input.read(&mut byte) {
            Ok(0) => return Ok(None),
            Ok(_) => return Ok(Some(byte[0])),
            Err(fault) if fault.kind() != io::ErrorKind::Interrupted => return Err(fault),
            Err(_) => {}
        }
    }
    Err(io::Error::from(io::ErrorKind::Interrupted))
}

/// A byte of a line is put behind those before it, and passed over where these are as many as a request may have.
fn put_byte(line: &mut Vec<u8>, byte: u8) -> io::Result<()>
    requires { length line.old.items ≤ LINE_BYTES }
    ensures { OnOk result (line.new.items ≡ take LINE_BYTES (line.old.items ++ byte ∷ [])) }
{
    if line.len() < LINE_BYTES {
        line.push(byte)?;
    }
    Ok(())
}

/// The most bytes of a line before its LF, or before the input's end.
fn most_of(ended: bool) -> u64
    ensures { result ≡ most_of ended }
{
    if ended {
        LINE_BYTES as u64
    } else {
        LINE_BYTES as u64 - 1
    }
}

/// How many bytes of a line were taken off an input, its LF aside, and whether the input has ended behind them.
#[derive(Clone, Copy)]
pub(crate) struct Taken {
    count: u64,
    ended: bool,
}

/// The bytes up to the next LF are taken off an input, the LF too, or up to its end. The first of them are put into a line.
fn take_line<I: Read>(input: &mut I, line: &mut Vec<u8>) -> io::Result<Taken>
    requires { line.old.items ≡ [] }
    ensures { IfOk result (λ taken. IsTaken (I.remaining input.old) (I.remaining input.new) taken line.new.items) }
{
    for count in 0..u64::MAX {
        match next_byte(input)? {
            None => return Ok(Taken { count, ended: true }),
            Some(b'\n') => {
                return Ok(Taken {
                    count,
                    ended: false,
                });
            }
            Some(byte) => put_byte(line, byte)?,
        }
    }
    Ok(Taken {
        count: u64::MAX,
        ended: false,
    })
}

/// The lines of an input, one at a time in the same memory.
#[derive(Drop)]
pub struct Lines {
    line: Vec<u8>,
}

impl Lines {
    /// Room for a line. An error is want of memory.
    pub fn new(alloc: Global) -> Result<Lines, AllocError> {
        let line = Vec::with_capacity(alloc, LINE_BYTES)?;
        Ok(Lines { line })
    }

    /// The line that was found last, without its LF.
    pub fn line(&self) -> &[u8]
        ensures { result.now ≡ self.now.line.items }
    {
        self.line.as_slice()
    }

    /// Takes the next line off an input, with its LF, or up to the input's end. Reads no byte behind it.
    pub fn next<I: Read>(&mut self, input: &mut I) -> io::Result<Found>
        ensures { IfOk result (λ found. IsFound (I.remaining input.old) (I.remaining input.new) found self.new.line.items) }
    {
        self.line.clear();
        let taken = take_line(input, &mut self.line)?;
        if taken.count == 0 && taken.ended {
            return Ok(Found::End);
        }
        if taken.count > most_of(taken.ended) {
            return Ok(Found::Long);
        }
        Ok(Found::Line)
    }
}
