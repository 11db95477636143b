//! Inputs, read to their end.

use std::alloc::{AllocError, Global};
use std::io;
use std::io::Read;
use std::test::Fail;
use vrepl_main::{InputFault, read_whole, read_within};

/// Whether there were bytes in place of a fault; an error where memory was wanting.
fn is_there(read: Result<Vec<u8>, InputFault>) -> Result<bool, AllocError> {
    match read {
        Ok(_) => Ok(true),
        Err(InputFault::CannotRead) => Ok(false),
        Err(InputFault::Memory) => Err(AllocError),
    }
}

/// Three bytes are read whole.
fn reads_abc(alloc: Global) -> Result<bool, AllocError> {
    match read_whole(alloc, &mut b"abc".as_slice()) {
        Ok(bytes) => Ok(bytes.as_slice() == b"abc".as_slice()),
        Err(fault) => is_there(Err(fault)),
    }
}

#[test]
fn reads_an_input_to_its_end(rt: HostRuntime) -> Result<(), Fail> {
    assert!(rt; reads_abc(rt.alloc())?);
    Ok(())
}

#[test]
fn gives_up_an_input_without_end(rt: HostRuntime) -> Result<(), Fail> {
    assert!(rt; !is_there(read_within(rt.alloc(), &mut io::repeat(7), 3))?);
    Ok(())
}

#[test]
fn the_end_counts_as_a_read(rt: HostRuntime) -> Result<(), Fail> {
    for reads in 0..3 {
        let is_read = is_there(read_within(rt.alloc(), &mut b"abc".as_slice(), reads))?;
        assert!(rt; is_read == (reads == 2), "{reads} reads");
    }
    Ok(())
}

/// A reader whose second read fails, and which then goes on as if nothing had happened.
#[derive(Drop)]
struct Failing {
    reads: u32,
}

impl Read for Failing {
    fn read(&mut self, buf: &mut [u8]) -> io::Result<usize> {
        self.reads = self.reads.saturating_add(1);
        if self.reads == 2 {
            return Err(io::ErrorKind::ConnectionReset.into());
        }
        if self.reads > 3 || buf.is_empty() {
            return Ok(0);
        }
        buf[0] = b'a';
        Ok(1)
    }
}

/// Such a reader is given up at its second read.
fn stops_at_the_failed_read(alloc: Global) -> Result<bool, AllocError> {
    let mut input = Failing { reads: 0 };
    let is_read = is_there(read_whole(alloc, &mut input))?;
    Ok(!is_read && input.reads == 2)
}

#[test]
fn stops_at_a_failed_read(rt: HostRuntime) -> Result<(), Fail> {
    assert!(rt; stops_at_the_failed_read(rt.alloc())?);
    Ok(())
}
