//! A run of two streams that want the same row.

use crate::commands::feeds::{LOWER, SAME_KEY, TWO, feeds_of};
use crate::commands::printed::is_printed;
use printing::Writer;
use std::alloc::{AllocError, Global};
use std::io::Cursor;
use std::sync::Wait;
use std::test::*;
use std::thread::Threads;
use stream_worker::Policy;
use vrepl_choices::{FeedForm, Threading};
use vrepl_main::{RunCourse, RunInputs, Untold, run};

/// The run was refused with this beginning of a line, and has printed nothing; an error where memory was wanting.
fn is_refused(status: u8, out: &[u8], err: &[u8], line: &[u8]) -> Result<bool, AllocError> {
    if err.starts_with(b"refused 72\n") {
        return Err(AllocError);
    }
    Ok(status == 1 && is_printed(out, b"") && err.starts_with(line))
}

/// One stream of the two, each in a thread of its own or one after another, is refused by the other's row.
fn meets_a_foreign_row<R: Threads + Wait + Sync>(
    rt: &R,
    alloc: Global,
    threading: Threading,
    line: &[u8],
) -> Result<bool, AllocError> {
    let Some(policy) = Policy::new(1_000, 100, 4) else {
        return Ok(false);
    };
    let inputs = RunInputs {
        course: RunCourse { threading, policy },
        feed_form: FeedForm::Hex,
        workflow: Vec::from_slice(alloc, TWO.as_bytes())?,
        feeds: feeds_of(alloc, &[LOWER, SAME_KEY])?,
        until: &[],
    };
    let (mut out, mut err) = ([0u8; 64], [0u8; 64]);
    let mut dump = Writer::new(Cursor::new(&mut out[..]));
    let mut said = Writer::new(Cursor::new(&mut err[..]));
    let status = run(rt, alloc, &inputs, &Untold, &mut dump, &mut said);
    is_refused(status, &out, &err, line)
}

#[test]
fn foreign_row(rt: HostRuntime) -> Result<(), Fail> {
    let alloc = rt.alloc();
    let line = b"refused 71 table t key x31 owner 0\n";
    assert!(rt; meets_a_foreign_row(&rt, alloc, Threading::Alone, line)?);
    let line = b"refused 71 table t key x31 owner ";
    assert!(rt; meets_a_foreign_row(&rt, alloc, Threading::Parallel, line)?);
    Ok(())
}
