//! Replies to scripts on boards, fresh and of checkpoints, with room for them and without.

use crate::commands::checkpoints::SAVED;
use crate::commands::feeds::{LOWER, ONE_ROW, inputs_over};
use crate::commands::printed::{is_cut, is_done};
use pace::Unmetered;
use printing::Writer;
use std::alloc::{AllocError, Global};
use std::io::Cursor;
use std::test::Fail;
use vrepl_main::{ResumeInputs, resume, step};

/// The status of `step` over one feed, with its replies in `out` and its line on standard error in `err`.
fn status_of(
    alloc: Global,
    script: &[u8],
    out: &mut [u8],
    err: &mut [u8],
) -> Result<u8, AllocError> {
    let inputs = inputs_over(alloc, LOWER, script)?;
    let mut replies = Writer::new(Cursor::new(out));
    let mut line = Writer::new(Cursor::new(err));
    Ok(step(alloc, &inputs, &mut replies, &mut line))
}

/// What `step` prints into this room is a beginning of the replies.
fn replies_are_cut(alloc: Global, room: &mut [u8]) -> Result<bool, AllocError> {
    let script = b"offer 0 1\nadvance 0\nopen 0 1\ncopy 0 1\ndump\n";
    let wanted = b"read 1\napplied 1\nsnapshot 1\ncopied 1 done\ntable t\nx31\tx61\n";
    let mut err = [0u8; 64];
    let status = status_of(alloc, script, &mut room[..], &mut err)?;
    is_cut(status, &room[..], &err, wanted)
}

#[test]
fn replies_without_room(rt: HostRuntime) -> Result<(), Fail> {
    for room in [0, 1, 30, 52, 56] {
        let mut bytes = [0u8; 56];
        assert!(rt; replies_are_cut(rt.alloc(), &mut bytes[..room])?, "{room}");
    }
    Ok(())
}

/// A script of four steps and 400 dumps of one row.
fn many_dumps(alloc: Global) -> Result<Vec<u8>, AllocError> {
    let mut script = Vec::from_slice(alloc, b"open 0 0\ncopy 0 1\noffer 0 1\nadvance 0\n")?;
    for _ in 0..400 {
        script.extend_from_slice(b"dump\n")?;
    }
    Ok(script)
}

/// A write fails inside one of many dumps: what was taken is a beginning of the more than 6000 bytes of replies.
fn fails_inside_a_dump(alloc: Global) -> Result<bool, AllocError> {
    let script = many_dumps(alloc)?;
    let mut whole = [0u8; 8192];
    let mut err = [0u8; 64];
    let status = status_of(alloc, &script, &mut whole, &mut err)?;
    if status != 0 || whole[6000] == 0 {
        return is_done(status, &whole, &err, b"more than 6000 bytes");
    }
    let mut begun = [0u8; 5000];
    let status = status_of(alloc, &script, &mut begun, &mut err)?;
    is_cut(status, &begun, &err, &whole)
}

#[test]
fn output_fails_in_the_middle_of_a_dump(rt: HostRuntime) -> Result<(), Fail> {
    assert!(rt; fails_inside_a_dump(rt.alloc())?);
    Ok(())
}

/// A script goes on from a checkpoint.
fn goes_on(alloc: Global) -> Result<bool, AllocError> {
    let inputs = ResumeInputs {
        checkpoint: Vec::from_slice(alloc, SAVED)?,
        step: inputs_over(alloc, ONE_ROW, b"state 0\ndump\n")?,
    };
    let wanted =
        b"state 0 Running read 1 applied 1 snapshot none done 1 of 1 at 3e11fa47-71ca-11e1-9e33-c80aa9429562:1\n\
        table t\nx31\tx6162\n";
    let (mut out, mut err) = ([0u8; 256], [0u8; 64]);
    let mut replies = Writer::new(Cursor::new(&mut out[..]));
    let mut line = Writer::new(Cursor::new(&mut err[..]));
    let status = resume(alloc, &inputs, &Unmetered, &mut replies, &mut line);
    is_done(status, &out, &err, wanted)
}

#[test]
fn resume_of_one_row(rt: HostRuntime) -> Result<(), Fail> {
    assert!(rt; goes_on(rt.alloc())?);
    Ok(())
}
