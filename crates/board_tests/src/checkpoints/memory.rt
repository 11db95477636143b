//! Saving and resuming without memory: the call says so, the board is as it was, and the same call is then answered
//! as it would have been. Each test stands for one run for each growth that it asks for, in which that growth is
//! refused.

use crate::checkpoints::feeds::{LOWER, TWO, UPPER, opened_under, plans_of, resumed};
use apply_core::{Board, save};
use filter_rule::Plan;
use source_feed::Feed;
use std::alloc::{AllocError, Global};
use std::sync::Arc;
use std::test::*;

/// Two streams behind their first groups.
const SAVED: &[u8] =
    b"VREPLCP2b\n\x03-80\x12[\x08\x02\x12T\n\x07\n\x02id\x10\x89\x02\n\x06\n\x01v\x10\x950\x12\x07\n\x02id\x10\x89\x02\x1a.MySQL56/3e11fa47-71ca-11e1-9e33-c80aa9429562:1\"\x08\n\x02\x02\x02\x12\x021a\x1a\x01tb\n\x0380-\x12[\x08\x02\x12T\n\x07\n\x02id\x10\x89\x02\n\x06\n\x01v\x10\x950\x12\x07\n\x02id\x10\x89\x02\x1a.MySQL56/3e11fa47-71ca-11e1-9e33-c80aa9429563:1\"\x08\n\x02\x02\x02\x12\x022b\x1a\x01t";

/// Whether a board is saved as these bytes, also where the first call found no memory.
fn is_saved_as(alloc: Global, board: &Board<'_>, wanted: &[u8]) -> Result<bool, AllocError> {
    match save(alloc, board) {
        Ok(bytes) => Ok(bytes.as_slice() == wanted),
        Err(_) => Ok(save(alloc, board)?.as_slice() == wanted),
    }
}

/// The board of a checkpoint, none where another refusal than for want of memory comes; an error is that.
fn board_of<'h>(
    alloc: Global,
    plans: &[Arc<Plan>],
    feeds: &[Feed<'h>],
    bytes: &[u8],
) -> Result<Option<Board<'h>>, AllocError> {
    match resumed(alloc, plans, feeds, bytes) {
        Some(Ok(board)) => Ok(Some(board)),
        Some(Err(fault)) if fault.number() == 72 => Err(AllocError),
        _ => Ok(None),
    }
}

/// The same, where the first call may find no memory.
fn board_of_again<'h>(
    alloc: Global,
    plans: &[Arc<Plan>],
    feeds: &[Feed<'h>],
    bytes: &[u8],
) -> Result<Option<Board<'h>>, AllocError> {
    match board_of(alloc, plans, feeds, bytes) {
        Ok(board) => Ok(board),
        Err(_) => board_of(alloc, plans, feeds, bytes),
    }
}

/// Whether a checkpoint makes a board that is saved as it.
fn comes_back<'h>(
    alloc: Global,
    plans: &[Arc<Plan>],
    feeds: &[Feed<'h>],
    bytes: &[u8],
) -> Result<bool, AllocError> {
    match board_of_again(alloc, plans, feeds, bytes)? {
        Some(board) => is_saved_as(alloc, &board, bytes),
        None => Ok(false),
    }
}

/// Whether the checkpoint of two streams does.
fn two_streams_come_back(alloc: Global) -> Result<bool, AllocError> {
    let Some(plans) = plans_of(alloc, TWO) else {
        return Err(AllocError);
    };
    match opened_under(alloc, &plans, (LOWER, UPPER)) {
        Some(feeds) => comes_back(alloc, &plans, &feeds, SAVED),
        None => Err(AllocError),
    }
}

#[test]
fn save_and_resume_without_memory(rt: HostRuntime) -> Result<(), Fail> {
    assert!(rt; two_streams_come_back(rt.alloc())?);
    Ok(())
}
