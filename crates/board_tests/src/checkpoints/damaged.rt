//! A checkpoint of 108 bytes that is cut, or of which one byte is another.

use crate::checkpoints::feeds::{ONE, ONE_ROW, opened_under, plans_of, resumed};
use crate::checkpoints::resumes::shows;
use apply_core::{Board, ResumeFault};
use filter_rule::Plan;
use source_feed::Feed;
use std::alloc::Global;
use std::sync::Arc;
use std::test::*;

/// One row, behind the first group.
const CHECKPOINT: &[u8; 108] =
    b"VREPLCP2c\n\x03-80\x12\\\x08\x02\x12U\n\x07\n\x02id\x10\x89\x02\n\x06\n\x01v\x10\x950\x12\x07\n\x02id\x10\x89\x02\x1a.MySQL56/3e11fa47-71ca-11e1-9e33-c80aa9429562:1\"\x09\n\x02\x02\x04\x12\x031ab\x1a\x01t";

/// Whether bytes are refused 116.
fn is_broken<'h>(alloc: Global, plans: &[Arc<Plan>], feeds: &[Feed<'h>], bytes: &[u8]) -> bool {
    match resumed(alloc, plans, feeds, bytes) {
        Some(Err(fault)) => fault.number() == 116,
        _ => false,
    }
}

/// Whether the checkpoint, cut anywhere, is so refused.
fn is_broken_cut<'h>(alloc: Global, plans: &[Arc<Plan>], feeds: &[Feed<'h>]) -> bool {
    for end in 0..CHECKPOINT.len() {
        if !is_broken(alloc, plans, feeds, &CHECKPOINT[..end]) {
            return false;
        }
    }
    true
}

/// Whether a board is one that the feed makes: of its one row, or before it is applied or copied.
fn is_of_the_feed(alloc: Global, board: &Board<'_>) -> bool {
    shows(alloc, board, b"1ab;") || shows(alloc, board, b"")
}

/// Whether a changed checkpoint is refused 116, 117 or 118, or makes a board that the feed makes.
fn is_answered(alloc: Global, ended: &Result<Board<'_>, ResumeFault>) -> bool {
    match ended {
        Ok(board) => is_of_the_feed(alloc, board),
        Err(fault) => (116..=118).contains(&fault.number()),
    }
}

/// What stands in place of a byte.
#[derive(Clone, Copy)]
enum Other {
    Zero,
    Ones,
    Next,
}

/// The other byte.
fn changed(byte: u8, other: Other) -> u8 {
    match other {
        Other::Zero => 0,
        Other::Ones => 255,
        Other::Next => byte.wrapping_add(1),
    }
}

/// Whether the checkpoint is so answered where any one of its bytes is another.
fn is_answered_changed<'h>(
    alloc: Global,
    plans: &[Arc<Plan>],
    feeds: &[Feed<'h>],
    other: Other,
) -> bool {
    let mut bytes = *CHECKPOINT;
    for at in 0..CHECKPOINT.len() {
        bytes[at] = changed(CHECKPOINT[at], other);
        match resumed(alloc, plans, feeds, &bytes) {
            Some(ended) if is_answered(alloc, &ended) => {}
            _ => return false,
        }
        bytes[at] = CHECKPOINT[at];
    }
    true
}

/// Whether the checkpoint is so answered, cut or changed.
fn is_answered_damaged<'h>(
    alloc: Global,
    plans: &[Arc<Plan>],
    feeds: &[Feed<'h>],
    other: Option<Other>,
) -> bool {
    match other {
        None => is_broken_cut(alloc, plans, feeds),
        Some(other) => is_answered_changed(alloc, plans, feeds, other),
    }
}

/// The same under the plan of one stream and over the feed of one row.
fn is_so_answered(alloc: Global, other: Option<Other>) -> bool {
    let Some(plans) = plans_of(alloc, ONE) else {
        return false;
    };
    match opened_under(alloc, &plans, (ONE_ROW, &[])) {
        Some(feeds) => is_answered_damaged(alloc, &plans, &feeds, other),
        None => false,
    }
}

#[test]
fn checkpoint_cut_anywhere(rt: HostRuntime) {
    assert!(rt; is_so_answered(rt.alloc(), None));
}

/// 0, 255, or one more in place of each byte.
#[test]
fn checkpoint_byte_changed(rt: HostRuntime) {
    for other in [Other::Zero, Other::Ones, Other::Next] {
        assert!(rt; is_so_answered(rt.alloc(), Some(other)));
    }
}
