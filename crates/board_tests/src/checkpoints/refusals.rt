//! Checkpoints that aren't resumed: each refusal, and their order.

use crate::checkpoints::feeds::{
    Feeds, LOWER, ONE, ONE_ROW, OTHER_TABLE, TWO, TWO_ROWS, UNSOUND, UPPER, feeds_of, plans_of,
    resumed,
};
use apply_core::ResumeFault;
use pk_copy::{Key, KeyPart};
use std::alloc::Global;
use std::test::*;

/// The number of a refusal, the stream that it names, and the number in its key.
type Refused = (u8, Option<u8>, Option<i128>);

/// The number that a key is of.
fn number_of(key: &Key) -> Option<i128> {
    match key.view().parts() {
        [KeyPart::Number(number)] => Some(*number),
        _ => None,
    }
}

/// What a refusal says.
fn said(fault: &ResumeFault) -> Refused {
    match fault {
        ResumeFault::PositionUnknown(s) => (fault.number(), Some(*s), None),
        ResumeFault::CheckpointDiffers { stream, key } => (
            fault.number(),
            Some(*stream),
            number_of(key),
        ),
        ResumeFault::OwnedByOther { key, owner } => (fault.number(), Some(*owner), number_of(key)),
        _ => (fault.number(), None, None),
    }
}

/// A checkpoint that isn't resumed: the workflow of the plans and the one that the feeds are opened under, the
/// feeds, its bytes, and what its refusal says.
type Case<'c> = (&'c [u8], &'c [u8], Feeds<'c>, &'c [u8], Refused);

/// Whether a checkpoint is refused so.
fn is_refused(alloc: Global, case: &Case<'_>) -> bool {
    let Some(plans) = plans_of(alloc, case.0) else {
        return false;
    };
    let Some(feeds) = feeds_of(alloc, case.1, case.2) else {
        return false;
    };
    match resumed(alloc, &plans, &feeds, case.3) {
        Some(Err(fault)) => said(&fault) == case.4,
        _ => false,
    }
}

/// Whether each of these is.
fn are_refused(alloc: Global, cases: &[Case<'_>]) -> bool {
    for case in cases {
        if !is_refused(alloc, case) {
            return false;
        }
    }
    true
}

/// No group has the position, since there is none.
#[test]
fn resume_over_an_empty_feed(rt: HostRuntime) {
    let cases: &[Case<'_>] = &[(
        ONE,
        ONE,
        (&[], &[]),
        b"VREPLCP1`\n\x03-80\x12Y\x08\x02\x12U\n\x07\n\x02id\x10\x89\x02\n\x06\n\x01v\x10\x950\x12\x07\n\x02id\x10\x89\x02\x1a.MySQL56/3e11fa47-71ca-11e1-9e33-c80aa9429562:1\"\x09\n\x02\x02\x04\x12\x031ab",
        (118, Some(0), None),
    )];
    assert!(rt; are_refused(rt.alloc(), cases));
}

/// The value `ac` in place of `ab`.
#[test]
fn checkpoint_row_changed(rt: HostRuntime) {
    let cases: &[Case<'_>] = &[(
        ONE,
        ONE,
        (ONE_ROW, &[]),
        b"VREPLCP1`\n\x03-80\x12Y\x08\x02\x12U\n\x07\n\x02id\x10\x89\x02\n\x06\n\x01v\x10\x950\x12\x07\n\x02id\x10\x89\x02\x1a.MySQL56/3e11fa47-71ca-11e1-9e33-c80aa9429562:1\"\x09\n\x02\x02\x04\x12\x031ac",
        (117, Some(0), Some(1)),
    )];
    assert!(rt; are_refused(rt.alloc(), cases));
}

/// 118 of the least stream, and before 117.
#[test]
fn unknown_positions(rt: HostRuntime) {
    let cases: &[Case<'_>] = &[
        (
            TWO,
            TWO,
            (LOWER, UPPER),
            b"VREPLCP1_\n\x03-80\x12X\x08\x02\x12T\n\x07\n\x02id\x10\x89\x02\n\x06\n\x01v\x10\x950\x12\x07\n\x02id\x10\x89\x02\x1a.MySQL56/3e11fa47-71ca-11e1-9e33-c80aa9429562:1\"\x08\n\x02\x02\x02\x12\x021z_\n\x0380-\x12X\x08\x02\x12T\n\x07\n\x02id\x10\x89\x02\n\x06\n\x01v\x10\x950\x12\x07\n\x02id\x10\x89\x02\x1a.MySQL56/3e11fa47-71ca-11e1-9e33-c80aa9429563:7\"\x08\n\x02\x02\x02\x12\x022b",
            (118, Some(1), None),
        ),
        (
            TWO,
            TWO,
            (LOWER, UPPER),
            b"VREPLCP1_\n\x03-80\x12X\x08\x02\x12T\n\x07\n\x02id\x10\x89\x02\n\x06\n\x01v\x10\x950\x12\x07\n\x02id\x10\x89\x02\x1a.MySQL56/3e11fa47-71ca-11e1-9e33-c80aa9429562:5\"\x08\n\x02\x02\x02\x12\x021a_\n\x0380-\x12X\x08\x02\x12T\n\x07\n\x02id\x10\x89\x02\n\x06\n\x01v\x10\x950\x12\x07\n\x02id\x10\x89\x02\x1a.MySQL56/3e11fa47-71ca-11e1-9e33-c80aa9429563:7\"\x08\n\x02\x02\x02\x12\x022b",
            (118, Some(0), None),
        ),
    ];
    assert!(rt; are_refused(rt.alloc(), cases));
}

/// 90 behind 118 and before 117; a group behind the position may be unsound.
#[test]
fn an_unsound_group_up_to_the_position(rt: HostRuntime) {
    let cases: &[Case<'_>] = &[
        (
            TWO,
            TWO,
            (LOWER, UNSOUND),
            b"VREPLCP1_\n\x03-80\x12X\x08\x02\x12T\n\x07\n\x02id\x10\x89\x02\n\x06\n\x01v\x10\x950\x12\x07\n\x02id\x10\x89\x02\x1a.MySQL56/3e11fa47-71ca-11e1-9e33-c80aa9429562:1\"\x08\n\x02\x02\x02\x12\x021za\n\x0380-\x12Z\x08\x02\x12V\n\x07\n\x02id\x10\x89\x02\n\x06\n\x01v\x10\x950\x12\x07\n\x02id\x10\x89\x02\x1a0MySQL56/3e11fa47-71ca-11e1-9e33-c80aa9429563:1-2\"\x08\n\x02\x02\x02\x12\x022b",
            (90, None, None),
        ),
        (
            TWO,
            TWO,
            (LOWER, UNSOUND),
            b"VREPLCP1_\n\x03-80\x12X\x08\x02\x12T\n\x07\n\x02id\x10\x89\x02\n\x06\n\x01v\x10\x950\x12\x07\n\x02id\x10\x89\x02\x1a.MySQL56/3e11fa47-71ca-11e1-9e33-c80aa9429562:5\"\x08\n\x02\x02\x02\x12\x021aa\n\x0380-\x12Z\x08\x02\x12V\n\x07\n\x02id\x10\x89\x02\n\x06\n\x01v\x10\x950\x12\x07\n\x02id\x10\x89\x02\x1a0MySQL56/3e11fa47-71ca-11e1-9e33-c80aa9429563:1-2\"\x08\n\x02\x02\x02\x12\x022b",
            (118, Some(0), None),
        ),
        (
            TWO,
            TWO,
            (LOWER, UNSOUND),
            b"VREPLCP1_\n\x03-80\x12X\x08\x02\x12T\n\x07\n\x02id\x10\x89\x02\n\x06\n\x01v\x10\x950\x12\x07\n\x02id\x10\x89\x02\x1a.MySQL56/3e11fa47-71ca-11e1-9e33-c80aa9429562:1\"\x08\n\x02\x02\x02\x12\x021z_\n\x0380-\x12X\x08\x02\x12T\n\x07\n\x02id\x10\x89\x02\n\x06\n\x01v\x10\x950\x12\x07\n\x02id\x10\x89\x02\x1a.MySQL56/3e11fa47-71ca-11e1-9e33-c80aa9429563:1\"\x08\n\x02\x02\x02\x12\x022b",
            (117, Some(0), Some(1)),
        ),
    ];
    assert!(rt; are_refused(rt.alloc(), cases));
}

/// The least key: of a row that is another one, that no group left, and that is missing. The least stream.
#[test]
fn rows_that_differ(rt: HostRuntime) {
    let cases: &[Case<'_>] = &[
        (
            ONE,
            ONE,
            (TWO_ROWS, &[]),
            b"VREPLCP1u\n\x03-80\x12n\x08\x02\x12j\n\x07\n\x02id\x10\x89\x02\n\x06\n\x01v\x10\x950\x12\x07\n\x02id\x10\x89\x02\x1a0MySQL56/3e11fa47-71ca-11e1-9e33-c80aa9429562:1-2\"\x08\n\x02\x02\x02\x12\x021a\"\x08\n\x02\x02\x02\x12\x022x\"\x08\n\x02\x02\x02\x12\x023x",
            (117, Some(0), Some(2)),
        ),
        (
            ONE,
            ONE,
            (TWO_ROWS, &[]),
            b"VREPLCP1}\n\x03-80\x12v\x08\x02\x12r\n\x07\n\x02id\x10\x89\x02\n\x06\n\x01v\x10\x950\x12\x07\n\x02id\x10\x89\x02\x1a.MySQL56/3e11fa47-71ca-11e1-9e33-c80aa9429562:1\"\x08\n\x02\x02\x02\x12\x021a\"\x08\n\x02\x02\x02\x12\x022b\"\x08\n\x02\x02\x02\x12\x024d\"\x08\n\x02\x02\x02\x12\x025e",
            (117, Some(0), Some(4)),
        ),
        (
            ONE,
            ONE,
            (TWO_ROWS, &[]),
            b"VREPLCP1a\n\x03-80\x12Z\x08\x02\x12V\n\x07\n\x02id\x10\x89\x02\n\x06\n\x01v\x10\x950\x12\x07\n\x02id\x10\x89\x02\x1a0MySQL56/3e11fa47-71ca-11e1-9e33-c80aa9429562:1-2\"\x08\n\x02\x02\x02\x12\x021a",
            (117, Some(0), Some(2)),
        ),
        (
            TWO,
            TWO,
            (LOWER, UPPER),
            b"VREPLCP1_\n\x03-80\x12X\x08\x02\x12T\n\x07\n\x02id\x10\x89\x02\n\x06\n\x01v\x10\x950\x12\x07\n\x02id\x10\x89\x02\x1a.MySQL56/3e11fa47-71ca-11e1-9e33-c80aa9429562:1\"\x08\n\x02\x02\x02\x12\x021z_\n\x0380-\x12X\x08\x02\x12T\n\x07\n\x02id\x10\x89\x02\n\x06\n\x01v\x10\x950\x12\x07\n\x02id\x10\x89\x02\x1a.MySQL56/3e11fa47-71ca-11e1-9e33-c80aa9429563:1\"\x08\n\x02\x02\x02\x12\x022z",
            (117, Some(0), Some(1)),
        ),
    ];
    assert!(rt; are_refused(rt.alloc(), cases));
}

/// Rows of a table that waits, and behind its mark.
#[test]
fn rows_that_are_not_copied(rt: HostRuntime) {
    let cases: &[Case<'_>] = &[
        (
            ONE,
            ONE,
            (TWO_ROWS, &[]),
            b"VREPLCP1]\n\x03-80\x12V\x12T\n\x07\n\x02id\x10\x89\x02\n\x06\n\x01v\x10\x950\x12\x07\n\x02id\x10\x89\x02\x1a.MySQL56/3e11fa47-71ca-11e1-9e33-c80aa9429562:1\"\x08\n\x02\x02\x02\x12\x021a",
            (117, Some(0), Some(1)),
        ),
        (
            ONE,
            ONE,
            (TWO_ROWS, &[]),
            b"VREPLCP1q\n\x03-80\x12j\x08\x01\x12f\n\x07\n\x02id\x10\x89\x02\n\x06\n\x01v\x10\x950\x12\x07\n\x02id\x10\x89\x02\x1a.MySQL56/3e11fa47-71ca-11e1-9e33-c80aa9429562:1\"\x08\n\x02\x02\x02\x12\x021a\"\x08\n\x02\x02\x02\x12\x022b*\x06\n\x01\x02\x12\x011",
            (117, Some(0), Some(2)),
        ),
    ];
    assert!(rt; are_refused(rt.alloc(), cases));
}

/// Both streams have a row at the key 1; 117 comes before.
#[test]
fn two_streams_at_one_key(rt: HostRuntime) {
    let cases: &[Case<'_>] = &[
        (
            TWO,
            TWO,
            (LOWER, UPPER),
            b"VREPLCP1_\n\x03-80\x12X\x08\x02\x12T\n\x07\n\x02id\x10\x89\x02\n\x06\n\x01v\x10\x950\x12\x07\n\x02id\x10\x89\x02\x1a.MySQL56/3e11fa47-71ca-11e1-9e33-c80aa9429562:1\"\x08\n\x02\x02\x02\x12\x021ak\n\x0380-\x12d\x08\x02\x12`\n\x07\n\x02id\x10\x89\x02\n\x06\n\x01v\x10\x950\x12\x07\n\x02id\x10\x89\x02\x1a0MySQL56/3e11fa47-71ca-11e1-9e33-c80aa9429563:1-2\"\x08\n\x02\x02\x02\x12\x021c\"\x08\n\x02\x02\x02\x12\x022b",
            (71, Some(0), Some(1)),
        ),
        (
            TWO,
            TWO,
            (LOWER, UPPER),
            b"VREPLCP1_\n\x03-80\x12X\x08\x02\x12T\n\x07\n\x02id\x10\x89\x02\n\x06\n\x01v\x10\x950\x12\x07\n\x02id\x10\x89\x02\x1a.MySQL56/3e11fa47-71ca-11e1-9e33-c80aa9429562:1\"\x08\n\x02\x02\x02\x12\x021ak\n\x0380-\x12d\x08\x02\x12`\n\x07\n\x02id\x10\x89\x02\n\x06\n\x01v\x10\x950\x12\x07\n\x02id\x10\x89\x02\x1a0MySQL56/3e11fa47-71ca-11e1-9e33-c80aa9429563:1-2\"\x08\n\x02\x02\x02\x12\x021c\"\x08\n\x02\x02\x02\x12\x022z",
            (117, Some(1), Some(2)),
        ),
    ];
    assert!(rt; are_refused(rt.alloc(), cases));
}

/// 119 before 111, and 111 before 116.
#[test]
fn feeds_before_bytes(rt: HostRuntime) {
    let cases: &[Case<'_>] = &[
        (TWO, ONE, (&[], &[]), b"", (119, None, None)),
        (OTHER_TABLE, ONE, (&[], &[]), b"", (111, None, None)),
        (ONE, ONE, (&[], &[]), b"", (116, None, None)),
    ];
    assert!(rt; are_refused(rt.alloc(), cases));
}
