//! Boards joined whose streams copy at different images, and how they go on.

use crate::boards::copying_joins::{Case, THREE_GROUPS, join_over};
use crate::boards::feeds::Change;
use crate::boards::setup::TWO;
use std::test::*;
use stream_core::Step;

/// Two groups of another source than the three, at other keys: three new rows; one changed and one new.
const OTHER_GROUPS: &[&[Change]] = &[
    &[
        (None, Some((11, b'k'))),
        (None, Some((12, b'l'))),
        (None, Some((13, b'm'))),
    ],
    &[
        (Some((11, b'k')), Some((11, b'z'))),
        (None, Some((14, b'n'))),
    ],
];

/// Both in part.
const BOTH_IN_PART: Case<'static> = (
    &[
        (0, Step::Offer(1)),
        (0, Step::Advance),
        (0, Step::OpenAt(1)),
        (0, Step::CopyRows(1)),
    ],
    &[
        (1, Step::Offer(1)),
        (1, Step::Advance),
        (1, Step::OpenAt(1)),
        (1, Step::CopyRows(2)),
    ],
    &[
        (0, Step::Offer(1)),
        (0, Step::Advance),
        (0, Step::OpenAt(1)),
        (0, Step::CopyRows(1)),
        (1, Step::Offer(1)),
        (1, Step::Advance),
        (1, Step::OpenAt(1)),
        (1, Step::CopyRows(2)),
    ],
    &[(1, Step::CopyRows(9)), (0, Step::CopyRows(9))],
    b"table t\nx31\tx61\nx32\tx62\nx33\tx63\nx3131\tx6b\nx3132\tx6c\nx3133\tx6d\n",
);

/// At other groups: the one's image before its snapshot, the other's at it.
const AT_OTHER_GROUPS: Case<'static> = (
    &[
        (0, Step::Offer(1)),
        (0, Step::Advance),
        (0, Step::Offer(2)),
        (0, Step::OpenAt(2)),
        (1, Step::Offer(1)),
        (1, Step::OpenAt(0)),
    ],
    &[
        (0, Step::Offer(1)),
        (0, Step::OpenAt(1)),
        (1, Step::Offer(1)),
        (1, Step::Offer(2)),
        (1, Step::Advance),
        (1, Step::Advance),
        (1, Step::OpenAt(2)),
    ],
    &[
        (0, Step::Offer(1)),
        (0, Step::Advance),
        (0, Step::Offer(2)),
        (0, Step::OpenAt(2)),
        (1, Step::Offer(1)),
        (1, Step::Offer(2)),
        (1, Step::Advance),
        (1, Step::Advance),
        (1, Step::OpenAt(2)),
    ],
    &[
        (1, Step::CopyRows(3)),
        (0, Step::Advance),
        (0, Step::CopyRows(3)),
        (1, Step::CopyRows(3)),
        (0, Step::CopyRows(3)),
    ],
    b"table t\nx31\tx78\nx32\tx62\nx33\tx63\nx34\tx64\nx3131\tx7a\nx3132\tx6c\nx3133\tx6d\nx3134\tx6e\n",
);

/// One Running with a list that is read ahead, the other within its table.
const RUNNING_AND_WITHIN: Case<'static> = (
    &[
        (0, Step::OpenAt(0)),
        (0, Step::CopyRows(1)),
        (0, Step::Offer(1)),
        (0, Step::Offer(2)),
        (0, Step::Advance),
    ],
    &[
        (0, Step::Offer(1)),
        (0, Step::Advance),
        (0, Step::OpenAt(1)),
        (0, Step::CopyRows(2)),
        (1, Step::Offer(1)),
        (1, Step::Advance),
        (1, Step::OpenAt(1)),
        (1, Step::CopyRows(1)),
        (1, Step::Close),
        (1, Step::Offer(2)),
    ],
    &[
        (0, Step::OpenAt(0)),
        (0, Step::CopyRows(1)),
        (0, Step::Offer(1)),
        (0, Step::Offer(2)),
        (0, Step::Advance),
        (1, Step::Offer(1)),
        (1, Step::Advance),
        (1, Step::OpenAt(1)),
        (1, Step::CopyRows(1)),
        (1, Step::Close),
        (1, Step::Offer(2)),
    ],
    &[
        (1, Step::OpenAt(2)),
        (1, Step::Advance),
        (0, Step::Advance),
        (1, Step::CopyRows(2)),
    ],
    b"table t\nx31\tx78\nx32\tx62\nx33\tx63\nx34\tx64\nx3131\tx7a\nx3132\tx6c\nx3133\tx6d\n",
);

/// Each of two streams copies on one board, and waits or has another image on the other one: the rows that
/// are left come from the image that was chosen.
#[test]
fn chunks_behind_a_join(rt: HostRuntime) {
    assert!(rt;
        join_over(
            rt.alloc(),
            TWO,
            &[(b'2', THREE_GROUPS), (b'3', OTHER_GROUPS)],
            &[BOTH_IN_PART, AT_OTHER_GROUPS, RUNNING_AND_WITHIN]
        )
    );
}
