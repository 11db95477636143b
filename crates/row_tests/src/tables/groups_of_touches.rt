//! Groups of touches on a map, one after another, and what is staged of them.

use crate::tables::touching::{Group, follow, holds, leaves};
use std::alloc::{AllocError, Global};
use std::test::*;
use target_tables::*;

/// Stream 0 has rows at 2 and 4.
const TWO_ROWS: Group<u64, u32> = Group {
    stream: 0,
    touches: &[(4, Some(40)), (2, Some(20))],
    refused: None,
    left: &[(2, 0, 20), (4, 0, 40)],
};

const THE_LAST_TOUCH_OF_A_KEY: &[Group<u64, u32>] = &[
    TWO_ROWS,
    Group {
        stream: 0,
        touches: &[
            (2, None),
            (3, Some(30)),
            (2, Some(21)),
            (3, None),
            (5, Some(50)),
            (5, Some(51)),
        ],
        refused: None,
        left: &[(2, 0, 21), (4, 0, 40), (5, 0, 51)],
    },
];

#[test]
fn the_last_touch_of_a_key_counts(rt: HostRuntime) -> Result<(), Fail> {
    assert!(rt; follow(rt.alloc(), THE_LAST_TOUCH_OF_A_KEY)?);
    Ok(())
}

const GROUPS_BETWEEN_ROWS: &[Group<u64, u32>] = &[
    TWO_ROWS,
    Group {
        stream: 1,
        touches: &[(1, Some(11)), (3, Some(31)), (5, Some(51)), (6, Some(61))],
        refused: None,
        left: &[
            (1, 1, 11),
            (2, 0, 20),
            (3, 1, 31),
            (4, 0, 40),
            (5, 1, 51),
            (6, 1, 61),
        ],
    },
    Group {
        stream: 1,
        touches: &[
            (0, Some(1)),
            (3, None),
            (5, Some(52)),
            (7, Some(71)),
            (8, Some(81)),
        ],
        refused: None,
        left: &[
            (0, 1, 1),
            (1, 1, 11),
            (2, 0, 20),
            (4, 0, 40),
            (5, 1, 52),
            (6, 1, 61),
            (7, 1, 71),
            (8, 1, 81),
        ],
    },
];

#[test]
fn rows_of_a_group_fall_between_those_of_a_page(rt: HostRuntime) -> Result<(), Fail> {
    assert!(rt; follow(rt.alloc(), GROUPS_BETWEEN_ROWS)?);
    Ok(())
}

const A_REFUSED_GROUP: &[Group<u64, u32>] = &[
    TWO_ROWS,
    Group {
        stream: 1,
        touches: &[
            (1, Some(11)),
            (4, Some(41)),
            (2, None),
            (2, Some(21)),
            (9, None),
        ],
        refused: Some((2, 0)),
        left: &[(2, 0, 20), (4, 0, 40)],
    },
];

#[test]
fn a_refused_group_changes_nothing(rt: HostRuntime) -> Result<(), Fail> {
    assert!(rt; follow(rt.alloc(), A_REFUSED_GROUP)?);
    Ok(())
}

/// Stream 1 can take away the row at 2 and put one at 4 that it then takes away, and stream 0 its own.
const A_FOREIGN_ROW: &[Group<u64, u32>] = &[
    TWO_ROWS,
    Group {
        stream: 1,
        touches: &[(2, None), (3, Some(31)), (4, Some(41)), (4, None)],
        refused: None,
        left: &[(2, 0, 20), (3, 1, 31), (4, 0, 40)],
    },
    Group {
        stream: 0,
        touches: &[(4, None)],
        refused: None,
        left: &[(2, 0, 20), (3, 1, 31)],
    },
];

#[test]
fn nothing_leaves_a_foreign_row(rt: HostRuntime) -> Result<(), Fail> {
    assert!(rt; follow(rt.alloc(), A_FOREIGN_ROW)?);
    Ok(())
}

/// Stream 1 can put no row at a key where stream 0 has one, takes away none there, and may put one that
/// it takes away again; stream 0 may take its row away and put another.
const BESIDE_A_FOREIGN_ROW: &[Group<u64, u32>] = &[
    Group {
        stream: 0,
        touches: &[(1, Some(10))],
        refused: None,
        left: &[(1, 0, 10)],
    },
    Group {
        stream: 1,
        touches: &[(2, Some(26)), (1, Some(26))],
        refused: Some((1, 0)),
        left: &[(1, 0, 10)],
    },
    Group {
        stream: 1,
        touches: &[(1, None)],
        refused: None,
        left: &[(1, 0, 10)],
    },
    Group {
        stream: 1,
        touches: &[(1, Some(26)), (1, None)],
        refused: None,
        left: &[(1, 0, 10)],
    },
    Group {
        stream: 0,
        touches: &[(1, None), (1, Some(11))],
        refused: None,
        left: &[(1, 0, 11)],
    },
];

/// Whether the group, staged and then committed, is refused as wanted, or waits for its commit; and then leaves
/// these entries.
fn waits(
    alloc: Global,
    tables: &mut Tables<u64, u32>,
    before: &[(u64, u8, u32)],
    group: &Group<u64, u32>,
) -> Result<bool, AllocError> {
    match tables.stage(alloc, group.stream, group.touches.to_vec(alloc)?) {
        Err(TableFault::Memory) => Err(AllocError),
        Err(TableFault::OwnedByOther { key, owner }) => {
            Ok(group.refused == Some((key, owner)) && holds(tables, group.left))
        }
        Ok(staged) => {
            let waits = holds(tables, before);
            drop(tables.commit(staged));
            Ok(waits && group.refused.is_none() && holds(tables, group.left))
        }
    }
}

/// Whether the groups, each staged and then committed, follow one another as wanted.
fn wait(alloc: Global, groups: &[Group<u64, u32>]) -> Result<bool, AllocError> {
    let mut tables = Tables::new(alloc);
    let mut before: &[(u64, u8, u32)] = &[];
    for group in groups {
        if !waits(alloc, &mut tables, before, group)? {
            return Ok(false);
        }
        before = group.left;
    }
    Ok(true)
}

#[test]
fn stage_beside_foreign_row(rt: HostRuntime) -> Result<(), Fail> {
    assert!(rt;
        follow(rt.alloc(), BESIDE_A_FOREIGN_ROW)? && wait(rt.alloc(), BESIDE_A_FOREIGN_ROW)?
    );
    Ok(())
}

const STAGED: &[Group<u64, u32>] = &[Group {
    stream: 2,
    touches: &[(7, Some(70)), (5, Some(50))],
    refused: None,
    left: &[(5, 2, 50), (7, 2, 70)],
}];

#[test]
fn staged_touches_wait_for_their_commit(rt: HostRuntime) -> Result<(), Fail> {
    assert!(rt; wait(rt.alloc(), STAGED)?);
    Ok(())
}
