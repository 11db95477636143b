//! Groups of touches that stand in a test, and what they leave in a map.

use key_front::Fronted;
use std::alloc::{AllocError, Global};
use std::test::Fail;
use target_tables::*;

/// Touches of one stream, the key and the owner of the row in the way where they are refused, and all entries
/// behind them.
pub struct Group<K: 'static, R: 'static> {
    pub stream: u8,
    pub touches: &'static [(K, Option<R>)],
    pub refused: Option<(K, u8)>,
    pub left: &'static [(K, u8, R)],
}

/// Applies a stream's touches; the key and the owner of the row that is in the way, if one is.
pub fn touch<K: Fronted + Clone + Drop, R: Clone + Drop>(
    alloc: Global,
    tables: &mut Tables<K, R>,
    stream: u8,
    touches: &[(K, Option<R>)],
) -> Result<Option<(K, u8)>, AllocError> {
    match tables.apply(alloc, stream, touches.to_vec(alloc)?) {
        Ok(_) => Ok(None),
        Err(TableFault::OwnedByOther { key, owner }) => Ok(Some((key, owner))),
        Err(TableFault::Memory) => Err(AllocError),
    }
}

/// Whether these are all entries, in order.
pub fn holds<K: Fronted, R: PartialEq>(tables: &Tables<K, R>, wanted: &[(K, u8, R)]) -> bool {
    let mut left = wanted.iter();
    for (key, stream, row) in tables.iter() {
        match left.next() {
            Some(entry) if entry.0 == *key && entry.1 == stream && entry.2 == *row => {}
            _ => return false,
        }
    }
    left.next().is_none()
}

/// Whether these are the keys, in order.
pub fn are_keys<K: Fronted, R>(scan: Scan<'_, K, R>, wanted: &[K]) -> bool {
    let mut left = wanted.iter();
    for (key, _, _) in scan {
        match left.next() {
            Some(next) if next == key => {}
            _ => return false,
        }
    }
    left.next().is_none()
}

/// Whether the group is refused as wanted, and leaves these entries.
pub fn leaves<K: Fronted + Clone + Drop, R: PartialEq + Clone + Drop>(
    alloc: Global,
    tables: &mut Tables<K, R>,
    group: &Group<K, R>,
) -> Result<bool, AllocError> {
    let refused = touch(alloc, tables, group.stream, group.touches)?;
    Ok(refused == group.refused && holds(tables, group.left))
}

/// Whether the groups, on an empty map and one after another, are each refused as wanted and leave these entries.
pub fn follow<K: Fronted + Clone + Drop, R: PartialEq + Clone + Drop>(
    alloc: Global,
    groups: &[Group<K, R>],
) -> Result<bool, AllocError> {
    let mut tables = Tables::new(alloc);
    for group in groups {
        if !leaves(alloc, &mut tables, group)? {
            return Ok(false);
        }
    }
    Ok(true)
}

/// Whether these are the last touches of some keys, by falling key.
fn are_last(
    alloc: Global,
    touches: &[(u64, Option<u32>)],
    wanted: &[(u64, Option<u32>)],
) -> Result<bool, AllocError> {
    let last = last_touches(alloc, touches.to_vec(alloc)?)?;
    Ok(last.as_slice() == wanted)
}

/// A key that is touched three times, one that is taken away last, and one that comes again.
const TOUCHED: &[(u64, Option<u32>)] = &[
    (3, Some(1)),
    (7, Some(2)),
    (3, None),
    (5, None),
    (3, Some(4)),
    (7, None),
    (5, Some(6)),
];

#[test]
fn last_touches_of_each_key(rt: HostRuntime) -> Result<(), Fail> {
    assert!(rt;
        are_last(
            rt.alloc(),
            TOUCHED,
            &[(7, None), (5, Some(6)), (3, Some(4))]
        )? && are_last(rt.alloc(), &[], &[])?
    );
    Ok(())
}
