//! Messages of a feed as they are written, behind what stands there.

use feed_bytes::{write_inserts, write_message};
use row_view::RowBytes;
use std::alloc::{AllocError, Global};

/// A BEGIN and a COMMIT.
const ENDS: &[&[u8]] = &[b"\x08\x02", b"\x08\x03"];

/// The rows (1, `ab`) and (2, NULL).
const FIRST: &[u8] = b"\x0a\x02\x02\x04\x12\x031ab";

const SECOND: &[u8] = b"\x0a\x02\x02\x01\x12\x012";

/// A message with these events behind a byte.
fn is_message(alloc: Global, events: &[&[u8]], wanted: &[u8]) -> Result<bool, AllocError> {
    let mut out = Vec::new(alloc);
    out.push(7)?;
    write_message(&mut out, events)?;
    Ok(out.as_slice() == wanted)
}

/// A message that inserts these rows into the table `t`, behind a byte.
fn is_insert(alloc: Global, rows: &[&[u8]], wanted: &[u8]) -> Result<bool, AllocError> {
    let mut read = Vec::new(alloc);
    for row in rows {
        match RowBytes::read(row) {
            Ok(row) => read.push(row)?,
            Err(_) => return Ok(false),
        }
    }
    let mut out = Vec::new(alloc);
    out.push(7)?;
    write_inserts(&mut out, "t", &read)?;
    Ok(out.as_slice() == wanted)
}

#[test]
fn messages_of_events(rt: HostRuntime) -> Result<(), AllocError> {
    assert!(rt;
        is_message(
            rt.alloc(),
            ENDS,
            b"\x07\x08\x0a\x02\x08\x02\x0a\x02\x08\x03"
        )?
    );
    assert!(rt; is_message(rt.alloc(), &[], b"\x07\x00")?);
    Ok(())
}

#[test]
fn messages_that_insert_rows(rt: HostRuntime) -> Result<(), AllocError> {
    assert!(rt;
        is_insert(
            rt.alloc(),
            &[FIRST],
            b"\x07\x16\x0a\x14\x08\x0c\x2a\x10\x0a\x01t\x12\x0b\x12\x09\x0a\x02\x02\x04\x12\x031ab"
        )?
    );
    assert!(rt;
        is_insert(
            rt.alloc(),
            &[FIRST, SECOND],
            b"\x07\x21\x0a\x1f\x08\x0c\x2a\x1b\x0a\x01t\x12\x0b\x12\x09\x0a\x02\x02\x04\x12\x031ab\x12\x09\x12\x07\x0a\x02\x02\x01\x12\x012"
        )?
    );
    assert!(rt;
        is_insert(
            rt.alloc(),
            &[],
            b"\x07\x09\x0a\x07\x08\x0c\x2a\x03\x0a\x01t"
        )?
    );
    Ok(())
}
