//! What is printed into writers.

use dump::add_cell;
use printing::{Gathered, Writer, put_all};
use row_view::Column;
use std::io::Cursor;

/// Whether three bytes are put into this room.
fn puts_abc(room: &mut [u8]) -> bool {
    put_all(&mut Writer::new(Cursor::new(room)), b"abc").is_ok()
}

#[test]
fn faults_where_room_ends(rt: HostRuntime) {
    for room in 2..5 {
        let mut bytes = [0u8; 4];
        assert!(rt; puts_abc(&mut bytes[..room]) == (room > 2), "{room}");
    }
}

/// The bytes that stand in front of the fault are printed, and none behind.
#[test]
fn leaves_a_beginning_where_room_ends(rt: HostRuntime) {
    let mut bytes = [b'.'; 4];
    let is_put = puts_abc(&mut bytes[..2]);
    assert!(rt; !is_put && bytes.as_slice() == b"ab..".as_slice());
}

/// A value of 65 bytes is printed in 131; it is spelled 64 bytes at a time.
fn prints_value() -> bool {
    let value = [0xa7u8; 65];
    let mut bytes = [0u8; 132];
    let mut out = Writer::new(Cursor::new(&mut bytes[..]));
    let mut text = Gathered::new();
    let is_put = add_cell(&mut out, &mut text, &Column::Bytes(&value)).is_ok();
    let is_put = is_put && text.finish(&mut out).is_ok();
    is_put && bytes.starts_with(b"xa7a7") && bytes.ends_with(b"a7a7\x00")
}

#[test]
fn prints_a_value_of_two_pieces(rt: HostRuntime) {
    assert!(rt; prints_value());
}
