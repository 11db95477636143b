//! Checkpoints read: what their bytes say, and bytes that are none.

use crate::checkpoints::feeds::{ONE, plans_of};
use checkpoint_core::{ReadFault, ReadStream, read_checkpoint};
use gtid_set::GtidSet;
use pk_copy::{CopyState, Mark};
use row_view::RowBytes;
use std::alloc::Global;
use std::test::*;

/// Two tables of the same columns.
const TWO_TABLES: &[u8] =
    br#"{"keyspace":"ks","tables":[{"name":"t","columns":[["id","INT64"],["v","VARCHAR"]],"key":["id"],"vindex":["id","numeric"]},{"name":"u","columns":[["id","INT64"],["v","VARCHAR"]],"key":["id"]}],"streams":[{"shard":"-80","filter":{"rules":[{"match":"/.*","filter":""}]}}]}"#;

/// How many tables are copied, and whether the next one is copied up to a key.
fn is_copied(marks: &CopyState, done: u8, within: bool) -> bool {
    let key = match marks.mark(done) {
        Mark::Upto(_) => true,
        _ => false,
    };
    marks.done() == done && key == within
}

/// Whether what is said of a stream has one row, if any, whose bytes are these.
fn has_row(one: &ReadStream<'_>, message: Option<&[u8]>) -> bool {
    let rows = one.rows();
    let Some(message) = message else {
        return rows.is_empty();
    };
    match RowBytes::read(message) {
        Err(_) => false,
        Ok(row) => rows.len() == 1 && rows[0].1.same(&row),
    }
}

/// What is read of a checkpoint under the plans of a workflow; none where these can't be read.
fn read<'b>(
    alloc: Global,
    workflow: &[u8],
    bytes: &'b [u8],
) -> Option<Result<Vec<ReadStream<'b>>, ReadFault>> {
    let plans = plans_of(alloc, workflow)?;
    Some(read_checkpoint(alloc, &plans, bytes))
}

/// A checkpoint of one stream: its bytes, the stream's position, how many tables are copied and whether the
/// next one is copied up to a key, and its row, if it has one.
#[derive(Clone, Copy)]
struct Said<'c> {
    bytes: &'c [u8],
    position: &'c str,
    done: u8,
    within: bool,
    row: Option<&'c [u8]>,
}

/// Whether a stream is at this position.
fn is_at(alloc: Global, one: &ReadStream<'_>, position: &str) -> bool {
    match GtidSet::parse(alloc, position) {
        Ok(position) => *one.position() == position,
        Err(_) => false,
    }
}

/// Whether a checkpoint says this.
fn says(alloc: Global, said: &Said<'_>) -> bool {
    let Some(Ok(saved)) = read(alloc, ONE, said.bytes) else {
        return false;
    };
    let Some(one) = saved.first() else {
        return false;
    };
    is_at(alloc, one, said.position)
        && is_copied(one.marks(), said.done, said.within)
        && has_row(one, said.row)
}

/// Whether bytes are refused as a checkpoint.
fn is_broken(alloc: Global, workflow: &[u8], bytes: &[u8]) -> bool {
    matches!(read(alloc, workflow, bytes), Some(Err(ReadFault::Broken)))
}

/// Whether all of these bytes are.
fn are_broken(alloc: Global, workflow: &[u8], all: &[&[u8]]) -> bool {
    for bytes in all {
        if !is_broken(alloc, workflow, bytes) {
            return false;
        }
    }
    true
}

/// 105 bytes.
#[test]
fn one_row_is_read_again(rt: HostRuntime) {
    let said = Said {
        bytes: b"VREPLCP1`\n\x03-80\x12Y\x08\x02\x12U\n\x07\n\x02id\x10\x89\x02\n\x06\n\x01v\x10\x950\x12\x07\n\x02id\x10\x89\x02\x1a.MySQL56/3e11fa47-71ca-11e1-9e33-c80aa9429562:1\"\x09\n\x02\x02\x04\x12\x031ab",
        position: "3e11fa47-71ca-11e1-9e33-c80aa9429562:1",
        done: 1,
        within: false,
        row: Some(b"\n\x02\x02\x04\x12\x031ab"),
    };
    assert!(rt; says(rt.alloc(), &said));
}

/// 112 bytes: one row is copied.
#[test]
fn a_table_in_part_is_read_again(rt: HostRuntime) {
    let said = Said {
        bytes: b"VREPLCP1g\n\x03-80\x12`\x08\x01\x12\\\n\x07\n\x02id\x10\x89\x02\n\x06\n\x01v\x10\x950\x12\x07\n\x02id\x10\x89\x02\x1a.MySQL56/3e11fa47-71ca-11e1-9e33-c80aa9429562:1\"\x08\n\x02\x02\x02\x12\x021a*\x06\n\x01\x02\x12\x011",
        position: "3e11fa47-71ca-11e1-9e33-c80aa9429562:1",
        done: 0,
        within: true,
        row: Some(b"\n\x02\x02\x02\x12\x021a"),
    };
    assert!(rt; says(rt.alloc(), &said));
}

/// 54 bytes: nothing is copied.
#[test]
fn the_empty_position_is_read_again(rt: HostRuntime) {
    let said = Said {
        bytes: b"VREPLCP1-\n\x03-80\x12&\x12$\n\x07\n\x02id\x10\x89\x02\n\x06\n\x01v\x10\x950\x12\x07\n\x02id\x10\x89\x02\x1a\x08MySQL56/",
        position: "",
        done: 0,
        within: false,
        row: None,
    };
    assert!(rt; says(rt.alloc(), &said));
}

/// Fields in another order and an unknown one, another spelling of the position and of the last key.
#[test]
fn other_spellings_are_read(rt: HostRuntime) {
    let said = Said {
        bytes: b"VREPLCP1n\n\x03-80\x12g\x18\x05\x12a\"\x09\n\x02\x02\x04\x12\x031ab\x1a0MySQL56/3E11FA47-71CA-11E1-9E33-C80AA9429562:1-1\x12\x07\n\x02id\x10\x89\x02\n\x07\n\x02id\x10\x89\x02\n\x06\n\x01v\x10\x950*\x08\n\x01\x06\x12\x03007\x08\x01",
        position: "3e11fa47-71ca-11e1-9e33-c80aa9429562:1",
        done: 0,
        within: true,
        row: Some(b"\n\x02\x02\x04\x12\x031ab"),
    };
    assert!(rt; says(rt.alloc(), &said));
}

/// Other first bytes; a frame whose bytes end before it does; bytes behind the last one; a message that is
/// no list of fields.
#[test]
fn broken_frames(rt: HostRuntime) {
    let all: &[&[u8]] = &[
        b"VREPLCP3`\n\x03-80\x12Y\x08\x02\x12U\n\x07\n\x02id\x10\x89\x02\n\x06\n\x01v\x10\x950\x12\x07\n\x02id\x10\x89\x02\x1a.MySQL56/3e11fa47-71ca-11e1-9e33-c80aa9429562:1\"\x09\n\x02\x02\x04\x12\x031ab",
        b"VREPLCP1`\n\x03-80\x12Y\x08\x02\x12U\n\x07\n\x02id\x10\x89\x02\n\x06\n\x01v\x10\x950\x12\x07\n\x02id\x10\x89\x02\x1a.MySQL56/3e11fa47-71ca-11e1-9e33-c80aa9429562:1\"\x09\n\x02\x02\x04\x12\x031a",
        b"VREPLCP1`\n\x03-80\x12Y\x08\x02\x12U\n\x07\n\x02id\x10\x89\x02\n\x06\n\x01v\x10\x950\x12\x07\n\x02id\x10\x89\x02\x1a.MySQL56/3e11fa47-71ca-11e1-9e33-c80aa9429562:1\"\x09\n\x02\x02\x04\x12\x031abx",
        b"VREPLCP1`\x0f\x03-80\x12Y\x08\x02\x12U\n\x07\n\x02id\x10\x89\x02\n\x06\n\x01v\x10\x950\x12\x07\n\x02id\x10\x89\x02\x1a.MySQL56/3e11fa47-71ca-11e1-9e33-c80aa9429562:1\"\x09\n\x02\x02\x04\x12\x031ab",
        b"VREPLCP",
    ];
    assert!(rt; are_broken(rt.alloc(), ONE, all));
}

/// No part, and two of them; of another shard; without a table, and with two.
#[test]
fn other_parts(rt: HostRuntime) {
    let all: &[&[u8]] = &[
        b"VREPLCP1",
        b"VREPLCP1`\n\x03-80\x12Y\x08\x02\x12U\n\x07\n\x02id\x10\x89\x02\n\x06\n\x01v\x10\x950\x12\x07\n\x02id\x10\x89\x02\x1a.MySQL56/3e11fa47-71ca-11e1-9e33-c80aa9429562:1\"\x09\n\x02\x02\x04\x12\x031ab`\n\x03-80\x12Y\x08\x02\x12U\n\x07\n\x02id\x10\x89\x02\n\x06\n\x01v\x10\x950\x12\x07\n\x02id\x10\x89\x02\x1a.MySQL56/3e11fa47-71ca-11e1-9e33-c80aa9429562:1\"\x09\n\x02\x02\x04\x12\x031ab",
        b"VREPLCP1`\n\x03-81\x12Y\x08\x02\x12U\n\x07\n\x02id\x10\x89\x02\n\x06\n\x01v\x10\x950\x12\x07\n\x02id\x10\x89\x02\x1a.MySQL56/3e11fa47-71ca-11e1-9e33-c80aa9429562:1\"\x09\n\x02\x02\x04\x12\x031ab",
        b"VREPLCP1\x05\n\x03-80",
        b"VREPLCP1\xbb\x01\n\x03-80\x12Y\x08\x02\x12U\n\x07\n\x02id\x10\x89\x02\n\x06\n\x01v\x10\x950\x12\x07\n\x02id\x10\x89\x02\x1a.MySQL56/3e11fa47-71ca-11e1-9e33-c80aa9429562:1\"\x09\n\x02\x02\x04\x12\x031ab\x12Y\x08\x02\x12U\n\x07\n\x02id\x10\x89\x02\n\x06\n\x01v\x10\x950\x12\x07\n\x02id\x10\x89\x02\x1a.MySQL56/3e11fa47-71ca-11e1-9e33-c80aa9429562:1\"\x09\n\x02\x02\x04\x12\x031ab",
    ];
    assert!(rt; are_broken(rt.alloc(), ONE, all));
}

/// Another name, another type, a column less, and one more; another key column, none, and two.
#[test]
fn other_columns(rt: HostRuntime) {
    let all: &[&[u8]] = &[
        b"VREPLCP1`\n\x03-80\x12Y\x08\x02\x12U\n\x07\n\x02ie\x10\x89\x02\n\x06\n\x01v\x10\x950\x12\x07\n\x02id\x10\x89\x02\x1a.MySQL56/3e11fa47-71ca-11e1-9e33-c80aa9429562:1\"\x09\n\x02\x02\x04\x12\x031ab",
        b"VREPLCP1`\n\x03-80\x12Y\x08\x02\x12U\n\x07\n\x02id\x10\x87\x02\n\x06\n\x01v\x10\x950\x12\x07\n\x02id\x10\x89\x02\x1a.MySQL56/3e11fa47-71ca-11e1-9e33-c80aa9429562:1\"\x09\n\x02\x02\x04\x12\x031ab",
        b"VREPLCP1X\n\x03-80\x12Q\x08\x02\x12M\n\x07\n\x02id\x10\x89\x02\x12\x07\n\x02id\x10\x89\x02\x1a.MySQL56/3e11fa47-71ca-11e1-9e33-c80aa9429562:1\"\x09\n\x02\x02\x04\x12\x031ab",
        b"VREPLCP1h\n\x03-80\x12a\x08\x02\x12]\n\x07\n\x02id\x10\x89\x02\n\x06\n\x01v\x10\x950\n\x06\n\x01v\x10\x950\x12\x07\n\x02id\x10\x89\x02\x1a.MySQL56/3e11fa47-71ca-11e1-9e33-c80aa9429562:1\"\x09\n\x02\x02\x04\x12\x031ab",
        b"VREPLCP1_\n\x03-80\x12X\x08\x02\x12T\n\x07\n\x02id\x10\x89\x02\n\x06\n\x01v\x10\x950\x12\x06\n\x01v\x10\x950\x1a.MySQL56/3e11fa47-71ca-11e1-9e33-c80aa9429562:1\"\x09\n\x02\x02\x04\x12\x031ab",
        b"VREPLCP1W\n\x03-80\x12P\x08\x02\x12L\n\x07\n\x02id\x10\x89\x02\n\x06\n\x01v\x10\x950\x1a.MySQL56/3e11fa47-71ca-11e1-9e33-c80aa9429562:1\"\x09\n\x02\x02\x04\x12\x031ab",
        b"VREPLCP1h\n\x03-80\x12a\x08\x02\x12]\n\x07\n\x02id\x10\x89\x02\n\x06\n\x01v\x10\x950\x12\x07\n\x02id\x10\x89\x02\x12\x06\n\x01v\x10\x950\x1a.MySQL56/3e11fa47-71ca-11e1-9e33-c80aa9429562:1\"\x09\n\x02\x02\x04\x12\x031ab",
    ];
    assert!(rt; are_broken(rt.alloc(), ONE, all));
}

/// A number 0, and another flavour.
#[test]
fn broken_positions(rt: HostRuntime) {
    let all: &[&[u8]] = &[
        b"VREPLCP1`\n\x03-80\x12Y\x08\x02\x12U\n\x07\n\x02id\x10\x89\x02\n\x06\n\x01v\x10\x950\x12\x07\n\x02id\x10\x89\x02\x1a.MySQL56/3e11fa47-71ca-11e1-9e33-c80aa9429562:0\"\x09\n\x02\x02\x04\x12\x031ab",
        b"VREPLCP1?\n\x03-80\x128\x08\x02\x124\n\x07\n\x02id\x10\x89\x02\n\x06\n\x01v\x10\x950\x12\x07\n\x02id\x10\x89\x02\x1a\x0dMariaDB/0-1-2\"\x09\n\x02\x02\x04\x12\x031ab",
    ];
    assert!(rt; are_broken(rt.alloc(), ONE, all));
}

/// Another number; a last key without its mark, a mark without its last key; a last key that is none, and
/// one of two columns; a second answer, and a second last key.
#[test]
fn broken_marks(rt: HostRuntime) {
    let all: &[&[u8]] = &[
        b"VREPLCP1`\n\x03-80\x12Y\x08\x03\x12U\n\x07\n\x02id\x10\x89\x02\n\x06\n\x01v\x10\x950\x12\x07\n\x02id\x10\x89\x02\x1a.MySQL56/3e11fa47-71ca-11e1-9e33-c80aa9429562:1\"\x09\n\x02\x02\x04\x12\x031ab",
        b"VREPLCP1h\n\x03-80\x12a\x08\x02\x12]\n\x07\n\x02id\x10\x89\x02\n\x06\n\x01v\x10\x950\x12\x07\n\x02id\x10\x89\x02\x1a.MySQL56/3e11fa47-71ca-11e1-9e33-c80aa9429562:1\"\x09\n\x02\x02\x04\x12\x031ab*\x06\n\x01\x02\x12\x011",
        b"VREPLCP1f\n\x03-80\x12_\x12]\n\x07\n\x02id\x10\x89\x02\n\x06\n\x01v\x10\x950\x12\x07\n\x02id\x10\x89\x02\x1a.MySQL56/3e11fa47-71ca-11e1-9e33-c80aa9429562:1\"\x09\n\x02\x02\x04\x12\x031ab*\x06\n\x01\x02\x12\x011",
        b"VREPLCP1`\n\x03-80\x12Y\x08\x01\x12U\n\x07\n\x02id\x10\x89\x02\n\x06\n\x01v\x10\x950\x12\x07\n\x02id\x10\x89\x02\x1a.MySQL56/3e11fa47-71ca-11e1-9e33-c80aa9429562:1\"\x09\n\x02\x02\x04\x12\x031ab",
        b"VREPLCP1h\n\x03-80\x12a\x08\x01\x12]\n\x07\n\x02id\x10\x89\x02\n\x06\n\x01v\x10\x950\x12\x07\n\x02id\x10\x89\x02\x1a.MySQL56/3e11fa47-71ca-11e1-9e33-c80aa9429562:1\"\x09\n\x02\x02\x04\x12\x031ab*\x06\n\x01\x02\x12\x01x",
        b"VREPLCP1j\n\x03-80\x12c\x08\x01\x12_\n\x07\n\x02id\x10\x89\x02\n\x06\n\x01v\x10\x950\x12\x07\n\x02id\x10\x89\x02\x1a.MySQL56/3e11fa47-71ca-11e1-9e33-c80aa9429562:1\"\x09\n\x02\x02\x04\x12\x031ab*\x08\n\x02\x02\x02\x12\x0211",
        b"VREPLCP1\xb8\x01\n\x03-80\x12\xb0\x01\x08\x02\x12U\n\x07\n\x02id\x10\x89\x02\n\x06\n\x01v\x10\x950\x12\x07\n\x02id\x10\x89\x02\x1a.MySQL56/3e11fa47-71ca-11e1-9e33-c80aa9429562:1\"\x09\n\x02\x02\x04\x12\x031ab\x12U\n\x07\n\x02id\x10\x89\x02\n\x06\n\x01v\x10\x950\x12\x07\n\x02id\x10\x89\x02\x1a.MySQL56/3e11fa47-71ca-11e1-9e33-c80aa9429562:1\"\x09\n\x02\x02\x04\x12\x031ab",
        b"VREPLCP1p\n\x03-80\x12i\x08\x01\x12e\n\x07\n\x02id\x10\x89\x02\n\x06\n\x01v\x10\x950\x12\x07\n\x02id\x10\x89\x02\x1a.MySQL56/3e11fa47-71ca-11e1-9e33-c80aa9429562:1\"\x09\n\x02\x02\x04\x12\x031ab*\x06\n\x01\x02\x12\x011*\x06\n\x01\x02\x12\x012",
    ];
    assert!(rt; are_broken(rt.alloc(), ONE, all));
}

/// A column less, and one more; a key that is no number; a key again, and a lesser one; a row that is none.
#[test]
fn broken_rows(rt: HostRuntime) {
    let all: &[&[u8]] = &[
        b"VREPLCP1]\n\x03-80\x12V\x08\x02\x12R\n\x07\n\x02id\x10\x89\x02\n\x06\n\x01v\x10\x950\x12\x07\n\x02id\x10\x89\x02\x1a.MySQL56/3e11fa47-71ca-11e1-9e33-c80aa9429562:1\"\x06\n\x01\x02\x12\x011",
        b"VREPLCP1a\n\x03-80\x12Z\x08\x02\x12V\n\x07\n\x02id\x10\x89\x02\n\x06\n\x01v\x10\x950\x12\x07\n\x02id\x10\x89\x02\x1a.MySQL56/3e11fa47-71ca-11e1-9e33-c80aa9429562:1\"\n\n\x03\x02\x02\x02\x12\x031ab",
        b"VREPLCP1_\n\x03-80\x12X\x08\x02\x12T\n\x07\n\x02id\x10\x89\x02\n\x06\n\x01v\x10\x950\x12\x07\n\x02id\x10\x89\x02\x1a.MySQL56/3e11fa47-71ca-11e1-9e33-c80aa9429562:1\"\x08\n\x02\x02\x02\x12\x02xa",
        b"VREPLCP1i\n\x03-80\x12b\x08\x02\x12^\n\x07\n\x02id\x10\x89\x02\n\x06\n\x01v\x10\x950\x12\x07\n\x02id\x10\x89\x02\x1a.MySQL56/3e11fa47-71ca-11e1-9e33-c80aa9429562:1\"\x08\n\x02\x02\x02\x12\x021a\"\x08\n\x02\x02\x02\x12\x021a",
        b"VREPLCP1i\n\x03-80\x12b\x08\x02\x12^\n\x07\n\x02id\x10\x89\x02\n\x06\n\x01v\x10\x950\x12\x07\n\x02id\x10\x89\x02\x1a.MySQL56/3e11fa47-71ca-11e1-9e33-c80aa9429562:1\"\x08\n\x02\x02\x02\x12\x022a\"\x08\n\x02\x02\x02\x12\x021a",
        b"VREPLCP1_\n\x03-80\x12X\x08\x02\x12T\n\x07\n\x02id\x10\x89\x02\n\x06\n\x01v\x10\x950\x12\x07\n\x02id\x10\x89\x02\x1a.MySQL56/3e11fa47-71ca-11e1-9e33-c80aa9429562:1\"\x08\n\x01\n\x12\x031ab",
    ];
    assert!(rt; are_broken(rt.alloc(), ONE, all));
}

/// Of two tables: at other positions; the first waits and the second is copied; both are copied up to a key.
#[test]
fn tables_that_differ(rt: HostRuntime) {
    let all: &[&[u8]] = &[
        b"VREPLCP1\xbb\x01\n\x03-80\x12Y\x08\x02\x12U\n\x07\n\x02id\x10\x89\x02\n\x06\n\x01v\x10\x950\x12\x07\n\x02id\x10\x89\x02\x1a.MySQL56/3e11fa47-71ca-11e1-9e33-c80aa9429562:1\"\x09\n\x02\x02\x04\x12\x031ab\x12Y\x08\x02\x12U\n\x07\n\x02id\x10\x89\x02\n\x06\n\x01v\x10\x950\x12\x07\n\x02id\x10\x89\x02\x1a.MySQL56/3e11fa47-71ca-11e1-9e33-c80aa9429562:2\"\x09\n\x02\x02\x04\x12\x031ab",
        b"VREPLCP1\xae\x01\n\x03-80\x12L\x12J\n\x07\n\x02id\x10\x89\x02\n\x06\n\x01v\x10\x950\x12\x07\n\x02id\x10\x89\x02\x1a.MySQL56/3e11fa47-71ca-11e1-9e33-c80aa9429562:1\x12Y\x08\x02\x12U\n\x07\n\x02id\x10\x89\x02\n\x06\n\x01v\x10\x950\x12\x07\n\x02id\x10\x89\x02\x1a.MySQL56/3e11fa47-71ca-11e1-9e33-c80aa9429562:1\"\x09\n\x02\x02\x04\x12\x031ab",
        b"VREPLCP1\xc0\x01\n\x03-80\x12a\x08\x01\x12]\n\x07\n\x02id\x10\x89\x02\n\x06\n\x01v\x10\x950\x12\x07\n\x02id\x10\x89\x02\x1a.MySQL56/3e11fa47-71ca-11e1-9e33-c80aa9429562:1\"\x09\n\x02\x02\x04\x12\x031ab*\x06\n\x01\x02\x12\x011\x12V\x08\x01\x12R\n\x07\n\x02id\x10\x89\x02\n\x06\n\x01v\x10\x950\x12\x07\n\x02id\x10\x89\x02\x1a.MySQL56/3e11fa47-71ca-11e1-9e33-c80aa9429562:1*\x06\n\x01\x02\x12\x011",
    ];
    assert!(rt; are_broken(rt.alloc(), TWO_TABLES, all));
}

/// 108 bytes: of version 2, with the table's name.
#[test]
fn version_two_is_read_again(rt: HostRuntime) {
    let said = Said {
        bytes: b"VREPLCP2c\n\x03-80\x12\\\x08\x02\x12U\n\x07\n\x02id\x10\x89\x02\n\x06\n\x01v\x10\x950\x12\x07\n\x02id\x10\x89\x02\x1a.MySQL56/3e11fa47-71ca-11e1-9e33-c80aa9429562:1\"\x09\n\x02\x02\x04\x12\x031ab\x1a\x01t",
        position: "3e11fa47-71ca-11e1-9e33-c80aa9429562:1",
        done: 1,
        within: false,
        row: Some(b"\n\x02\x02\x04\x12\x031ab"),
    };
    assert!(rt; says(rt.alloc(), &said));
}

/// In version 2: no name, another one, no table, and one more than there are.
#[test]
fn names_of_version_two(rt: HostRuntime) {
    let all: &[&[u8]] = &[
        b"VREPLCP2`\n\x03-80\x12Y\x08\x02\x12U\n\x07\n\x02id\x10\x89\x02\n\x06\n\x01v\x10\x950\x12\x07\n\x02id\x10\x89\x02\x1a.MySQL56/3e11fa47-71ca-11e1-9e33-c80aa9429562:1\"\x09\n\x02\x02\x04\x12\x031ab",
        b"VREPLCP2c\n\x03-80\x12\\\x08\x02\x12U\n\x07\n\x02id\x10\x89\x02\n\x06\n\x01v\x10\x950\x12\x07\n\x02id\x10\x89\x02\x1a.MySQL56/3e11fa47-71ca-11e1-9e33-c80aa9429562:1\"\x09\n\x02\x02\x04\x12\x031ab\x1a\x01u",
        b"VREPLCP2\x05\n\x03-80",
        b"VREPLCP2\xc1\x01\n\x03-80\x12\\\x08\x02\x12U\n\x07\n\x02id\x10\x89\x02\n\x06\n\x01v\x10\x950\x12\x07\n\x02id\x10\x89\x02\x1a.MySQL56/3e11fa47-71ca-11e1-9e33-c80aa9429562:1\"\x09\n\x02\x02\x04\x12\x031ab\x1a\x01t\x12\\\x08\x02\x12U\n\x07\n\x02id\x10\x89\x02\n\x06\n\x01v\x10\x950\x12\x07\n\x02id\x10\x89\x02\x1a.MySQL56/3e11fa47-71ca-11e1-9e33-c80aa9429562:1\"\x09\n\x02\x02\x04\x12\x031ab\x1a\x01u",
    ];
    assert!(rt; are_broken(rt.alloc(), ONE, all));
}
