//! A feed shown and two dumps compared, where standard output has little room: it takes a beginning.

use crate::commands::feeds::ONE_ROW;
use crate::commands::printed::is_cut;
use pace::Unmetered;
use printing::Writer;
use std::alloc::{AllocError, Global};
use std::io::Cursor;
use std::test::Fail;
use vrepl_choices::FeedForm;
use vrepl_main::{show, vdiff};

/// What is shown of the feed of one row.
const SHOWN: &[u8] = b"group 1 3e11fa47-71ca-11e1-9e33-c80aa9429562:1\n+ t\tx31\tx6162\n";

/// `show` prints a beginning into this room.
fn show_is_cut(alloc: Global, room: &mut [u8]) -> Result<bool, AllocError> {
    let mut err = [0u8; 64];
    let mut out = Writer::new(Cursor::new(&mut room[..]));
    let mut line = Writer::new(Cursor::new(&mut err[..]));
    let status = show(
        alloc,
        FeedForm::Hex,
        ONE_ROW.as_bytes(),
        "",
        "",
        &mut out,
        &mut line,
    );
    is_cut(status, &room[..], &err, SHOWN)
}

#[test]
fn output_without_room(rt: HostRuntime) -> Result<(), Fail> {
    for room in [0, 20, 60] {
        let mut bytes = [0u8; 60];
        assert!(rt; show_is_cut(rt.alloc(), &mut bytes[..room])?, "{room}");
    }
    Ok(())
}

const WORKFLOW: &str =
    r#"{"keyspace":"ks","tables":[{"name":"t","columns":[["id","INT64"],["v","VARCHAR"]],"key":["id"]}],"streams":[{"shard":"-80","filter":{"rules":[{"match":"/.*","filter":""}]}}]}"#;

/// Rows 1 `a`, 2 `b` and 3 `c`.
const SOURCE: &[u8] = b"table t\nx31\tx61\nx32\tx62\nx33\tx63\n";

/// Rows 1 `a`, 2 `x` and 4 `d`.
const TARGET: &[u8] = b"table t\nx31\tx61\nx32\tx78\nx34\tx64\n";

/// What is printed of these two.
const REPORT: &[u8] =
    b"processed 4\nmatching 1\nmismatched 1\nextra source 1\nextra target 1\nfirst table t key x32\n";

/// `vdiff` prints a beginning of its report into this room.
fn report_is_cut(alloc: Global, room: &mut [u8]) -> Result<bool, AllocError> {
    let mut err = [0u8; 64];
    let mut out = Writer::new(Cursor::new(&mut room[..]));
    let mut line = Writer::new(Cursor::new(&mut err[..]));
    let status = vdiff(
        alloc,
        WORKFLOW.as_bytes(),
        SOURCE,
        TARGET,
        &Unmetered,
        &mut out,
        &mut line,
    );
    is_cut(status, &room[..], &err, REPORT)
}

#[test]
fn report_without_room(rt: HostRuntime) -> Result<(), Fail> {
    for room in [0, 1, 40, 87] {
        let mut bytes = [0u8; 87];
        assert!(rt; report_is_cut(rt.alloc(), &mut bytes[..room])?, "{room}");
    }
    Ok(())
}
