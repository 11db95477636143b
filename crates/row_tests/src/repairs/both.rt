//! What is made of two dumps.

use crate::repairs::setup::{SOURCE, TARGET, plan};
use dump::read_dump;
use std::alloc::Global;
use vdiff_sql::repair_text;
use vdiff_text::differences_text;

/// The statements that make the target's rows the source's.
const STATEMENTS: &[u8] = b"\
SET NAMES utf8mb4, time_zone='+00:00', sql_mode='NO_AUTO_VALUE_ON_ZERO,ALLOW_INVALID_DATES', foreign_key_checks=0;
START TRANSACTION;
DELETE FROM `s`.`t``s` WHERE `k` = -4 AND `name` = x'7c';
UPDATE `s`.`t``s` SET `pri``ce` = '1.50', `note` = x'416e6e' WHERE `k` = 2 AND `name` = x'62';
INSERT INTO `s`.`t``s` (`k`, `name`, `pri``ce`, `note`) VALUES (3, x'63', x'27', x'6127');
COMMIT;
";

/// The same of equal dumps.
const NONE: &[u8] = b"\
SET NAMES utf8mb4, time_zone='+00:00', sql_mode='NO_AUTO_VALUE_ON_ZERO,ALLOW_INVALID_DATES', foreign_key_checks=0;
START TRANSACTION;
COMMIT;
";

/// The lines of the differences, of which the first two are two.
const LINES: &[u8] = b"\
table t`s key -4 | 0x7c only in the target
  k: -4
  name: 0x7c
  pri`ce: NULL
  note: NULL
table t`s key 2 | b differs
  pri`ce: 1.50 | NULL
  note: Ann | 0x416e6120
";

/// The statements of two dumps are these.
fn repairs(alloc: Global, source: &[u8], target: &[u8], wanted: &[u8]) -> bool {
    let Some(plan) = plan(alloc) else {
        return false;
    };
    let Ok(source) = read_dump(alloc, &plan, source) else {
        return false;
    };
    let Ok(target) = read_dump(alloc, &plan, target) else {
        return false;
    };
    match repair_text(alloc, "s", &plan, &source, &target) {
        Ok(text) => text.as_slice() == wanted,
        Err(_) => false,
    }
}

/// The lines of so many differences are these.
fn tells(alloc: Global, count: u32, wanted: &[u8]) -> bool {
    let Some(plan) = plan(alloc) else {
        return false;
    };
    let Ok(source) = read_dump(alloc, &plan, SOURCE) else {
        return false;
    };
    let Ok(target) = read_dump(alloc, &plan, TARGET) else {
        return false;
    };
    match differences_text(alloc, plan.tables(), &source, &target, count) {
        Ok(text) => text.as_slice() == wanted,
        Err(_) => false,
    }
}

/// A statement for each key at which they differ, with names and values as literals.
#[test]
fn statements_of_two_dumps(rt: HostRuntime) {
    assert!(rt; repairs(rt.alloc(), SOURCE, TARGET, STATEMENTS));
    assert!(rt; repairs(rt.alloc(), SOURCE, SOURCE, NONE));
}

/// As many differences as are asked for, each value as it is where it can be read and looks as no other does.
#[test]
fn lines_of_two_dumps(rt: HostRuntime) {
    assert!(rt; tells(rt.alloc(), 2, LINES));
    assert!(rt; tells(rt.alloc(), 0, b""));
}
