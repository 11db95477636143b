//! The texts and numbers of the faults of ranges, filters and workflow files.

use filter_rule::PlanFault;
use filter_text::FilterFault;
use std::alloc::{AllocError, Global};
use std::fmt::Display;
use vindex::VindexFault;

/// Whether each value prints the text beside it.
fn print<T: Display>(alloc: Global, rows: &[(T, &str)]) -> Result<bool, AllocError> {
    for (value, wanted) in rows {
        let text = format!(in alloc; "{value}")?;
        if text.as_str() != *wanted {
            return Ok(false);
        }
    }
    Ok(true)
}

const VINDEX: &[(VindexFault, &str)] = &[
    (VindexFault::BadRange, "not a key range"),
    (VindexFault::UnknownVindex, "no vindex has this name"),
    (VindexFault::NullValue, "NULL has no keyspace id"),
    (
        VindexFault::NotANumber,
        "the value is no number from 0 to 2^64 - 1",
    ),
    (VindexFault::Memory, "out of memory"),
];

const VINDEX_NUMBERS: &[(VindexFault, u8)] = &[
    (VindexFault::BadRange, 41),
    (VindexFault::UnknownVindex, 42),
    (VindexFault::NullValue, 43),
    (VindexFault::NotANumber, 44),
    (VindexFault::Memory, 72),
];

/// Whether each fault has the number beside it.
fn have_numbers(rows: &[(VindexFault, u8)]) -> bool {
    for (fault, number) in rows {
        if fault.number() != *number {
            return false;
        }
    }
    true
}

#[test]
fn texts_of_vindex_faults(rt: HostRuntime) {
    assert!(rt; have_numbers(VINDEX_NUMBERS) && matches!(print(rt.alloc(), VINDEX), Ok(true)));
}

const FILTER: &[(FilterFault, &str)] = &[
    (FilterFault::BadForm, "the filter has no lawful form"),
    (FilterFault::Memory, "out of memory"),
];

#[test]
fn texts_of_filter_faults(rt: HostRuntime) {
    assert!(rt; matches!(print(rt.alloc(), FILTER), Ok(true)));
}

/// The fault has this number and prints this text.
fn is_told(alloc: Global, fault: &PlanFault, number: u8, wanted: &str) -> Result<bool, AllocError> {
    let text = format!(in alloc; "{fault}")?;
    Ok(fault.number() == number && text.as_str() == wanted)
}

/// The numbers and the texts of the faults that name no column.
const PLAN: &[(u8, &str)] = &[
    (51, "the workflow file isn't JSON"),
    (52, "the workflow file has another shape"),
    (55, "rule 2 of stream 1 is bad"),
    (56, "the workflow file is past a limit"),
    (72, "out of memory"),
];

/// The fault that each of these numbers is for.
fn fault_of(number: u8) -> PlanFault {
    match number {
        51 => PlanFault::Json,
        52 => PlanFault::Shape,
        55 => PlanFault::BadRule { stream: 1, rule: 2 },
        56 => PlanFault::Limit,
        _ => PlanFault::Memory,
    }
}

/// Whether the fault of each number has that number and prints the text beside it.
fn are_told(alloc: Global, rows: &[(u8, &str)]) -> Result<bool, AllocError> {
    for (number, wanted) in rows {
        if !is_told(alloc, &fault_of(*number), *number, wanted)? {
            return Ok(false);
        }
    }
    Ok(true)
}

#[test]
fn texts_of_plan_faults(rt: HostRuntime) {
    assert!(rt; matches!(are_told(rt.alloc(), PLAN), Ok(true)));
}

/// Whether an absent column of a table is told.
fn tells_absent(alloc: Global) -> Result<bool, AllocError> {
    let table = String::from_str(alloc, "t")?;
    let column = String::from_str(alloc, "x")?;
    let fault = PlanFault::NoSuchColumn { table, column };
    is_told(alloc, &fault, 53, "table t has no column x")
}

#[test]
fn text_of_an_absent_column(rt: HostRuntime) {
    assert!(rt; matches!(tells_absent(rt.alloc()), Ok(true)));
}

/// Whether a column of an unfit type is told.
fn tells_unfit(alloc: Global) -> Result<bool, AllocError> {
    let table = String::from_str(alloc, "t")?;
    let column = String::from_str(alloc, "v")?;
    let fault = PlanFault::KeyType { table, column };
    is_told(alloc, &fault, 54, "table t: column v has an unfit type")
}

#[test]
fn text_of_an_unfit_column(rt: HostRuntime) {
    assert!(rt; matches!(tells_unfit(rt.alloc()), Ok(true)));
}

/// Whether a table of which streams keep different columns is told.
fn tells_differing(alloc: Global) -> Result<bool, AllocError> {
    let table = String::from_str(alloc, "t")?;
    let fault = PlanFault::ColumnsDiffer { table };
    is_told(
        alloc,
        &fault,
        57,
        "the streams keep different columns of table t",
    )
}

#[test]
fn text_of_differing_columns(rt: HostRuntime) {
    assert!(rt; matches!(tells_differing(rt.alloc()), Ok(true)));
}
