//! Two dumps compared.

ghost use Rattle.std.specs.Prelude.{◌≡◌, IfErr, IfOk};
ghost use Rattle.vrepl_c.specs.Answer.{Judges};
ghost use Rattle.vrepl_c.specs.Compared.{Compares, counts_of, IsRefusedFor};
ghost use Rattle.vrepl_c.specs.Dumps.{AreCompared};
ghost use Rattle.vrepl_c.specs.Workflows.{plan_of};

use crate::differences::bytes_of;
use crate::dumping::BAD_DUMP;
use crate::room::{MEMORY, put};
use crate::workflow::plan_of;
use dump::{DumpFault, read_dump_beside, read_lined_dump};
use filter_rule::Plan;
use pace::Unmetered;
use std::alloc::Global;
use vdiff::{Report, compare};

/// How many keys of two dumps there are of each kind.
#[repr(C)]
#[derive(Clone, Copy)]
pub struct Counts {
    /// Keys in either: the sum of the others.
    pub processed: usize,
    /// Keys in both, with equal columns.
    pub matching: usize,
    /// Keys in both, with other columns.
    pub mismatched: usize,
    /// Keys of the source alone.
    pub extra_source: usize,
    /// Keys of the target alone.
    pub extra_target: usize,
}

/// Two dumps that were compared: how many keys there are of each kind, and the bytes of the first differences.
#[derive(Drop)]
struct Comparison {
    report: Report,
    bytes: Vec<u8>,
}

/// Why two dumps aren't compared.
#[derive(Clone, Copy)]
enum Refused {
    /// This line of the source's can't stand there.
    Source(usize),
    /// This line of the target's.
    Target(usize),
    /// A growth of memory was refused.
    Memory,
}

/// The counts as C has them.
fn counts_of(report: Report) -> Counts
    ensures { result ≡ counts_of report }
{
    Counts {
        processed: report.processed,
        matching: report.matching,
        mismatched: report.mismatched,
        extra_source: report.extra_source,
        extra_target: report.extra_target,
    }
}

/// Two dumps of the plan's tables compared, or why they aren't.
fn compared(
    alloc: Global,
    plan: &Plan,
    source: &[u8],
    target: &[u8],
    most: usize,
) -> Result<Comparison, Refused>
    ensures compared { IfOk result (λ made. AreCompared plan.now source.now target.now most made.report made.bytes.items) }
    ensures refused { IfErr result (λ refused. IsRefusedFor plan.now source.now target.now refused) }
{
    let ours = match read_lined_dump(alloc, plan, source, &Unmetered) {
        Ok(rows) => rows,
        Err(DumpFault::BadDump { line }) => return Err(Refused::Source(line)),
        Err(DumpFault::Memory) => return Err(Refused::Memory),
    };
    let theirs = match read_dump_beside(alloc, plan, target, &ours, &Unmetered) {
        Ok(rows) => rows,
        Err(DumpFault::BadDump { line }) => return Err(Refused::Target(line)),
        Err(DumpFault::Memory) => return Err(Refused::Memory),
    };
    match bytes_of(alloc, plan.tables(), ours.rows(), &theirs, most) {
        Ok(bytes) => Ok(Comparison {
            report: compare(ours.rows(), &theirs),
            bytes,
        }),
        Err(_) => Err(Refused::Memory),
    }
}

/// Says how many keys of two dumps of a workflow's tables there are of each kind, and puts the first keys at which they
/// differ, by rising key and at most so many, into the room, as bytes that are walked over; or says which line of which of
/// them, from 1, is the first that can't stand there.
#[unsafe(no_mangle)]
pub extern "C" fn vrepl_compare(
    alloc: Global,
    workflow: &[u8],
    source: &[u8],
    target: &[u8],
    most: usize,
    counts: &mut Counts,
    bad_line: &mut usize,
    in_target: &mut bool,
    room: &mut [u8],
    length: &mut usize,
) -> u32
    ensures { Judges (λ plan. Compares plan source.now target.now most result counts.new bad_line.new in_target.new room.old room.new length.new) result (plan_of workflow.now 0) }
{
    let plan = match plan_of(alloc, workflow, 0) {
        Ok(plan) => plan,
        Err(number) => return number,
    };
    match compared(alloc, &plan, source, target, most) {
        Ok(made) => {
            *counts = counts_of(made.report);
            *length = put(&made.bytes, room);
            0
        }
        Err(Refused::Source(line)) => {
            *bad_line = line;
            *in_target = false;
            BAD_DUMP
        }
        Err(Refused::Target(line)) => {
            *bad_line = line;
            *in_target = true;
            BAD_DUMP
        }
        Err(Refused::Memory) => MEMORY,
    }
}
