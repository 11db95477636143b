//! The subcommand `vdiff` with options.

ghost use Rattle.std.specs.Prelude.{◌≡◌, ◌≢◌, IfErr, IfOk};
ghost use Rattle.std.specs.List.{AllByRecursion};
ghost use Rattle.vrepl_vdiff.specs.Shown.{IsShownAs};
ghost use Rattle.vrepl_vdiff.specs.Told.{IsTold, ShownEnds};
ghost use Rattle.vrepl_vdiff.specs.ToldValue.{place_value};
ghost use Rattle.vrepl_vdiff.specs.Reading.{IsNamedBad};
ghost use Rattle.dump.specs.DumpReading.{FitsPlan, IsDump};

use crate::inputs::{Dump, VdiffInputs};
use crate::showing::{print_shown, verdict_of};
use crate::told::{Told, refuse_told, told_of, told_of_workflow};
use dump::{DumpRows, LinedRows, read_dump_beside, read_lined_dump};
use filter_rule::Plan;
use pace::Meter;
use printing::Out;
use std::alloc::Global;
use vrepl_choices::ReportForm;
use vrepl_main::Verdict;

/// Compares two dumps of a workflow's tables as `vdiff` does, and prints on `out` what its options show: the line of each
/// table above the five counts, and the first differences below them, or all of it as one object of JSON; or it prints the
/// line of a refusal on `err`, as JSON too where that is asked for, and then with the bad dump's name. Faults are found in
/// the same order, and the status is the same. Each line of a dump is a part that is done once it is read; that so many begin
/// is the caller's to tell.
pub fn vdiff_with<M: Meter, W: Out, E: Out>(
    alloc: Global,
    inputs: &VdiffInputs<'_>,
    meter: &M,
    out: &mut W,
    err: &mut E,
) -> u8
    ensures ends { ShownEnds inputs.now result (W.written out.old) (W.written out.new) (E.written err.old) (E.written err.new) }
    ensures quiet { result ≢ 1 → err.new ≡ err.old }
{
    match show_vdiff(alloc, inputs, meter, out) {
        Ok(Verdict::Same) => 0,
        Ok(Verdict::Differ) => 3,
        Err(told) => refuse_told(inputs.options.report_form, err, &told),
    }
}

/// Prints what is shown of two dumps, or nothing where one of the files is refused.
fn show_vdiff<M: Meter, W: Out>(
    alloc: Global,
    inputs: &VdiffInputs<'_>,
    meter: &M,
    out: &mut W,
) -> Result<Verdict, Told>
    ensures shown { IfOk result (λ verdict. IsShownAs inputs.now verdict (W.written out.old) (W.written out.new)) }
    ensures refused { IfErr result (λ told. IsTold inputs.now told.refusal (place_value told.place) (W.written out.old) (W.written out.new)) }
{
    let plans = match Plan::read_all(alloc, &inputs.workflow) {
        Ok(plans) => plans,
        Err(fault) => return Err(told_of_workflow(fault)),
    };
    let plan = &plans[0];
    let ours = read_named(
        alloc,
        inputs.options.report_form,
        plan,
        &inputs.source,
        meter,
    )?;
    let theirs = read_beside(
        alloc,
        inputs.options.report_form,
        plan,
        &inputs.target,
        &ours,
        meter,
    )?;
    print_shown(alloc, &inputs.options, plan, ours.rows(), &theirs, out)?;
    Ok(verdict_of(ours.rows(), &theirs))
}

/// The rows of a dump with their lines, or what is told of it.
fn read_named<'d, M: Meter>(
    alloc: Global,
    form: ReportForm,
    plan: &Plan,
    dump: &'d Dump<'_>,
    meter: &M,
) -> Result<LinedRows<'d>, Told>
    ensures read { IfOk result (λ rows. IsDump plan.now rows dump.now.text) }
    ensures refused { IfErr result (λ told. IsNamedBad form plan.now dump.now told) }
{
    match read_lined_dump(alloc, plan, &dump.text, meter) {
        Ok(rows) => Ok(rows),
        Err(fault) => Err(told_of(alloc, form, dump.name, fault)),
    }
}

/// The rows of a dump, which is read beside another one, or what is told of it.
fn read_beside<M: Meter>(
    alloc: Global,
    form: ReportForm,
    plan: &Plan,
    dump: &Dump<'_>,
    known: &LinedRows<'_>,
    meter: &M,
) -> Result<DumpRows, Told>
    requires { AllByRecursion (FitsPlan plan.now) known.now }
    ensures read { IfOk result (λ rows. IsDump plan.now rows dump.now.text) }
    ensures refused { IfErr result (λ told. IsNamedBad form plan.now dump.now told) }
{
    match read_dump_beside(alloc, plan, &dump.text, known, meter) {
        Ok(rows) => Ok(rows),
        Err(fault) => Err(told_of(alloc, form, dump.name, fault)),
    }
}
