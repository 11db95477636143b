//! The subcommand `check`: what stands in feeds, and warnings of what can't be so.

ghost use Rattle.std.specs.Prelude.{◌≡◌, ◌≢◌, ◌↔◌, IfOk, Ok, map};
ghost use Rattle.check_said.specs.Said.{said_of};
ghost use Rattle.vrepl_main.specs.Command.{PrintsText};
ghost use Rattle.vrepl_main.specs.Given.{given_value};
ghost use Rattle.vrepl_check.specs.Checking.{bytes_or_none, names_of, report_of_feeds, report_asked, text_of_report, CheckEnds, IsFound};
ghost use Rattle.vrepl_check.specs.Clean.{IsGood};

use crate::inputs::CheckInputs;
use crate::placing::place_as_json;
use check_said::Said;
use feed_check::{Checked, check_feeds, checks_warn_unless_feeds_are_faultless};
use pace::Meter;
use printing::Out;
use std::alloc::{AllocError, Global};
use vrepl_main::{CommandRefusal, GivenFeed, given_feeds, open_workflow};
use vrepl_refusal::refuse_as;

/// Checks a workflow with its feeds, one in the order of the streams each, and prints on `out` a line for each
/// table of each stream with the rows that the stream passes, then a line for each stream and a line for each of
/// its tables. Behind them come notes of what may well be so: where a feed starts, a table that no group touches or of
/// which no row passes the stream's filter, updates that put a row at another key; and behind these warnings of what
/// can't be so: a stream without a group, changes that aren't true of the rows that the changes before them leave, with
/// the first ten of each kind, events that are passed over. Last stands what the workflow's file says in vain. Or prints
/// the line of a refusal on `err` and then nothing on `out`, unless it is `out` that can't be written; as JSON that line
/// has the place of the fault too. The faults are
/// found in this order: those of opening the workflow with its feeds, as `run` finds them; then of each feed the
/// first group that isn't sound. As JSON all is one line, which has every thing that is told and not the first ten of
/// a kind. Answers the status: 0 where nothing is warned of, and so the workflow and its feeds are without a fault, and
/// where it is to be strict nothing is noted either, and so they are clean; 3 where something is; 1 after a refusal, also
/// of memory. The meter is told how far the check of the feeds is.
pub fn check<M: Meter, W: Out, E: Out>(
    alloc: Global,
    inputs: &CheckInputs<'_, '_>,
    meter: &M,
    out: &mut W,
    err: &mut E,
) -> u8
    ensures ends { CheckEnds inputs.now result (W.written out.old) (W.written out.new) (E.written err.old) (E.written err.new) }
    ensures quiet { result ≢ 1 → err.new ≡ err.old }
    // Status 0 exactly where the workflow and its feeds are without a fault, or if it is to be strict clean.
    ensures good { result ≢ 1 → (result ≡ 0) ↔ IsGood inputs.now.strict inputs.now }
{
    checks_warn_unless_feeds_are_faultless();
    match print_check(alloc, inputs, meter, out) {
        Ok(false) => 0,
        Ok(true) => 3,
        Err(refusal) => {
            let place = place_as_json(alloc, inputs);
            refuse_as(inputs.report_form, err, &refusal, place.as_deref())
        }
    }
}

/// Prints the report on a workflow and its feeds, which may be given as hexadecimal text, and answers whether it finds
/// anything; prints nothing where there is none.
fn print_check<M: Meter, W: Out>(
    alloc: Global,
    inputs: &CheckInputs<'_, '_>,
    meter: &M,
    out: &mut W,
) -> Result<bool, CommandRefusal<'static>>
    ensures found { IfOk result (λ found. IsFound inputs.now.strict found (report_asked inputs.now)) }
    ensures printed { PrintsText result (text_of_report (report_asked inputs.now)) (W.written out.old) (W.written out.new) }
{
    let given = given_feeds(alloc, inputs.feed_form, &inputs.feeds)?;
    print_given(alloc, inputs, &given, meter, out)
}

/// The same of feeds whose bytes are given.
fn print_given<M: Meter, W: Out>(
    alloc: Global,
    inputs: &CheckInputs<'_, '_>,
    given: &[GivenFeed<'_>],
    meter: &M,
    out: &mut W,
) -> Result<bool, CommandRefusal<'static>>
    ensures found { IfOk result (λ found. IsFound inputs.now.strict found (report_of_feeds inputs.now (map given_value given.now))) }
    ensures printed { PrintsText result (text_of_report (report_of_feeds inputs.now (map given_value given.now))) (W.written out.old) (W.written out.new) }
{
    let opened = open_workflow(alloc, &inputs.workflow, given)?;
    let bytes = bytes_given(alloc, given)?;
    let checks = check_feeds(alloc, &bytes, &opened.feeds, meter)?;
    print_said(alloc, inputs, &checks, out)
}

/// Prints what is said of checks of feeds and of the workflow's file, and answers whether anything is found.
fn print_said<W: Out>(
    alloc: Global,
    inputs: &CheckInputs<'_, '_>,
    checks: &[Checked<'_>],
    out: &mut W,
) -> Result<bool, CommandRefusal<'static>>
    ensures found { IfOk result (λ found. IsFound inputs.now.strict found (Ok (said_of inputs.now.report_form inputs.now.workflow.items (names_of inputs.now) checks.now))) }
    ensures printed { PrintsText result (text_of_report (Ok (said_of inputs.now.report_form inputs.now.workflow.items (names_of inputs.now) checks.now))) (W.written out.old) (W.written out.new) }
{
    let said = Said::of(
        alloc,
        inputs.report_form,
        &inputs.workflow,
        inputs.files,
        checks,
    )?;
    said.print(out)?;
    Ok(said.warned() || (inputs.strict && said.noted()))
}

/// The bytes of each feed.
fn bytes_given<'g>(alloc: Global, given: &'g [GivenFeed<'_>]) -> Result<Vec<&'g [u8]>, AllocError>
    ensures { IfOk result (λ bytes. map (λ one. one.now) bytes.items ≡ map bytes_or_none (map given_value given.entry.now)) }
{
    let mut bytes = Vec::with_capacity(alloc, given.len())?;
    for feed in given {
        bytes.push(feed.bytes().unwrap_or(&[]))?;
    }
    Ok(bytes)
}
