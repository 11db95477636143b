//! A refusal, and the place of its fault.

ghost use Rattle.std.specs.Prelude.{◌≡◌, ◌++◌, None, IfOk, codes, option_map, string_bytes};
ghost use Rattle.vrepl_main.specs.Printing.{PrintsOrBreaks};
ghost use Rattle.vrepl_main.specs.RefusalOf.{refusal_of_workflow};
ghost use Rattle.vrepl_refusal.specs.Form.{line_as};
ghost use Rattle.vrepl_vdiff.specs.ToldValue.{IsToldOf, place_value};

use dump::DumpFault;
use filter_rule::PlanFault;
use printing::Out;
use std::alloc::{AllocError, Global};
use vrepl_choices::ReportForm;
use vrepl_main::CommandRefusal;
use vrepl_refusal::refuse_as;

/// A refusal, and the place of its fault, if one is told.
#[derive(Drop)]
pub(crate) struct Told {
    pub(crate) refusal: CommandRefusal<'static>,
    pub(crate) place: Option<String>,
}

impl From<CommandRefusal<'static>> for Told {
    ghost use Rattle.std.specs.Prelude.{◌≡◌, None};

    ghost from_gives = { λ refusal told. (told.refusal ≡ refusal) × (told.place ≡ None) };

    fn from(refusal: CommandRefusal<'static>) -> Told {
        Told {
            refusal,
            place: None,
        }
    }
}

/// What is told of a workflow's fault.
pub(crate) fn told_of_workflow(fault: PlanFault) -> Told
    ensures { (result.refusal ≡ refusal_of_workflow fault) × (result.place ≡ None) }
{
    Told {
        refusal: CommandRefusal::from(fault),
        place: None,
    }
}

/// The place that names a file.
fn file_place(alloc: Global, name: &str) -> Result<String, AllocError>
    ensures { IfOk result (λ place. string_bytes place ≡ codes "file " ++ name.now) }
{
    let mut place = String::from_str(alloc, "file ")?;
    place.push_str(name)?;
    Ok(place)
}

/// What is told of a dump's fault: with JSON a bad dump is named.
pub(crate) fn told_of(alloc: Global, form: ReportForm, name: &str, fault: DumpFault) -> Told
    ensures { IsToldOf form name.now fault result }
{
    match fault {
        DumpFault::Memory => Told::from(CommandRefusal::Memory),
        DumpFault::BadDump { line } => match form {
            ReportForm::Lines => Told::from(CommandRefusal::BadDump { line }),
            ReportForm::Json => match file_place(alloc, name) {
                Ok(place) => Told {
                    refusal: CommandRefusal::BadDump { line },
                    place: Some(place),
                },
                Err(_) => Told::from(CommandRefusal::Memory),
            },
        },
    }
}

/// The text of a place, if there is one.
fn lent(place: &Option<String>) -> Option<&str>
    ensures { option_map (λ place. place.now) result ≡ place_value place.entry.now }
{
    match place {
        None => None,
        Some(place) => Some(place.as_str()),
    }
}

/// Prints the line of a refusal in the form that is asked for, and answers the status 1.
pub(crate) fn refuse_told<E: Out>(form: ReportForm, err: &mut E, told: &Told) -> u8
    ensures status { result ≡ 1 }
    ensures line { PrintsOrBreaks (E.written err.old) (E.written err.new) (line_as form (place_value told.now.place) told.now.refusal) }
{
    refuse_as(form, err, &told.refusal, lent(&told.place))
}
