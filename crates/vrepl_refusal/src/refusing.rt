//! The line of a command's refusal.

ghost use Rattle.std.specs.Prelude.{◌≡◌, option_map};
ghost use Rattle.printing.specs.Printing.{Prints};
ghost use Rattle.vrepl_choices.specs.declared.report_form.ReportForm.TheVariants.{Json};
ghost use Rattle.vrepl_main.specs.Printing.{PrintsOrBreaks};
ghost use Rattle.vrepl_refusal.specs.Form.{line_as};

use crate::details::details_of;
use printing::{Out, OutFailed};
use refusal_json::print_refusal;
use vrepl_choices::ReportForm;
use vrepl_main::{CommandRefusal, refuse};

/// Prints the line of JSON.
fn print_json<E: Out>(
    err: &mut E,
    refusal: &CommandRefusal<'_>,
    place: Option<&str>,
) -> Result<(), OutFailed>
    ensures { Prints result (E.written err.old) (E.written err.new) (line_as Json (option_map (λ place. place.now) place.entry) refusal.now) }
{
    print_refusal(
        err,
        u64::from(refusal.number()),
        &details_of(refusal),
        place,
    )
}

/// Prints a refusal as one line of JSON, with the place of its fault, where one is told, whole unless `err` fails, and
/// answers the status 1. Takes no memory.
pub fn refuse_json<E: Out>(err: &mut E, refusal: &CommandRefusal<'_>, place: Option<&str>) -> u8
    ensures status { result ≡ 1 }
    ensures line { PrintsOrBreaks (E.written err.old) (E.written err.new) (line_as Json (option_map (λ place. place.now) place.entry) refusal.now) }
{
    let _printed = print_json(err, refusal, place);
    1
}

/// Prints the line of a refusal in the form that is asked for; the place, where one is told, stands in that of JSON alone.
/// Else as `refuse`. Takes no memory.
pub fn refuse_as<E: Out>(
    form: ReportForm,
    err: &mut E,
    refusal: &CommandRefusal<'_>,
    place: Option<&str>,
) -> u8
    ensures status { result ≡ 1 }
    ensures line { PrintsOrBreaks (E.written err.old) (E.written err.new) (line_as form (option_map (λ place. place.now) place.entry) refusal.now) }
{
    match form {
        ReportForm::Lines => refuse(err, refusal),
        ReportForm::Json => refuse_json(err, refusal, place),
    }
}
