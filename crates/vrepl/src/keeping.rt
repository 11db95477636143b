//! Checkpoints that take the place of a file.

ghost use Rattle.std.specs.Prelude.{◌≡◌, ◌≤◌, IfErr, IfOk};
ghost use Rattle.vrepl.specs.Kept.{IsUnkept, IsUnplaced};

use crate::answering::files_of;
use crate::telling::Teller;
use kept_file::{KeepFault, Place, PlaceFault};
use printing::Writer;
use vrepl_main::{
    CommandRefusal, Untold, joined_checkpoint, read_join, read_step, refuse, refuse_unjoined,
    saved_checkpoint, tell_refused,
};
use vrepl_words::commands::join::Join;
use vrepl_words::commands::save::Save;

/// The file behind standard input, where the system has names for such.
const STANDARD_INPUT: &str = "/dev/stdin";

/// Where a command keeps its checkpoint, or that the words name no such place, which was told.
#[derive(Drop)]
pub(crate) enum Keeping {
    /// In this place.
    In(Place),
    /// In none: a fault of usage.
    Nowhere,
}

/// Where the file of this name is kept by a command with these inputs; the checkpoints that it reads aren't among them,
/// since the new one may take the place of one of these.
pub(crate) fn place_of<'w>(
    rt: &HostRuntime,
    file: &'w str,
    workflow: &str,
    feeds: &[&str],
    others: &[&str],
) -> Result<Keeping, CommandRefusal<'w>>
    ensures refused { IfErr result (IsUnplaced file.now) }
{
    let place = match Place::find(rt, file) {
        Ok(place) => place,
        Err(PlaceFault::Irregular) => return Ok(misnamed(rt, "is there and no regular file")),
        Err(PlaceFault::CannotWrite) => return Err(CommandRefusal::CannotWrite { file }),
        Err(PlaceFault::Memory) => return Err(CommandRefusal::Memory),
    };
    if place.is_one_of(rt, &[workflow]) {
        return Ok(misnamed(rt, "is the workflow's"));
    }
    if place.is_one_of(rt, feeds) {
        return Ok(misnamed(rt, "is a feed's"));
    }
    if place.is_one_of(rt, others) {
        return Ok(misnamed(rt, "is a standard stream's"));
    }
    Ok(Keeping::In(place))
}

/// Tells what is wrong with the file of `--save-to`.
pub(crate) fn misnamed(rt: &HostRuntime, why: &str) -> Keeping {
    let _ = rt.eprintln(format_args!("error: the file of --save-to {why}"));
    Keeping::Nowhere
}

/// Puts these bytes in the place of the file of this name.
pub(crate) fn keep<'w>(
    rt: &HostRuntime,
    place: &Place,
    file: &'w str,
    bytes: &[u8],
) -> Result<(), CommandRefusal<'w>>
    ensures refused { IfErr result (IsUnkept file.now) }
{
    match place.replace(rt, bytes) {
        Ok(()) => Ok(()),
        Err(fault) => Err(unkept(file, fault)),
    }
}

/// Why the file of this name isn't replaced.
pub(crate) fn unkept(file: &str, fault: KeepFault) -> CommandRefusal<'_>
    ensures { IsUnkept file.entry.now result }
{
    match fault {
        KeepFault::Changed => CommandRefusal::Changed { file },
        KeepFault::CannotWrite => CommandRefusal::CannotWrite { file },
        KeepFault::Memory => CommandRefusal::Memory,
    }
}

/// `save` into the file of this name.
pub(crate) fn save_to<'w>(
    rt: &HostRuntime,
    words: &Save<'w>,
    file: &'w str,
) -> Result<u8, CommandRefusal<'w>>
    ensures status { IfOk result (λ status. status ≤ 2) }
{
    let step = &words.step;
    let Keeping::In(place) = place_of(rt, file, step.workflow, &step.feeds, &[STANDARD_INPUT])?
    else {
        return Ok(2);
    };
    let inputs = read_step(rt, &Untold, step.feed_form, step.workflow, &step.feeds)?;
    match saved_checkpoint(rt.alloc(), &inputs) {
        Ok(saved) => {
            keep(rt, &place, file, &saved.checkpoint)?;
            Ok(tell_refused(&mut Writer::new(rt.stderr()), &saved, words.strict))
        }
        Err(refusal) => Ok(refuse(&mut Writer::new(rt.stderr()), &refusal)),
    }
}

/// `join` into the file of this name.
pub(crate) fn join_to<'w>(
    rt: &HostRuntime,
    teller: &Teller<'_>,
    words: &Join<'w>,
    file: &'w str,
) -> Result<u8, CommandRefusal<'w>>
    ensures status { IfOk result (λ status. status ≤ 2) }
{
    let Keeping::In(place) = place_of(rt, file, words.workflow, &words.feeds, &[])? else {
        return Ok(2);
    };
    let inputs = read_join(rt, teller, words.feed_form, &files_of(words))?;
    teller.has_all();
    match joined_checkpoint(rt.alloc(), &inputs, teller) {
        Ok(checkpoint) => {
            keep(rt, &place, file, &checkpoint)?;
            Ok(0)
        }
        Err(unjoined) => {
            teller.ends();
            Ok(refuse_unjoined(&mut Writer::new(rt.stderr()), &unjoined))
        }
    }
}
