//! Answers that take a board as told.

ghost use Rattle.std.specs.Prelude.{◌≡◌, OnErr, OnOk, length};
ghost use Rattle.live_session.specs.Answered.{Answers, HasTold, IsChanges, IsToldCount};
ghost use Rattle.live_session.specs.Sessions.{session_of};

use crate::looking::plan_of;
use crate::seat::Seat;
use crate::streams::streams_of;
use change_laws::ChangedKeys;
use live_core::Live;
use live_json::{print_all_rows, print_changes, print_told};
use printing::{Out, OutFailed};
use std::alloc::{AllocError, Global};

/// Prints what changed, and where the streams stand.
fn print_changed<O: Out>(
    alloc: Global,
    live: &Live<'_>,
    seats: &[Seat<'_>],
    out: &mut O,
) -> Result<Result<(), OutFailed>, AllocError>
    requires { length seats.now ≡ length live.now.fed.feeds }
    ensures { Answers (IsChanges (session_of live.now seats.now)) result (O.written out.old) (O.written out.new) }
{
    let streams = streams_of(alloc, live, seats)?;
    let tables = plan_of(live).tables();
    let rows = live.fed().board().target();
    match live.changed(alloc)? {
        ChangedKeys::All => Ok(print_all_rows(out, tables, rows, &streams)),
        ChangedKeys::Touched(keys) => Ok(print_changes(out, tables, rows, &keys, &streams)),
    }
}

/// Tells what changed since the board that was told, and takes this one as told. After an error nothing is.
pub(crate) fn tell_changes<O: Out>(
    alloc: Global,
    live: &mut Live<'_>,
    seats: &[Seat<'_>],
    out: &mut O,
) -> Result<Result<(), OutFailed>, AllocError>
    requires { length seats.now ≡ length live.old.fed.feeds }
    ensures answer { Answers (IsChanges (session_of live.old seats.now)) result (O.written out.old) (O.written out.new) }
    ensures told { OnOk result (HasTold (session_of live.old seats.now) (session_of live.new seats.now)) }
    ensures left { OnErr result (live.new ≡ live.old) }
{
    let applied = live.to_tell(alloc)?;
    let printed = print_changed(alloc, live, seats, out)?;
    live.tell_as(applied);
    Ok(printed)
}

/// Prints how many keys have changed, and where the streams stand.
fn print_count<O: Out>(
    alloc: Global,
    live: &Live<'_>,
    seats: &[Seat<'_>],
    out: &mut O,
) -> Result<Result<(), OutFailed>, AllocError>
    requires { length seats.now ≡ length live.now.fed.feeds }
    ensures { Answers (IsToldCount (session_of live.now seats.now)) result (O.written out.old) (O.written out.new) }
{
    let changes = live.count(alloc)?;
    let streams = streams_of(alloc, live, seats)?;
    Ok(print_told(out, changes, &streams))
}

/// Takes this board as told, and tells how many keys have changed since the one before. After an error nothing is.
pub(crate) fn tell_told<O: Out>(
    alloc: Global,
    live: &mut Live<'_>,
    seats: &[Seat<'_>],
    out: &mut O,
) -> Result<Result<(), OutFailed>, AllocError>
    requires { length seats.now ≡ length live.old.fed.feeds }
    ensures answer { Answers (IsToldCount (session_of live.old seats.now)) result (O.written out.old) (O.written out.new) }
    ensures told { OnOk result (HasTold (session_of live.old seats.now) (session_of live.new seats.now)) }
    ensures left { OnErr result (live.new ≡ live.old) }
{
    let applied = live.to_tell(alloc)?;
    let printed = print_count(alloc, live, seats, out)?;
    live.tell_as(applied);
    Ok(printed)
}
