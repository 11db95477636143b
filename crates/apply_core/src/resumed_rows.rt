//! The rows of a checkpoint beside those that the feeds leave, and put together over one target.

ghost use Rattle.std.specs.Prelude.{◌≡◌, ◌↔◌, ◌≤◌, ◌<◌, ◌+◌, length, map, take, Some, slice_get, IsTrue, MatchOption, IfOk, IfErr, OnOk};
ghost use Rattle.std.specs.declared.cmp.Ordering.TheVariants.{Less, Equal, Greater};
ghost use Rattle.std.specs.List.{AllByRecursion, filter};
ghost use Rattle.pk_copy.specs.KeyOrder.{key_cmp};
ghost use Rattle.pk_copy.specs.Marks.{is_inside};
ghost use Rattle.target_tables.specs.Rising.{IsRising};
ghost use Rattle.source_feed.specs.History.{kept_of};
ghost use Rattle.source_feed.specs.Image.{lent_row};
ghost use Rattle.board_laws.specs.Meaning.{State};
ghost use Rattle.vdiff.specs.Report.{IsFirstDifference};
ghost use Rattle.board_laws.specs.Joined.{cut_rows};
ghost use Rattle.checkpoint_laws.specs.Resumed.{AgreesWith, AtEachPlace};
ghost use Rattle.checkpoint_laws.specs.Refused.{IsLeastDifference};
ghost use Rattle.checkpoint_laws.specs.Said.{IsKeyed};
ghost use Rattle.apply_core.specs.Private.Changes.{IsOfTable, found_row, put_row};
ghost use Rattle.apply_core.specs.Private.Resuming.{AreOthers, HaveClash, AllRise, HasKeysOf};
ghost use Rattle.apply_core.specs.Private.Together.{AreTogether, of_first};

use crate::bringing::bring;
use crate::inside::is_inside;
use crate::kept::is_kept;
use crate::stream::Stream;
use crate::together::put_stream;
use board_laws::kept_rows_are_one_list;
use checkpoint_core::ReadStream;
use checkpoint_laws::ResumeFault;
use filter_rule::Plan;
use pk_copy::{
    CopyState, Key, LentKey, keys_are_those_of_kept_columns, keys_tie_where_they_are_equal,
};
use row_view::{RowBuf, RowBytes};
use source_feed::Image;
use std::alloc::{AllocError, Global};
use std::cmp::Ordering;
use target_tables::{TableFault, Tables};

/// The rows of an image whose keys are copied, by rising key. An error is want of memory.
fn rows_inside<'i, 'h>(
    alloc: Global,
    image: &'i Image<'h>,
    marks: &CopyState,
) -> Result<Vec<(&'i LentKey<'h>, &'i RowBytes<'h>)>, AllocError>
    ensures { IfOk result (λ rows. map lent_row rows.items ≡ filter (λ row. is_inside marks.now row.0) image.now) }
{
    let all = image.rows(alloc)?;
    let mut rows = Vec::with_capacity(alloc, all.len())?;
    for i in 0..all.len() {
        let row = &all[i];
        if is_inside(marks, row.0) {
            rows.push((row.0, row.1))?;
        }
    }
    Ok(rows)
}

/// Whether a row of a checkpoint is of the table of a found one, and what is kept of it. That the found row is of a
/// table of the plan is the caller's. Takes no memory.
fn is_found(plan: &Plan, saved: &(Key, RowBytes<'_>), found: &(&LentKey<'_>, &RowBytes<'_>)) -> bool
    requires { IsOfTable plan.now found.now.0.now found.now.1.now }
    ensures { IsTrue result ↔ ((saved.now.0.table ≡ found.now.0.now.table) × (saved.now.1 ≡ kept_of plan.now found.now.0.now found.now.1.now)) }
{
    saved.0.table() == found.0.table() && is_kept(plan, found.0, found.1, &saved.1)
}

/// A copy of the lesser of two keys. An error is want of memory.
fn lesser_key(alloc: Global, saved: &Key, found: &LentKey<'_>) -> Result<Key, AllocError>
    ensures less { IfOk result (λ key. key_cmp saved.now found.now ≡ Less → key ≡ saved.now) }
    ensures equal { IfOk result (λ key. key_cmp saved.now found.now ≡ Equal → key ≡ saved.now) }
    ensures greater { IfOk result (λ key. key_cmp saved.now found.now ≡ Greater → key ≡ found.now) }
{
    let other = Key::from_lent(alloc, found)?;
    match saved.cmp(&other) {
        Ordering::Less => saved.try_clone(alloc),
        Ordering::Equal => saved.try_clone(alloc),
        Ordering::Greater => Ok(other),
    }
}

/// The least key at which rows and the kept columns of others, both by rising key and each at its own key, differ, if
/// any. One walk over what is the same, without a copy and without a look at the keys: rows of one table with the same
/// columns have the same key. That each of the others is of a table of the plan is the caller's. An error is want of
/// memory.
fn first_difference(
    alloc: Global,
    plan: &Plan,
    saved: &[(Key, RowBytes<'_>)],
    found: &[(&LentKey<'_>, &RowBytes<'_>)],
) -> Result<Option<Key>, AllocError>
    requires saved { IsRising key_cmp saved.now }
    requires found { IsRising key_cmp (map (found_row plan.now) found.now) }
    requires of_tables { AllByRecursion (λ row. IsOfTable plan.now row.0 row.1) (map lent_row found.now) }
    requires saved_keyed { AllByRecursion (IsKeyed plan.now) saved.now }
    requires found_keyed { AllByRecursion (IsKeyed plan.now) (map (found_row plan.now) found.now) }
    ensures { IfOk result (λ key. MatchOption key (saved.now ≡ map (found_row plan.now) found.now) (IsFirstDifference saved.now (map (found_row plan.now) found.now))) }
{
    keys_tie_where_they_are_equal();
    for i in 0..saved.len() {
        let row = &saved[i];
        if i >= found.len() {
            return Ok(Some(row.0.try_clone(alloc)?));
        }
        let other = &found[i];
        if !is_found(plan, row, other) {
            return Ok(Some(lesser_key(alloc, &row.0, other.0)?));
        }
    }
    if saved.len() < found.len() {
        return Ok(Some(Key::from_lent(alloc, found[saved.len()].0)?));
    }
    Ok(None)
}

/// The least key at which the rows that a checkpoint says of a stream aren't the kept columns of those that
/// its applied groups leave within its marks, if any. The image of these groups is built for it. An error is want of memory.
fn difference(
    alloc: Global,
    stream: &Stream<'_>,
    saved: &ReadStream<'_>,
) -> Result<Option<Key>, AllocError>
    requires rising { IsRising key_cmp saved.now.rows }
    requires keyed { HasKeysOf saved.now stream.now }
    ensures { IfOk result (λ found. MatchOption found (AgreesWith saved.now stream.now) (IsLeastDifference saved.now stream.now)) }
{
    keys_tie_where_they_are_equal();
    keys_are_those_of_kept_columns();
    kept_rows_are_one_list();
    stream.is_sound();
    let mut image = Image::new(alloc);
    let mut imaged = 0;
    bring(
        alloc,
        &mut image,
        &mut imaged,
        stream.list(),
        stream.cursor().applied(),
    )?;
    let rows = rows_inside(alloc, &image, &stream.marks)?;
    first_difference(alloc, &stream.plan, saved.rows(), &rows)
}

/// Refused 117 where the rows that a checkpoint says of a stream aren't those that its applied groups leave
/// within its marks: for the least such stream, with the least key. Any other error is want of memory.
pub(crate) fn compare_rows(
    alloc: Global,
    streams: &[Stream<'_>],
    saved: &[ReadStream<'_>],
) -> Result<(), ResumeFault>
    requires count { length saved.now ≡ length streams.now }
    requires few { length streams.now ≤ 64 }
    requires rising { AllRise saved.now }
    requires keyed { AtEachPlace HasKeysOf saved.now streams.now }
    ensures ok { OnOk result (AtEachPlace AgreesWith saved.now streams.now) }
    ensures err { IfErr result (AreOthers saved.now streams.now) }
{
    keys_tie_where_they_are_equal();
    for s in 0..streams.len() {
        match difference(alloc, &streams[s], &saved[s])? {
            None => {}
            Some(key) => return Err(ResumeFault::CheckpointDiffers {
                stream: s as u8,
                key,
            }),
        }
    }
    Ok(())
}

/// Rows as they are put, the rows copied. An error is want of memory.
fn puts_of(
    alloc: Global,
    rows: Vec<(Key, RowBytes<'_>)>,
) -> Result<Vec<(Key, Option<RowBuf>)>, AllocError>
    ensures { IfOk result (λ puts. puts.items ≡ map put_row rows.entry.items) }
{
    let mut puts = Vec::with_capacity(alloc, rows.len())?;
    for (key, row) in rows {
        puts.push((key, Some(RowBuf::from_bytes(alloc, &row)?)))?;
    }
    Ok(puts)
}

/// Rows of the first stream, put one behind another into a target of their own, the rows copied. An error is want
/// of memory.
fn pushed_rows(
    alloc: Global,
    rows: Vec<(Key, RowBytes<'_>)>,
) -> Result<Tables<Key, RowBuf>, AllocError>
    requires { IsRising key_cmp rows.items }
    ensures { IfOk result (λ pushed. pushed.entries ≡ map of_first rows.entry.items) }
{
    let mut pushed = Tables::new(alloc);
    for (key, row) in rows {
        let copy = RowBuf::from_bytes(alloc, &row)?;
        pushed.push(key, 0, copy)?;
    }
    Ok(pushed)
}

/// Stream `s` is put to the lower ones with the rows that a checkpoint says of it: nothing can be in the way of the
/// first one's.
fn put_saved(
    alloc: Global,
    rows: &mut Tables<Key, RowBuf>,
    streams: &[Stream<'_>],
    s: u8,
    own: Vec<(Key, RowBytes<'_>)>,
) -> Result<(), ResumeFault>
    requires here { s < length streams.now }
    requires agree { (state : State) → slice_get streams.now s ≡ Some state → own.items ≡ cut_rows state }
    requires rising { IsRising key_cmp own.items }
    requires lower { AreTogether (take s streams.now) rows.old.entries }
    ensures ok { OnOk result (AreTogether (take (s + 1) streams.now) rows.new.entries) }
    ensures err { IfErr result (HaveClash streams.now) }
{
    keys_tie_where_they_are_equal();
    if s == 0 {
        *rows = pushed_rows(alloc, own)?;
        return Ok(());
    }
    let puts = puts_of(alloc, own)?;
    match put_stream(alloc, rows, s, puts) {
        Ok(()) => Ok(()),
        Err(TableFault::OwnedByOther { key, owner }) => Err(ResumeFault::OwnedByOther {
            key,
            owner,
        }),
        Err(TableFault::Memory) => Err(ResumeFault::Memory),
    }
}

/// The rows that a checkpoint says of the streams, put together in order. Refused 71 where two streams have a
/// row at one key: for the first stream that meets a lower one, with its least such key and the lower stream.
/// Any other error is want of memory.
pub(crate) fn rows_together(
    alloc: Global,
    streams: &[Stream<'_>],
    saved: Vec<ReadStream<'_>>,
) -> Result<Tables<Key, RowBuf>, ResumeFault>
    requires count { length saved.items ≡ length streams.now }
    requires few { length streams.now ≤ 64 }
    requires agree { AtEachPlace AgreesWith saved.items streams.now }
    requires rising { AllRise saved.items }
    ensures ok { IfOk result (λ rows. AreTogether streams.now rows.entries) }
    ensures err { IfErr result (HaveClash streams.now) }
{
    let mut rows = Tables::new(alloc);
    let mut s: u8 = 0;
    for one in saved {
        put_saved(alloc, &mut rows, streams, s, one.into_rows())?;
        s += 1;
    }
    Ok(rows)
}
