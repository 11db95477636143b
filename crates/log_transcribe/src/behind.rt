//! What a transaction of logs tells behind a feed that is there.

ghost use Rattle.std.specs.Prelude.{◌≡◌, map, option_map, IfOk};
ghost use Rattle.list_laws.specs.Outcome.{GivesUnless};
ghost use Rattle.gtid_set.specs.Position.{union_of};
ghost use Rattle.log_tables.specs.TableMap.{map_value};
ghost use Rattle.log_groups.specs.Transaction.{done_value};
ghost use Rattle.log_course.specs.Calls.{placed_value};
ghost use Rattle.log_feed.specs.Fault.{meant as change_meant};
ghost use Rattle.log_feed.specs.Table.{table_value, stage_at};
ghost use Rattle.log_laws.specs.Read.{table_there};
ghost use Rattle.log_laws.specs.Transcript.{group_told};
ghost use Rattle.log_transcribe.specs.Fault.{meant, of_tell};
ghost use Rattle.log_transcribe.specs.Transcript.{source_value};
ghost use Rattle.log_transcribe.specs.Behind.{had_by, change_had, changes_had, moved, told_far, taken_far};
ghost use Rattle.log_transcribe.specs.Private.Bytes.{with_messages};

use crate::apart::overlaps;
use crate::fault::{LogsError, LogsFault};
use crate::said::table_of;
use crate::transcript::{FeedSource, Transcript, of_change};
use gtid_set::GtidSet;
use log_course::{CourseFault, PlacedGroup};
use log_feed::{ChangeError, ChangeFault, FeedTable, Stage, Trouble};
use log_groups::Done;
use log_places::PlaceFault;
use log_tables::TableMap;
use std::alloc::{AllocError, Global};

/// The pairs of two positions.
fn both(alloc: Global, one: &GtidSet, other: &GtidSet) -> Result<GtidSet, AllocError>
    ensures { IfOk result (λ all. all ≡ union_of one.now other.now) }
{
    match one.union(alloc, other) {
        Ok(all) => Ok(all),
        Err(_) => Err(AllocError),
    }
}

/// The transaction behind a position: its own is then that of both.
fn moved<'b>(
    alloc: Global,
    had: &GtidSet,
    group: PlacedGroup<'b>,
) -> Result<PlacedGroup<'b>, AllocError>
    ensures { IfOk result (λ g. placed_value g ≡ moved had.now (placed_value group.entry)) }
{
    let position = both(alloc, had, &group.position)?;
    Ok(PlacedGroup {
        position,
        changes: group.changes,
    })
}

/// The table of the source that a map names.
fn table_there<'t, 'w>(
    source: FeedSource<'t, 'w>,
    table_map: &TableMap<'_>,
) -> Option<(usize, &'t FeedTable<'w>)>
    ensures { option_map (λ x. (x.0, table_value x.1.now)) result ≡ table_there (source_value source.entry) (map_value table_map.now) }
{
    if table_map.schema != source.schema {
        return None;
    }
    table_of(source.tables, table_map.name)
}

/// What a feed says of the table at a place.
fn stage_at(had: &[Stage], place: usize) -> Stage
    ensures { result ≡ stage_at had.now place }
{
    match had.get(place) {
        Some(stage) => *stage,
        None => Stage::Absent,
    }
}

/// Refuses rows of a table whose columns the feed doesn't have.
fn had_by(stage: Stage, table: usize) -> Result<(), ChangeError>
    ensures { GivesUnless change_meant (λ x. x) result (had_by stage table) }
{
    let trouble = Trouble::NotMade;
    match stage {
        Stage::Filled => Ok(()),
        Stage::Absent => Err(ChangeError::Fault(ChangeFault { trouble, table })),
        Stage::Made => Err(ChangeError::Fault(ChangeFault { trouble, table })),
    }
}

/// The same of a change that the feed tells.
fn change_had(source: FeedSource<'_, '_>, had: &[Stage], done: &Done<'_>) -> Result<(), ChangeError>
    ensures { GivesUnless change_meant (λ x. x) result (change_had (source_value source.entry) had.now (done_value done.now)) }
{
    match done {
        Done::Rows(_, table_map, _) => match table_there(source, table_map) {
            Some((place, _)) => had_by(stage_at(had, place), place),
            None => Ok(()),
        },
        Done::Altered(_) => Ok(()),
    }
}

/// The same of changes in order.
fn changes_had(
    source: FeedSource<'_, '_>,
    had: &[Stage],
    changes: &[Done<'_>],
) -> Result<(), ChangeError>
    ensures { GivesUnless change_meant (λ x. x) result (changes_had (source_value source.entry) had.now (map done_value changes.now)) }
{
    for done in changes {
        if let Err(error) = change_had(source, had, done) {
            return Err(error);
        }
    }
    Ok(())
}

impl<'t, 'w> Transcript<'t, 'w> {
    /// Appends the message of a transaction of the file at a place that the feed doesn't have.
    fn tell_group(
        &mut self,
        alloc: Global,
        out: &mut Vec<u8>,
        file: usize,
        group: PlacedGroup<'_>,
    ) -> Result<(), LogsError>
        ensures told { GivesUnless meant (λ x. (out.new.items, self.new.far)) result (with_messages (of_tell file (group_told self.old.source (moved self.old.far.reached (placed_value group.entry)) self.old.far)) out.old.items) }
        ensures source { self.new.source ≡ self.old.source }
    {
        let group = moved(alloc, &self.reached, group)?;
        self.put_group(alloc, out, file, group)
    }

    /// The same, where the logs reached a position before it.
    fn tell_apart(
        &mut self,
        alloc: Global,
        out: &mut Vec<u8>,
        file: usize,
        before: &GtidSet,
        group: PlacedGroup<'_>,
    ) -> Result<(), LogsError>
        ensures told { GivesUnless meant (λ x. (out.new.items, self.new.far)) result (with_messages (told_far file self.old.source before.now (placed_value group.entry) self.old.far) out.old.items) }
        ensures source { self.new.source ≡ self.old.source }
    {
        if overlaps(&self.reached, before, &group.position) {
            let fault = CourseFault::Place(PlaceFault::GoesBack);
            return Err(LogsError::Fault(LogsFault::Course(file, fault)));
        }
        self.tell_group(alloc, out, file, group)
    }

    /// Passes over it, where the feed has it, or tells it.
    pub(crate) fn take_group(
        &mut self,
        alloc: Global,
        out: &mut Vec<u8>,
        file: usize,
        source: FeedSource<'_, '_>,
        had: &[Stage],
        before: &GtidSet,
        group: PlacedGroup<'_>,
    ) -> Result<(), LogsError>
        requires { self.old.source ≡ source_value source }
        ensures told { GivesUnless meant (λ x. (out.new.items, self.new.far)) result (with_messages (taken_far file self.old.source had.now before.now (placed_value group.entry) self.old.far) out.old.items) }
        ensures source { self.new.source ≡ self.old.source }
    {
        if group.position.is_within(&self.reached) {
            return match changes_had(source, had, &group.changes) {
                Ok(()) => Ok(()),
                Err(error) => Err(of_change(file, error)),
            };
        }
        self.tell_apart(alloc, out, file, before, group)
    }
}
