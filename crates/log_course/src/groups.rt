//! The groups of a log one after another, each with the position behind it.

ghost use Rattle.std.specs.Prelude.{◌≡◌, [], IfErr, IfOk, None, Ok, map, option_map};
ghost use Rattle.std.specs.Result.{result_map_both};
ghost use Rattle.list_laws.specs.Outcome.{GivesUnless};
ghost use Rattle.log_events.specs.Log.{LogValue, log_value, log_at};
ghost use Rattle.log_groups.specs.Step.{gtid_value};
ghost use Rattle.log_groups.specs.GroupCalls.{group_value, waiting_value};
ghost use Rattle.log_places.specs.Place.{position_behind};
ghost use Rattle.log_course.specs.declared.fault.CourseError.TheVariants.{Memory};
ghost use Rattle.log_course.specs.Fault.{meant, of_log, of_place};
ghost use Rattle.log_course.specs.Course.{begins, is_inside, course_at, CoursesAreRead};
ghost use Rattle.log_course.specs.Calls.{placed_value, read_of, NextPlaced, PlacesGroup, EndsSo};

use crate::fault::{CourseError, CourseFault};
use crate::laws::courses_are_read;
use gtid_set::GtidSet;
use log_events::{CrcTable, EventFault, Events, Log, log_of};
use log_groups::{Done, Group, GroupError, GroupFault, Groups, Gtid, Transactions, Waiting};
use log_places::{PlaceError, PlaceFault, goes_on, position_behind};
use std::alloc::Global;
use std::marker::Model;

/// What a transaction commits. What it refers to are slices of the log's bytes.
#[derive(Drop)]
pub struct PlacedGroup<'b> {
    /// the position behind it
    pub position: GtidSet,
    /// in order
    pub changes: Vec<Done<'b>>,
}

/// The groups of a log that are still to come, in order. Seen in contracts as that list with the fault that ends it, if
/// one does, the position that was reached, what waits where they end, and how many of the log's bytes aren't read yet.
#[derive(Drop)]
pub struct LogGroups<'t, 'b> {
    groups: Groups<'t, 'b>,
    reached: GtidSet,
    in_use: bool,
}

impl<'t, 'b> Model for LogGroups<'t, 'b> {
    ghost use Rattle.log_course.specs.Course.{placed_behind};
    ghost use Rattle.log_course.specs.Calls.{CourseValue};

    ghost Value = { CourseValue };

    ghost view = { λ a. record { reached = a.reached; groups = placed_behind a.reached a.in_use a.groups.groups.reading; waiting = a.groups.groups.waiting; left = a.groups.left } };
}

/// Whether a log ends inside of a transaction, or of an event.
fn is_inside(fault: GroupFault) -> bool
    ensures { result ≡ is_inside fault }
{
    match fault {
        GroupFault::Unended => true,
        GroupFault::Event(EventFault::Cut) => true,
        _ => false,
    }
}

/// The position behind a transaction.
fn behind(alloc: Global, reached: &GtidSet, gtid: &Gtid<'_>) -> Result<GtidSet, CourseError>
    ensures { GivesUnless meant (λ set. set) result (of_place (position_behind reached.now (gtid_value gtid.now))) }
{
    match position_behind(alloc, reached, gtid) {
        Ok(position) => Ok(position),
        Err(PlaceError::Memory) => Err(CourseError::Memory),
        Err(PlaceError::Fault(fault)) => Err(CourseError::Fault(CourseFault::Place(fault))),
    }
}

/// Places a group behind the position that was reached, which its own is from then on.
fn place_group<'b>(
    alloc: Global,
    reached: &mut GtidSet,
    group: Group<'b>,
) -> Result<Option<PlacedGroup<'b>>, CourseError>
    ensures { PlacesGroup reached.old (group_value group.entry) (result_map_both (λ g. option_map placed_value g) (λ e. e) result) reached.new }
{
    let position = behind(alloc, reached, &group.gtid)?;
    *reached = copy_of(alloc, &position)?;
    Ok(Some(PlacedGroup {
        position,
        changes: group.changes,
    }))
}

/// How a log ends whose groups end so.
fn end_of<'b>(in_use: bool, error: GroupError) -> Result<Option<PlacedGroup<'b>>, CourseError>
    ensures { EndsSo in_use error (result_map_both (λ g. option_map placed_value g) (λ e. e) result) }
{
    match error {
        GroupError::Memory => Err(CourseError::Memory),
        GroupError::Fault(fault) => {
            if in_use && is_inside(fault) {
                return Ok(None);
            }
            Err(CourseError::Fault(CourseFault::Group(fault)))
        }
    }
}

/// A copy of a position.
fn copy_of(alloc: Global, position: &GtidSet) -> Result<GtidSet, CourseError>
    ensures copied { IfOk result (λ copy. copy ≡ position.now) }
    ensures memory { IfErr result (λ error. error ≡ Memory) }
{
    match position.try_clone(alloc) {
        Ok(copy) => Ok(copy),
        Err(_) => Err(CourseError::Memory),
    }
}

/// Whether a log goes on where this position was reached, by its first event.
fn begins(alloc: Global, reached: &GtidSet, events: Events<'_, '_>) -> Result<(), CourseError>
    ensures { GivesUnless meant (λ x. x) result (begins reached.now events.entry.reading.items events.entry.reading.fault) }
{
    let mut events = events;
    match events.next_event() {
        Ok(Some(event)) => match goes_on(alloc, reached, &event) {
            Ok(()) => Ok(()),
            Err(PlaceError::Memory) => Err(CourseError::Memory),
            Err(PlaceError::Fault(fault)) => Err(CourseError::Fault(CourseFault::Place(fault))),
        },
        Ok(None) => Err(CourseError::Fault(CourseFault::Place(PlaceFault::NoList))),
        Err(fault) => Err(CourseError::Fault(CourseFault::Group(GroupFault::Event(fault)))),
    }
}

/// The log of a file's bytes.
fn opened<'t, 'b>(table: &'t CrcTable, bytes: &'b [u8]) -> Result<Log<'t, 'b>, CourseError>
    ensures { GivesUnless meant log_value result (of_log (log_at bytes.now)) }
{
    match log_of(table, bytes) {
        Ok(log) => Ok(log),
        Err(fault) => Err(CourseError::Fault(CourseFault::Log(fault))),
    }
}

impl<'t, 'b> LogGroups<'t, 'b> {
    /// The groups of a file, where this position was reached before it and these XA transactions wait. Only its first
    /// events are read yet. An error is why the file isn't a log, or doesn't go on there, or want of memory.
    #[tactic(auto, unfolding(crate::specs::Course::course_at))]
    pub fn open(
        alloc: Global,
        table: &'t CrcTable,
        reached: GtidSet,
        waiting: Vec<Waiting<'b>>,
        bytes: &'b [u8],
    ) -> Result<LogGroups<'t, 'b>, CourseError>
        ensures reading { GivesUnless meant read_of result (course_at reached (map waiting_value waiting.entry.items) bytes.now) }
        ensures reached { IfOk result (λ a. a.reached ≡ reached) }
        // All bytes behind the format description are still to be read.
        ensures left { IfOk result (λ a. (log : LogValue) → log_at bytes.now ≡ Ok log → a.left ≡ log.left) }
        // These are just the groups that the file's transactions commit.
        ensures right { CoursesAreRead }
    {
        courses_are_read();
        let log = opened(table, bytes)?;
        begins(alloc, &reached, log.events)?;
        let log = opened(table, bytes)?;
        let groups = Groups::new(Transactions::new(log.events), waiting);
        Ok(LogGroups {
            groups,
            reached,
            in_use: log.in_use,
        })
    }

    /// The position that was reached: that behind the last group that was given, or at first the one before the log.
    pub fn reached(&self) -> &GtidSet
        ensures { result.now ≡ self.now.reached }
    {
        &self.reached
    }

    /// The next group, or `None` at the end, also where a log that its server still writes ends inside of a
    /// transaction. Behind a fault nothing is told of what is still to come.
    pub fn next_group(&mut self, alloc: Global) -> Result<Option<PlacedGroup<'b>>, CourseError>
        ensures { NextPlaced self.old (result_map_both (λ g. option_map placed_value g) (λ e. e) result) self.new }
    {
        match self.groups.next_group(alloc) {
            Ok(Some(group)) => place_group(alloc, &mut self.reached, group),
            Ok(None) => Ok(None),
            Err(error) => end_of(self.in_use, error),
        }
    }

    /// How many bytes of the log aren't read yet: those behind the last event that was read.
    pub fn bytes_left(&self) -> usize
        ensures { result ≡ self.now.left }
    {
        self.groups.bytes_left()
    }

    /// What waits behind the log, once its end was answered: for the log behind it.
    pub fn into_waiting(self) -> Vec<Waiting<'b>>
        ensures { self.entry.groups.items ≡ [] → self.entry.groups.fault ≡ None → map waiting_value result.items ≡ self.entry.waiting }
    {
        self.groups.into_waiting()
    }
}
