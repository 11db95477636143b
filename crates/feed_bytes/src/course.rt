//! What the events of a feed so far say of where it can be cut.

ghost use Rattle.std.specs.Prelude.{◌≡◌, ◌<◌, [], false, Some, None, OnOk, if◌then◌else◌};
ghost use Rattle.vevent.specs.Event.{event_at};
ghost use Rattle.source_feed.specs.PastEvents.{past_set_of_text};
ghost use Rattle.feed_bytes.specs.Private.FieldsBehind.{behind_named};
ghost use Rattle.feed_bytes.specs.Private.Course.{ended, ended_at, passed, place_of, shut, step_at, walked};

use crate::fields::{FieldBytes, with_field};
use crate::place::Source;
use gtid_set::{GtidFault, GtidSet};
use proto_wire::Parts;
use std::alloc::{AllocError, Global};
use std::marker::Model;
use vevent::Event;

/// An event that carries a position of the source.
#[derive(Drop)]
pub(crate) struct Place<'h> {
    event: &'h [u8],
    position: GtidSet,
}

impl<'h> Model for Place<'h> {
    ghost use Rattle.feed_bytes.specs.Private.Course.{PlaceValue};

    ghost Value = { PlaceValue };

    ghost view = { λ p. record { event = p.event.now; position = p.position } };
}

/// What is known behind some events of a feed.
#[derive(Drop)]
pub(crate) struct Course<'h> {
    /// a transaction is open
    inside: bool,
    /// its last position so far
    place: Option<Place<'h>>,
    /// an event that carries the last group's position
    last: &'h [u8],
    /// the last group's position, or the empty one
    reached: GtidSet,
    /// how many groups are left up to the cut
    left: u32,
    /// the FIELDs in force
    fields: Vec<FieldBytes<'h>>,
}

impl<'h> Model for Course<'h> {
    ghost use Rattle.feed_bytes.specs.Private.Course.{CourseValue};

    ghost Value = { CourseValue };

    ghost view = { λ c. record { inside = c.inside; place = c.place; last = c.last.now; reached = c.reached; left = c.left; fields = c.fields.items } };
}

impl<'h> Course<'h> {
    /// Before the first event, with so many groups up to the cut. Takes no memory.
    pub(crate) fn new(alloc: Global, left: u32) -> Course<'h>
        ensures { result ≡ record { inside = false; place = None; last = []; reached = []; left = left; fields = [] } }
    {
        Course {
            inside: false,
            place: None,
            last: &[],
            reached: GtidSet::new(),
            left,
            fields: Vec::new(alloc),
        }
    }

    /// How many groups are left up to the cut.
    pub(crate) fn left(&self) -> u32
        ensures { result ≡ self.now.left }
    {
        self.left
    }

    /// The event that carries the last group's position, and the FIELDs in force.
    pub(crate) fn into_parts(self) -> (&'h [u8], Vec<FieldBytes<'h>>)
        ensures last { result.0.now ≡ self.entry.last }
        ensures fields { result.1.items ≡ self.entry.fields }
    {
        (self.last, self.fields)
    }

    /// The open transaction ends.
    fn shut(&mut self)
        ensures { self.new ≡ shut self.old }
    {
        self.inside = false;
        self.place = None;
    }

    /// A block ends at a place: it is a group, unless it is a repeat.
    fn end_block(&mut self, place: Place<'h>)
        requires { 0 < self.old.left }
        ensures { self.new ≡ ended self.old place.entry }
    {
        if place.position.is_within(&self.reached) {
            return;
        }
        self.last = place.event;
        self.reached = place.position;
        self.left -= 1;
    }

    /// Goes on by a position: inside of a transaction it counts if no other follows, outside of one a block ends.
    fn pass(&mut self, place: Place<'h>)
        requires { 0 < self.old.left }
        ensures { self.new ≡ passed self.old (Some place.entry) }
    {
        if !self.inside {
            return self.end_block(place);
        }
        self.place = Some(place);
    }

    /// The same by the text of a position, which may be none.
    fn pass_text(&mut self, alloc: Global, bytes: &'h [u8], text: &str) -> Result<(), AllocError>
        requires { 0 < self.old.left }
        ensures { OnOk result (self.new ≡ passed self.old (place_of bytes.now (past_set_of_text (Some text.now)))) }
    {
        match GtidSet::parse(alloc, text) {
            Ok(position) => {
                self.pass(Place {
                    event: bytes,
                    position,
                });
                Ok(())
            }
            Err(GtidFault::Memory) => Err(AllocError),
            Err(_) => Ok(()),
        }
    }

    /// Goes on by a COMMIT, which ends the open transaction: a block, where a position stands in it.
    fn commit(&mut self)
        requires { 0 < self.old.left }
        ensures { self.new ≡ (if self.old.inside then ended_at (shut self.old) self.old.place else self.old) }
    {
        if !self.inside {
            return;
        }
        self.inside = false;
        if let Some(place) = self.place.take() {
            self.end_block(place);
        }
    }

    /// Goes on by a FIELD.
    fn put_field(
        &mut self,
        alloc: Global,
        source: &Source<'_>,
        name: &'h str,
        bytes: &'h [u8],
    ) -> Result<(), AllocError>
        ensures { OnOk result (self.new ≡ record self.old { fields = behind_named source.now self.old.fields bytes.now (Some name.now) }) }
    {
        self.fields = with_field(alloc, &self.fields, source, name, bytes)?;
        Ok(())
    }

    /// Goes on by an event; by bytes that are none it stays.
    fn see(&mut self, alloc: Global, source: &Source<'_>, bytes: &'h [u8]) -> Result<(), AllocError>
        requires { 0 < self.old.left }
        ensures { OnOk result (self.new ≡ step_at source.now self.old bytes.now (event_at bytes.now)) }
    {
        match Event::read(bytes) {
            Ok(Event::Begin) => {
                self.inside = true;
                self.place = None;
                Ok(())
            }
            Ok(Event::Commit) => {
                self.commit();
                Ok(())
            }
            Ok(Event::Rollback) => {
                self.shut();
                Ok(())
            }
            Ok(Event::Field(field)) => self.put_field(alloc, source, field.table_name(), bytes),
            Ok(Event::Gtid(text)) => self.pass_text(alloc, bytes, text),
            Ok(Event::Vgtid(vgtid)) => match source.own_gtid(&vgtid) {
                Some(text) => self.pass_text(alloc, bytes, text),
                None => Ok(()),
            },
            Ok(Event::Row(_)) => Ok(()),
            Ok(Event::Ignored(_)) => Ok(()),
            Err(_) => Ok(()),
        }
    }

    /// Goes on by a message's events, up to the one with which the last group up to the cut ends, if one does; the others
    /// are left.
    pub(crate) fn see_message(
        &mut self,
        alloc: Global,
        source: &Source<'_>,
        events: &mut Parts<'h>,
    ) -> Result<(), AllocError>
        requires { 0 < self.old.left }
        ensures { OnOk result (record { course = self.new; rest = events.new } ≡ walked source.now self.old events.old) }
    {
        while let Some(bytes) = events.next() {
            self.see(alloc, source, bytes)?;
            if self.left == 0 {
                return Ok(());
            }
        }
        Ok(())
    }
}
