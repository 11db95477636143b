//! Groups as the steps of a target see them.

ghost use Rattle.std.specs.Prelude.{◌≡◌, ◌↔◌, [], ◌∷◌, IsTrue, IfSome, IfNone, ◌<◌, length};
ghost use Rattle.std.specs.Arc.{arc_value};
ghost use Rattle.std.specs.List.{filter};
ghost use Rattle.source_feed.specs.Prepared.{IsPrepared, IsSameGroup, IsSameOn, is_on};

use crate::touch::Touch;
use filter_rule::Plan;
use gtid_set::{GtidSet, same_set_is_equality};
use std::marker::Model;
use std::slice::Iter;
use std::sync::Arc;

/// A group of a feed with its touches: what it does to the rows of a target, key by key. The plan and the
/// position are shared.
#[derive(Drop)]
pub struct Prepared<'h> {
    pub(crate) plan: Arc<Plan>,
    pub(crate) number: u32,
    pub(crate) position: Arc<GtidSet>,
    pub(crate) touches: Vec<Touch<'h>>,
}

impl<'h> Model for Prepared<'h> {
    ghost use Rattle.std.specs.Arc.{arc_value};
    ghost use Rattle.source_feed.specs.Prepared.{IsPrepared};
    ghost use Rattle.source_feed.specs.Touches.{PreparedValue};

    ghost Value = { PreparedValue };

    ghost view = { λ p. record { plan = arc_value p.plan; number = p.number; position = arc_value p.position; touches = p.touches.items } };

    ghost invariant = { λ p. IsPrepared (record { plan = arc_value p.plan; number = p.number; position = arc_value p.position; touches = p.touches.items }) };
}

/// Whether two lists of touches are the same, touch by touch.
fn are_same(one: &[Touch<'_>], other: &[Touch<'_>]) -> bool
    ensures { IsTrue result ↔ (one.now ≡ other.now) }
{
    let mut touches = one.iter();
    let mut others = other.iter();
    loop {
        match (touches.next(), others.next()) {
            (None, None) => return true,
            (Some(touch), Some(other)) if touch.same(other) => {}
            _ => return false,
        }
    }
}

/// The next touch of one of the first so many tables; those of other tables are passed over.
fn next_on<'t, 'h>(touches: &mut Iter<'t, Touch<'h>>, tables: u8) -> Option<&'t Touch<'h>>
    ensures some { IfSome result (λ touch. filter (is_on tables) touches.old.rest.now ≡ touch.now ∷ filter (is_on tables) touches.new.rest.now) }
    ensures none { IfNone result (filter (is_on tables) touches.old.rest.now ≡ []) }
    ensures fewer { IfSome result (λ _. length touches.new.rest.now < length touches.old.rest.now) }
{
    while let Some(touch) = touches.next() {
        if touch.key().table() < tables {
            return Some(touch);
        }
    }
    None
}

/// Whether two lists of touches are the same on the first so many tables, touch by touch.
fn are_same_on(one: &[Touch<'_>], other: &[Touch<'_>], tables: u8) -> bool
    ensures { IsTrue result ↔ (filter (is_on tables) one.now ≡ filter (is_on tables) other.now) }
{
    let mut touches = one.iter();
    let mut others = other.iter();
    loop {
        match (next_on(&mut touches, tables), next_on(&mut others, tables)) {
            (None, None) => return true,
            (Some(touch), Some(other)) if touch.same(other) => {}
            _ => return false,
        }
    }
}

impl<'h> Prepared<'h> {
    /// The plan of the group's feed.
    pub fn plan(&self) -> &Arc<Plan>
        ensures { arc_value result.now ≡ self.now.plan }
    {
        &self.plan
    }

    /// The group's number in its feed, from 1.
    pub fn number(&self) -> u32
        ensures { result ≡ self.now.number }
    {
        self.number
    }

    /// The source's position after the group.
    pub fn position(&self) -> &GtidSet
        ensures { result.now ≡ self.now.position }
    {
        &self.position
    }

    /// The group's touches, in the order in which they are made. A later touch of a key goes over an
    /// earlier one.
    pub fn touches(&self) -> &[Touch<'h>]
        ensures touches { result.now ≡ self.now.touches }
        // What is true of every group with its touches.
        ensures whole { IsPrepared self.now }
    {
        self.touches.as_slice()
    }

    /// Whether the other is the same group: by number, position and touches, rows by their columns. The
    /// plans aren't compared. Takes no memory, and time in the bytes of both.
    pub fn same(&self, other: &Prepared<'_>) -> bool
        ensures { IsTrue result ↔ IsSameGroup self.now other.now }
    {
        same_set_is_equality();
        self.number == other.number
            && self.position() == other.position()
            && are_same(self.touches(), other.touches())
    }

    /// Whether the group is of a feed under this plan and has this number. The number is looked at first, so
    /// plans are compared only for the group that is asked for. Takes no memory.
    pub fn fits(&self, plan: &Plan, number: u32) -> bool
        ensures { IsTrue result ↔ ((self.now.plan ≡ plan.now) × (self.now.number ≡ number)) }
    {
        self.number == number && self.plan().same(plan)
    }

    /// Whether the other is the same group on the first so many tables: by number, position and the touches
    /// of these tables, rows by their columns. The plans and the touches of further tables aren't compared.
    /// Takes no memory, and time in the bytes of both.
    pub fn same_on(&self, other: &Prepared<'_>, tables: u8) -> bool
        ensures { IsTrue result ↔ IsSameOn tables self.now other.now }
    {
        same_set_is_equality();
        self.number == other.number
            && other.position() == self.position()
            && are_same_on(self.touches(), other.touches(), tables)
    }
}
