//! The groups of a feed.

ghost use Rattle.std.specs.Prelude.{◌≡◌, ◌↔◌, [], IsTrue, length, map, slice_get};
ghost use Rattle.std.specs.Iterator.{YieldsFirstBy, item_count};
ghost use Rattle.source_feed.specs.Private.FeedTables.{names_in};
ghost use Rattle.source_feed.specs.Private.KeptGroups.{named_group};
ghost use Rattle.source_feed.specs.Private.NamedGroups.{all_named};

use crate::feed_tables::FeedTables;
use crate::group::Group;
use crate::kept::{KeptGroup, KeptGroups};
use std::marker::Model;
use std::slice::Iter;

/// The groups of a feed, which are lent one after another or by their place. Seen in contracts as the list of
/// them. A group takes 96 bytes at most and each of its changes 40: a change has its table's place among the
/// feed's tables, and the slices of its rows in the feed's buffer.
#[derive(Drop)]
pub struct Groups<'h> {
    kept: KeptGroups<'h>,
}

impl<'h> Model for Groups<'h> {
    ghost use Rattle.source_feed.specs.GroupValue.{GroupsValue};
    ghost use Rattle.source_feed.specs.Private.NamedGroups.{all_named};

    ghost Value = { GroupsValue };

    ghost view = { λ g. record { items = all_named g.kept } };
}

impl<'h> Groups<'h> {
    /// The groups as they were read.
    pub(crate) fn new(kept: KeptGroups<'h>) -> Groups<'h>
        ensures { result.items ≡ all_named kept.entry }
    {
        Groups { kept }
    }

    /// How many groups the feed has.
    pub fn len(&self) -> usize
        ensures { result ≡ length self.now.items }
    {
        self.kept.groups.len()
    }

    /// Whether the feed has no group.
    pub fn is_empty(&self) -> bool
        ensures { IsTrue result ↔ (self.now.items ≡ []) }
    {
        self.kept.groups.is_empty()
    }

    /// The group at a place, from 0.
    pub fn get(&self, place: usize) -> Option<Group<'_, 'h>>
        ensures { result ≡ slice_get self.now.items place }
    {
        group_at(&self.kept.tables, self.kept.groups.as_slice(), place)
    }

    /// The groups one after another.
    pub fn iter(&self) -> EachGroup<'_, 'h>
        ensures { result ≡ self.now.items }
    {
        EachGroup {
            tables: &self.kept.tables,
            left: self.kept.groups.iter(),
        }
    }
}

/// The group at a place, from 0.
fn group_at<'g, 'h>(
    tables: &'g FeedTables<'h>,
    groups: &'g [KeptGroup<'h>],
    place: usize,
) -> Option<Group<'g, 'h>>
    ensures { result ≡ slice_get (map (named_group (names_in tables.now)) groups.now) place }
{
    match groups.get(place) {
        None => None,
        Some(kept) => Some(Group::new(tables, kept)),
    }
}

/// The groups of a feed that are still to come. Seen in contracts as the list of them.
#[derive(Drop)]
pub struct EachGroup<'g, 'h> {
    tables: &'g FeedTables<'h>,
    left: Iter<'g, KeptGroup<'h>>,
}

impl<'g, 'h> Model for EachGroup<'g, 'h> {
    ghost use Rattle.std.specs.Prelude.{List, map};
    ghost use Rattle.source_feed.specs.GroupValue.{GroupValue};
    ghost use Rattle.source_feed.specs.Private.FeedTables.{names_in};
    ghost use Rattle.source_feed.specs.Private.KeptGroups.{named_group};

    ghost Value = { List GroupValue };

    ghost view = { λ a. map (named_group (names_in a.tables.now)) a.left.rest.now };
}

impl<'g, 'h> Iterator for EachGroup<'g, 'h> {
    type Item = Group<'g, 'h>;

    ghost next_gives = { YieldsFirstBy (λ group. group) (λ rest. rest) };

    ghost remaining = { item_count (λ rest. rest) };

    #[inline(always)]
    fn next(&mut self) -> Option<Group<'g, 'h>> {
        let kept = self.left.next()?;
        Some(Group::new(self.tables, kept))
    }
}
