//! The tables that a feed names, with what is known of each.

ghost use Rattle.std.specs.Prelude.{◌≡◌, ℕ, List, Option, [], ◌++◌, ◌^◌, ◌≤◌, None, Some, length, OnOk, IfSome, IfOk, option_map, get_or, if◌then◌else◌};
ghost use Rattle.std.specs.Str.{bytes_eq};
ghost use Rattle.filter_rule.specs.PlanValue.{PlanValue};

use indexmap::IndexMap;
use std::alloc::{AllocError, Global};
use std::collections::hash_map::DefaultHasher;
use std::hash::BuildHasherDefault;

/// What is known of a table.
#[derive(Clone, Copy)]
pub(crate) struct FeedTable {
    /// how many columns its last FIELD has; more than 65,535 count as 65,535, since no row has more than 256
    columns: u16,
    /// its number in the plan, where there is a plan that has it
    number: Option<u8>,
}

/// The tables that FIELD events have named, in the order in which each was first seen; found by the table's
/// name, and then by its place in that order. Names are hashed by SipHash, under which no one knows how to make
/// many names of one hash.
#[derive(Drop)]
pub(crate) struct FeedTables<'h> {
    first_seen: IndexMap<&'h str, FeedTable, BuildHasherDefault<DefaultHasher>>,
}

impl<'h> FeedTables<'h> {
    ghost use Rattle.source_feed.specs.Private.FeedTables.{width_in, names_in, numbers_in, names_behind, number_under, AreNumbered};

    /// No table is known. Takes no memory.
    pub(crate) fn new(alloc: Global) -> FeedTables<'h>
        ensures widths { (name : List ℕ) → width_in result name ≡ None }
        ensures order { names_in result ≡ [] }
        ensures numbers { (plan : Option PlanValue) → AreNumbered plan result }
    {
        FeedTables {
            first_seen: IndexMap::with_hasher(alloc, BuildHasherDefault::new()),
        }
    }

    /// The same tables once more.
    pub(crate) fn copy(&self) -> Result<FeedTables<'h>, AllocError>
        ensures widths { IfOk result (λ copy. (name : List ℕ) → width_in copy name ≡ width_in self.now name) }
        ensures order { IfOk result (λ copy. names_in copy ≡ names_in self.now) }
        ensures numbers { IfOk result (λ copy. numbers_in copy ≡ numbers_in self.now) }
    {
        Ok(FeedTables {
            first_seen: self.first_seen.clone()?,
        })
    }

    /// A table's place and its number of columns, if it is known. However many tables follow, the place has
    /// the table's name. The table at a place that is told is looked at before any name is hashed. That there
    /// are no more than 2^32 tables is the caller's.
    pub(crate) fn find(&self, told: u32, table: &str) -> Option<(u32, u16)>
        requires { length (names_in self.now) ≤ 2 ^ 32 }
        ensures columns { option_map (λ found. found.1) result ≡ width_in self.now table.now }
        ensures place { IfSome result (λ found. (later : List (List ℕ)) → get_or (names_in self.now ++ later) found.0 [] ≡ table.now) }
    {
        if let Some((name, known)) = self.first_seen.get_index(told as usize) {
            if *name == table {
                return Some((told, known.columns));
            }
        }
        let (place, _, known) = self.first_seen.get_full(table)?;
        Some((place as u32, known.columns))
    }

    /// The name of the table at a place; the empty one behind the last.
    pub(crate) fn name(&self, place: u32) -> &'h str
        ensures { result.now ≡ get_or (names_in self.now) place [] }
    {
        match self.first_seen.get_index(place as usize) {
            None => "",
            Some((name, _)) => *name,
        }
    }

    /// The number in the plan of the table at a place, where the plan has it.
    pub(crate) fn number(&self, place: u32) -> Option<u8>
        ensures { result ≡ get_or (numbers_in self.now) place None }
    {
        match self.first_seen.get_index(place as usize) {
            None => None,
            Some((_, known)) => known.number,
        }
    }

    /// Sets a table's number of columns, and its number in the plan. A new table goes behind the others; a
    /// known one keeps its place.
    pub(crate) fn set(
        &mut self,
        table: &'h str,
        columns: u16,
        number: Option<u8>,
    ) -> Result<(), AllocError>
        ensures widths { OnOk result ((name : List ℕ) → width_in self.new name ≡ (if bytes_eq table.now name then Some columns else width_in self.old name)) }
        ensures order { OnOk result (names_in self.new ≡ names_behind (names_in self.old) table.now) }
        ensures numbers { OnOk result ((plan : Option PlanValue) → number ≡ number_under plan table.now → AreNumbered plan self.old → AreNumbered plan self.new) }
    {
        self.first_seen
            .insert(table, FeedTable { columns, number })?;
        Ok(())
    }
}
