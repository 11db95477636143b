//! The columns that a filter lists.

ghost use Rattle.std.specs.Prelude.{◌≡◌, List, ℕ, [], ◌∷◌, IfOk, IfSome, IfNone, IsSome};
ghost use Rattle.filter_text.specs.ColumnList.{list_of, listed_in, has_column, has_twice};

use crate::column::first_column;
use std::alloc::{AllocError, Global};
use std::collections::BTreeSet;
use std::marker::Model;

/// The columns that a filter lists and that are still to come, in the listed order and lent from its
/// text. Seen in contracts as the list of their names.
#[derive(Debug, Drop)]
pub struct ColumnList<'t> {
    rest: &'t str,
}

impl<'t> Model for ColumnList<'t> {
    ghost use Rattle.std.specs.Prelude.{List, ℕ};
    ghost use Rattle.filter_text.specs.ColumnList.{listed_in, IsLeft};

    ghost Value = { List (List ℕ) };

    ghost view = { λ list. listed_in list.rest.now };

    ghost invariant = { λ list. IsLeft list.rest.now };
}

impl<'t> ColumnList<'t> {
    /// The list that a text begins with.
    pub(crate) fn new(text: &'t str) -> ColumnList<'t>
        requires { IsSome (list_of text.now) }
        ensures { result ≡ listed_in text.now }
    {
        ColumnList { rest: text }
    }

    /// The same columns from here on.
    pub fn again(&self) -> ColumnList<'t>
        ensures { result ≡ self.now }
    {
        ColumnList { rest: self.rest }
    }

    /// The name of the next column, or `None` behind the last. Takes no memory.
    pub fn next_column(&mut self) -> Option<&'t str>
        ensures some { IfSome result (λ name. self.old ≡ name.now ∷ self.new) }
        ensures none { IfNone result (self.old ≡ []) }
        ensures end { IfNone result (self.new ≡ self.old) }
    {
        let column = first_column(self.rest)?;
        self.rest = if column.is_last { "" } else { column.behind };
        Some(column.name)
    }

    /// Whether a column of this name is still to come. Takes no memory.
    pub fn has(&self, name: &str) -> bool
        ensures { result ≡ has_column name.now self.now }
    {
        let mut left = self.again();
        while let Some(column) = left.next_column() {
            if column == name {
                return true;
            }
        }
        false
    }

    /// Whether some column stands twice. Where memory is given, the list is read once; else it is read anew
    /// for each of its names, which takes none.
    pub(crate) fn has_twice(&self, alloc: Global) -> bool
        ensures { result ≡ has_twice self.now }
    {
        match self.repeats(alloc) {
            Ok(repeats) => repeats,
            Err(_) => self.has_again(),
        }
    }

    /// Whether some column stands twice, by the names that were seen before it.
    fn repeats(&self, alloc: Global) -> Result<bool, AllocError>
        ensures { IfOk result (λ twice. twice ≡ has_twice self.now) }
    {
        let mut seen: BTreeSet<&str> = BTreeSet::new(alloc);
        let mut left = self.again();
        while let Some(column) = left.next_column() {
            let is_new = seen.insert(column)?;
            if !is_new {
                return Ok(true);
            }
        }
        Ok(false)
    }

    /// Whether some column stands twice, by the columns behind each. Takes no memory.
    fn has_again(&self) -> bool
        ensures { result ≡ has_twice self.now }
    {
        let mut left = self.again();
        while let Some(column) = left.next_column() {
            if left.has(column) {
                return true;
            }
        }
        false
    }
}
