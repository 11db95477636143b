//! What a filter's text says.

ghost use Rattle.std.specs.Prelude.{◌≡◌, ℕ, List, Option, IfOk, Some};
ghost use Rattle.filter_text.specs.FilterText.{RowsSaid, FilterMeaning, selected, Says, begins_with_select, filter_of};
ghost use Rattle.filter_text.specs.Spelling.{IsSpelling};
ghost use Rattle.filter_text.specs.Views.{Reads, meaning};

use crate::fault::FilterFault;
use crate::form::{key_range, selection};
use crate::list::ColumnList;
use crate::tokens::first_word;
use std::alloc::Global;
use vindex::{KeyRange, Vindex};

/// Which rows a filter names.
#[derive(Debug, Drop)]
pub enum Rows<'t> {
    /// Every row.
    EveryRow,
    /// The rows whose id under the table's own vindex is in a key range.
    OwnVindex {
        /// The ids that pass.
        range: KeyRange,
    },
    /// The rows whose id is in a key range under a column and a vindex that the filter names.
    Named {
        /// The column's name.
        column: &'t str,
        /// How the column's value gets its id.
        vindex: Vindex,
        /// The ids that pass.
        range: KeyRange,
    },
}

/// What a filter's text says, with names lent from the text.
#[derive(Debug, Drop)]
pub struct Filter<'t> {
    /// The table that the filter selects from, if it is a `select`.
    pub table: Option<&'t str>,
    /// The columns that it lists, one or more and none of them twice; `None`, where it keeps all.
    pub columns: Option<ColumnList<'t>>,
    /// The rows.
    pub rows: Rows<'t>,
}

fn begins_with_select(text: &str) -> bool
    ensures { result ≡ begins_with_select text.now }
{
    first_word(text).eq_ignore_ascii_case("select")
}

impl<'t> Filter<'t> {
    /// Reads a filter's text: nothing, for every row; a key range under the table's own vindex; or,
    /// where its first word is `select`, `select * from` a table, or the names of columns parted by
    /// commas in place of the `*`, for every row of it or `where in_keyrange` says. Key words are in any
    /// case, blanks, tabs, CR and LF may part tokens, and a name between backquotes is never a key word;
    /// without backquotes `from` is no column's name in a list. `BadForm` is for every other text, also
    /// for one that lists a column twice or whose vindex or key range is none, whatever memory there is;
    /// which tables and columns there are isn't asked. Memory is taken for the bounds of a key range
    /// alone, behind all judgement: `Memory` where the allocator gave none for a text that is a filter.
    pub fn parse(alloc: Global, text: &'t str) -> Result<Filter<'t>, FilterFault>
        ensures exact { Reads meaning result (filter_of text.now) }
        // What is read is what the text says.
        ensures says { IfOk result (λ filter. Says text.now (meaning filter)) }
        // What a text says is read, unless memory ran out; what says nothing is refused as such.
        ensures only { (said : FilterMeaning) → Says text.now said → Reads meaning result (Some said) }
        // Each selection has a text, and that text is read as it.
        ensures spelled { (table : List ℕ) (columns : Option (List (List ℕ))) (range : List ℕ) (rows : RowsSaid)
            → IsSpelling text.now table columns range rows → Reads meaning result (Some (selected table columns rows)) }
    {
        filter_of(alloc, text)
    }
}

/// What a text says.
#[tactic(auto, unfolding(crate::specs::FilterText::filter_of))]
fn filter_of(alloc: Global, text: &str) -> Result<Filter<'_>, FilterFault>
    ensures { Reads meaning result (filter_of text.now) }
{
    if text.is_empty() {
        return Ok(Filter {
            table: None,
            columns: None,
            rows: Rows::EveryRow,
        });
    }
    if begins_with_select(text) {
        return selection(alloc, text);
    }
    let range = key_range(alloc, text)?;
    Ok(Filter {
        table: None,
        columns: None,
        rows: Rows::OwnVindex { range },
    })
}
