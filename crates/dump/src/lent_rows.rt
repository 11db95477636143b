//! Rows that are lent, one after another.

ghost use Rattle.std.specs.Prelude.{◌≡◌, MatchOption};
ghost use Rattle.std.specs.Iterator.{YieldsFirstBy};
ghost use Rattle.dump.specs.Private.Lent.{later_rows, lent};
ghost use Rattle.dump.specs.Private.Tables.{IsOtherFirst, IsTakenOf};

use pk_copy::Key;
use row_view::RowBuf;
use std::marker::Model;
use target_tables::Scan;

/// Where rows lie that are lent, by rising key.
#[derive(Drop)]
pub(crate) enum Later<'t> {
    /// In a target, whoever owns them.
    Target(Scan<'t, Key, RowBuf>),
    /// In memory of their own.
    Own(&'t [(Key, RowBuf)]),
}

impl<'t> Later<'t> {
    /// Takes the first row out, with its key.
    fn next(&mut self) -> Option<(&'t Key, &'t RowBuf)>
        ensures { YieldsFirstBy lent later_rows self.old result self.new }
    {
        match self {
            Later::Target(rows) => {
                let (key, _, row) = rows.next()?;
                Some((key, row))
            }
            Later::Own(rows) => {
                let ((key, row), behind) = rows.split_first()?;
                *rows = behind;
                Some((key, row))
            }
        }
    }
}

/// The rows that are still to come, by rising key, of which the first can be looked at. Seen in contracts as the
/// list of keys and rows.
#[derive(Drop)]
pub(crate) struct LentRows<'t> {
    first: Option<(&'t Key, &'t RowBuf)>,
    later: Later<'t>,
}

impl<'t> Model for LentRows<'t> {
    ghost use Rattle.std.specs.Option.{option_map};
    ghost use Rattle.target_tables.specs.Kept.{fetched};
    ghost use Rattle.dump.specs.Private.Lent.{later_rows, lent};
    ghost use Rattle.dump.specs.DumpRowsValue.{DumpRowsValue};

    ghost Value = { DumpRowsValue };

    ghost view = { λ l. fetched (option_map lent l.first) (later_rows l.later) };
}

impl<'t> LentRows<'t> {
    /// These rows.
    pub(crate) fn new(mut later: Later<'t>) -> LentRows<'t>
        ensures { result ≡ later_rows later.entry }
    {
        let first = later.next();
        LentRows { first, later }
    }

    /// Takes the first row out, where it is of table `t`.
    pub(crate) fn next_of(&mut self, t: usize) -> Option<&'t RowBuf>
        ensures { MatchOption result ((self.new ≡ self.old) × IsOtherFirst t self.old) (λ row. IsTakenOf t self.old row.now self.new) }
    {
        match self.first {
            None => None,
            Some((key, row)) => {
                if usize::from(key.table()) != t {
                    return None;
                }
                self.first = self.later.next();
                Some(row)
            }
        }
    }
}
