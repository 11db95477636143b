//! All keys at which two sets of rows differ, one after another.

ghost use Rattle.std.specs.Prelude.{◌≡◌};
ghost use Rattle.std.specs.Iterator.{YieldsFirstBy, item_count};
ghost use Rattle.vdiff_patch.specs.AllDifferences.{differences_of};
ghost use Rattle.vdiff.specs.Found.{difference_of};

use crate::first::first_of;
use dump::DumpRows;
use pk_copy::Key;
use row_view::RowBuf;
use std::marker::Model;
use vdiff::Found;

/// The keys at which two sets of rows differ that are still to come, by rising key, each with the rows that stand
/// there. Found in one walk over both. Seen in contracts as the list of them. Takes no memory.
#[derive(Drop)]
pub struct Differences<'r> {
    source: &'r [(Key, RowBuf)],
    target: &'r [(Key, RowBuf)],
}

impl<'r> Model for Differences<'r> {
    ghost use Rattle.std.specs.Prelude.{List};
    ghost use Rattle.pk_copy.specs.KeyOrder.{key_cmp};
    ghost use Rattle.target_tables.specs.Rising.{IsRising};
    ghost use Rattle.vdiff_patch.specs.AllDifferences.{differences_of};
    ghost use Rattle.vdiff.specs.Differences.{Difference};

    ghost Value = { List Difference };

    ghost view = { λ d. differences_of d.source.now d.target.now };

    ghost invariant = { λ d. IsRising key_cmp d.source.now × IsRising key_cmp d.target.now };
}

impl<'r> Differences<'r> {
    /// Those of a source's rows and a target's.
    pub fn new(source: &'r DumpRows, target: &'r DumpRows) -> Differences<'r>
        ensures { result ≡ differences_of source.entry.now target.entry.now }
    {
        Differences {
            source: source.as_slice(),
            target: target.as_slice(),
        }
    }

    /// Takes the first one out. There is none exactly where the rows that are left are the same.
    fn take_first(&mut self) -> Option<Found<'r>>
        ensures { YieldsFirstBy difference_of (λ s. s) self.old result self.new }
    {
        match first_of(self.source, self.target) {
            None => None,
            Some(found) => {
                self.source = found.source_left;
                self.target = found.target_left;
                Some(found)
            }
        }
    }
}

impl<'r> Iterator for Differences<'r> {
    type Item = Found<'r>;

    ghost next_gives = { YieldsFirstBy difference_of (λ s. s) };

    ghost remaining = { item_count (λ s. s) };

    fn next(&mut self) -> Option<Found<'r>> {
        self.take_first()
    }
}
