//! What is true of the first differences of any two sets of rows.

ghost use Rattle.std.specs.Prelude.{List};
ghost use Rattle.vdiff.specs.Differences.{AreFirstDifferences, Difference};

use dump::DumpRows;
use pk_copy::keys_tie_where_they_are_equal;

/// There are first differences, however many are asked for.
pub fn first_differences_are_there(source: &DumpRows, target: &DumpRows, count: u32)
    ensures { (found : List Difference) × AreFirstDifferences count source.now target.now found }
{
    keys_tie_where_they_are_equal();
    let _source = source.as_slice();
    let _target = target.as_slice();
    let _ = count;
}
