//! Positions as strings of JSON.

ghost use Rattle.std.specs.Prelude.{decimal};
ghost use Rattle.gtid_set.specs.Printed.{interval_text, printed_position};
ghost use Rattle.json.specs.Print.{escape, quoted};
ghost use Rattle.json_pieces.specs.Private.Intervals.{last_behind, uuid_behind};
ghost use Rattle.json_pieces.specs.Telling.{Tells, at};

use crate::escaped::put_escaped;
use crate::line::Line;
use gtid_set::{GtidSet, Interval, uuid_text};
use itoa::Buffer;
use printing::Out;

/// Puts a number.
fn put_digits<O: Out>(out: &mut O, line: &mut Line, number: u64)
    ensures { Tells (at (O.written out.old) line.old) (at (O.written out.new) line.new) (escape (decimal number)) }
{
    let mut digits = Buffer::new();
    put_escaped(out, line, digits.format(number).as_bytes());
}

/// Puts an interval's uuid, unless the interval before it has the same one.
fn put_uuid<O: Out>(out: &mut O, line: &mut Line, before: Option<u128>, interval: &Interval)
    ensures { Tells (at (O.written out.old) line.old) (at (O.written out.new) line.new) (escape (uuid_behind before interval.now)) }
{
    match before {
        None => put_escaped(out, line, &uuid_text(interval.uuid)),
        Some(uuid) => {
            if uuid != interval.uuid {
                put_escaped(out, line, b",");
                put_escaped(out, line, &uuid_text(interval.uuid));
            }
        }
    }
}

/// Puts the last number of an interval, where it isn't the first.
fn put_last<O: Out>(out: &mut O, line: &mut Line, first: u64, last: u64)
    ensures { Tells (at (O.written out.old) line.old) (at (O.written out.new) line.new) (escape (last_behind first last)) }
{
    if first != last {
        put_escaped(out, line, b"-");
        put_digits(out, line, last);
    }
}

/// Puts an interval behind one of this uuid, if there is one.
fn put_interval<O: Out>(out: &mut O, line: &mut Line, before: Option<u128>, interval: &Interval)
    ensures { Tells (at (O.written out.old) line.old) (at (O.written out.new) line.new) (escape (interval_text before interval.now)) }
{
    put_uuid(out, line, before, interval);
    put_escaped(out, line, b":");
    put_digits(out, line, interval.first);
    put_last(out, line, interval.first, interval.last);
}

/// Puts the intervals of a position.
fn put_intervals<O: Out>(out: &mut O, line: &mut Line, position: &GtidSet)
    ensures { Tells (at (O.written out.old) line.old) (at (O.written out.new) line.new) (escape (printed_position position.now)) }
{
    let mut before = None;
    for interval in position.intervals() {
        put_interval(out, line, before, interval);
        before = Some(interval.uuid);
    }
}

/// Puts a position as a string.
pub(crate) fn put_position<O: Out>(out: &mut O, line: &mut Line, position: &GtidSet)
    ensures { Tells (at (O.written out.old) line.old) (at (O.written out.new) line.new) (quoted (printed_position position.now)) }
{
    line.put(out, b"\"");
    put_intervals(out, line, position);
    line.put(out, b"\"");
}
