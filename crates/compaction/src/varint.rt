//! Numbers that are told in their shortest spelling.

ghost use Rattle.std.specs.Prelude.{◌≡◌, ◌≤◌, take};
ghost use Rattle.proto_wire.specs.Varint.{shortest};
ghost use Rattle.json_pieces.specs.Telling.{Tells, at};

use json_pieces::Line;
use printing::Out;

/// The shortest spelling of a number, and how many bytes it has, at most ten.
fn spelling_of(value: u64) -> ([u8; 10], usize)
    ensures few { result.1 ≤ 10 }
    ensures spelled { take result.1 result.0 ≡ shortest value }
{
    let mut bytes = [0u8; 10];
    let mut size = 0;
    let mut rest = value;
    while rest >= 128 {
        bytes[size] = (rest % 128) as u8 + 128;
        rest /= 128;
        size += 1;
    }
    bytes[size] = rest as u8;
    (bytes, size + 1)
}

/// Puts the shortest spelling of a number. Takes no memory.
pub(crate) fn put_number<O: Out>(out: &mut O, line: &mut Line, value: u64)
    ensures { Tells (at (O.written out.old) line.old) (at (O.written out.new) line.new) (shortest value) }
{
    if value < 128 {
        return line.put(out, &[value as u8]);
    }
    let (bytes, size) = spelling_of(value);
    line.put(out, &bytes[..size]);
}
