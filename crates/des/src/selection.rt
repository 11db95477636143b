//! Bits of a block by a table's places.

ghost use Rattle.std.specs.Prelude.{◌≡◌, ◌≤◌, ◌&&◌, nat_lt, nat_le, length, IsTrue};
ghost use Rattle.std.specs.List.{list_all};
ghost use Rattle.des.specs.Des.{selected};

/// The bits of a block of some width that a table names, in the table's order.
pub(crate) fn selected(table: &[u8], width: u32, block: u64) -> u64
    requires places { IsTrue (list_all (λ place. nat_lt 0 place && nat_le place width) table.now) }
    requires width { width ≤ 64 }
    requires fits { length table.now ≤ 64 }
    ensures { result ≡ selected table.now width block }
{
    let mut bits = 0;
    for place in table {
        bits = bits * 2 + (block >> (width - u32::from(*place))) % 2;
    }
    bits
}
