//! The ids of a range that no holder has, or several.

ghost use Rattle.std.specs.Prelude.{◌≡◌, ◌≢◌, IfOk, OnOk, length, IfSome, IsTrue};
ghost use Rattle.std.specs.Option.{option_copied};
ghost use Rattle.range_cover.specs.Cover.{AreMisfits, holders_of};
ghost use Rattle.range_cover.specs.Private.Next.{next_from, inside, with_wrong};
ghost use Rattle.vindex.specs.Bounds.{in_range};

use crate::holders::holders_of;
use crate::next::next_from;
use crate::share::Share;
use std::alloc::{AllocError, Global};
use std::marker::Model;
use vindex::KeyRange;

/// A range of ids that no holder has, or several: each of them the same.
#[derive(Drop)]
pub struct Misfit<'r> {
    start: &'r [u8],
    end: Option<&'r [u8]>,
    holders: Vec<usize>,
}

impl<'r> Model for Misfit<'r> {
    ghost use Rattle.std.specs.Option.{option_copied};
    ghost use Rattle.range_cover.specs.Cover.{MisfitValue};

    ghost Value = { MisfitValue };

    ghost view = { λ m. record { range = record { start = m.start.now; end = option_copied m.end }; holders = m.holders.items } };
}

impl<'r> Misfit<'r> {
    /// The first of the ids. Takes no memory.
    pub fn start(&self) -> &'r [u8]
        ensures { result.now ≡ self.now.range.start }
    {
        self.start
    }

    /// Where the ids end; `None` is for a range that is open above. Takes no memory.
    pub fn end(&self) -> Option<&'r [u8]>
        ensures { option_copied result ≡ self.now.range.end }
    {
        self.end
    }

    /// Who has the ids: no one, or several, in the order of the ranges. Takes no memory.
    pub fn holders(&self) -> &[usize]
        ensures { result.now ≡ self.now.holders }
    {
        self.holders.as_slice()
    }
}

/// Puts a range of ids behind others, unless one holder alone has them.
fn push_wrong<'r>(
    start: &'r [u8],
    end: Option<&'r [u8]>,
    holders: Vec<usize>,
    found: &mut Vec<Misfit<'r>>,
) -> Result<(), AllocError>
    ensures { OnOk result (found.new.items ≡ with_wrong start.entry.now (option_copied end.entry) holders.items found.old.items) }
{
    if holders.len() != 1 {
        found.push(Misfit {
            start,
            end,
            holders,
        })?;
    }
    Ok(())
}

/// A place, if the range has it.
fn inside<'r>(whole: &KeyRange, place: Option<&'r [u8]>) -> Option<&'r [u8]>
    ensures { option_copied result ≡ inside whole.now (option_copied place.entry) }
{
    match place {
        Some(place) if whole.holds(place) => Some(place),
        _ => None,
    }
}

/// The ids of a range that no holder has or that several have, by the ranges that holders have: ranges of ids,
/// in each of which all ids have the same holders. There are none where each id of the whole is in just one of the
/// ranges. An error is want of memory.
pub fn misfits<'r>(
    alloc: Global,
    whole: &'r KeyRange,
    shares: &[Share<'r>],
) -> Result<Vec<Misfit<'r>>, AllocError>
    ensures { IfOk result (λ found. AreMisfits whole.entry.now shares.now found.items) }
{
    let mut found = Vec::new(alloc);
    let last = whole.end();
    let mut place = Some(whole.start());
    while let Some(start) = place {
        let end = next_from(start, shares, last);
        let holders = holders_of(alloc, shares, start)?;
        push_wrong(start, end, holders, &mut found)?;
        place = inside(whole, end);
    }
    Ok(found)
}
