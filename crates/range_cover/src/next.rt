//! The next place behind an id at which a range begins or ends.

ghost use Rattle.std.specs.Prelude.{◌≡◌};
ghost use Rattle.std.specs.Option.{option_copied};
ghost use Rattle.range_cover.specs.Private.Next.{is_nearer, nearer, nearer_end, next_from};

use crate::share::Share;

/// Whether a bound lies behind an id and before the nearest one that is known.
fn is_nearer(id: &[u8], bound: &[u8], best: Option<&[u8]>) -> bool
    ensures { result ≡ is_nearer id.now bound.now (option_copied best.entry) }
{
    let is_before = match best {
        Some(best) => bound.cmp(best).is_lt(),
        None => true,
    };
    id.cmp(bound).is_lt() && is_before
}

/// The nearer of a bound and one that is known, behind an id.
fn nearer<'r>(id: &[u8], bound: &'r [u8], best: Option<&'r [u8]>) -> Option<&'r [u8]>
    ensures { option_copied result ≡ nearer id.now bound.entry.now (option_copied best.entry) }
{
    if is_nearer(id, bound, best) {
        Some(bound)
    } else {
        best
    }
}

/// The same of an end, which may be open.
fn nearer_end<'r>(id: &[u8], end: Option<&'r [u8]>, best: Option<&'r [u8]>) -> Option<&'r [u8]>
    ensures { option_copied result ≡ nearer_end id.now (option_copied end.entry) (option_copied best.entry) }
{
    match end {
        Some(end) => nearer(id, end, best),
        None => best,
    }
}

/// The nearest start or end of a range behind an id, or one that is known where none is nearer. Takes no memory.
pub(crate) fn next_from<'r>(
    id: &[u8],
    shares: &[Share<'r>],
    known: Option<&'r [u8]>,
) -> Option<&'r [u8]>
    ensures { option_copied result ≡ next_from id.now shares.now (option_copied known.entry) }
{
    let mut best = known;
    for share in shares {
        best = nearer(id, share.range.start(), best);
        best = nearer_end(id, share.range.end(), best);
    }
    best
}
