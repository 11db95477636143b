//! The positions that are given for feeds.

ghost use Rattle.std.specs.Prelude.{◌≡◌, map};
ghost use Rattle.list_laws.specs.Outcome.{GivesUnless};
ghost use Rattle.std.specs.Prelude.{option_map};
ghost use Rattle.vrepl_choices.specs.UntilValue.{until_value};
ghost use Rattle.feed_ends.specs.Faults.{meant_of};
ghost use Rattle.feed_ends.specs.Positions.{is_of, name_some_of, names_one_of, position_for, read_end, read_ends};

use crate::fault::EndFault;
use gtid_set::GtidSet;
use std::alloc::Global;
use vrepl_choices::Until;

/// A position up to which a feed is read, or each feed.
#[derive(Drop)]
pub struct End {
    /// The stream whose feed it is, from 0; none for each of the feeds.
    pub stream: Option<u8>,
    /// The position.
    pub position: GtidSet,
}

/// Whether what is given for a stream, or for each, is for this one.
fn is_of(stream: Option<u8>, s: usize) -> bool
    ensures { result ≡ is_of s stream }
{
    match stream {
        None => true,
        Some(t) => usize::from(t) == s,
    }
}

/// Whether a stream that is named is one of so many.
fn names_one_of(until: &Until<'_>, count: usize) -> bool
    ensures { result ≡ names_one_of count (until_value until.now) }
{
    match until.stream {
        None => true,
        Some(t) => usize::from(t) < count,
    }
}

/// Whether each stream that is named is one of so many. Takes no memory.
pub(crate) fn name_some_of(untils: &[Until<'_>], count: usize) -> bool
    ensures { result ≡ name_some_of count (map until_value untils.now) }
{
    for until in untils {
        if !names_one_of(until, count) {
            return false;
        }
    }
    true
}

/// A text as its position. Refused `BadPosition`; any other error is want of memory.
fn read_end(alloc: Global, until: &Until<'_>) -> Result<End, EndFault>
    ensures { GivesUnless meant_of (λ end. end) result (read_end (until_value until.now)) }
{
    let position = GtidSet::parse(alloc, until.position)?;
    Ok(End {
        stream: until.stream,
        position,
    })
}

/// All texts as their positions, up to the first that is none.
pub(crate) fn read_ends(alloc: Global, untils: &[Until<'_>]) -> Result<Vec<End>, EndFault>
    ensures { GivesUnless meant_of (λ ends. ends.items) result (read_ends (map until_value untils.now)) }
{
    let mut ends = Vec::with_capacity(alloc, untils.len())?;
    for until in untils {
        let end = read_end(alloc, until)?;
        ends.push(end)?;
    }
    Ok(ends)
}

/// The position that is given for a stream: the last for it or for each.
pub(crate) fn position_for(ends: &[End], s: usize) -> Option<&GtidSet>
    ensures { option_map (λ position. position.now) result ≡ position_for s ends.now }
{
    let mut position = None;
    for end in ends {
        if is_of(end.stream, s) {
            position = Some(&end.position);
        }
    }
    position
}
