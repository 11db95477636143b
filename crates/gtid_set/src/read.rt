//! The intervals that a position text names.

ghost use Rattle.std.specs.Prelude.{◌≡◌, List, Ok, IfOk, IfErr};
ghost use Rattle.gtid_set.specs.declared.interval.Interval.{Interval as IntervalValue};
ghost use Rattle.gtid_set.specs.Inner.Kept.{intervals_listed, Keeps, ReadsIntervals, RefusedBy};
ghost use Rattle.list_laws.specs.Outcome.{Gives};
ghost use Rattle.gtid_set.specs.Blank.{parts_between};
ghost use Rattle.gtid_set.specs.Text.{all_of, intervals_of_piece, intervals_of_part, without_flavor, intervals_of_text, put_before, within_limit};

use crate::digits::{number, uuid};
use crate::fault::GtidFault;
use crate::interval::Interval;
use crate::intervals::Intervals;
use crate::named::Named;
use crate::text::{cut, trimmed};
use std::alloc::Global;

/// The greatest length of a position text, in bytes.
const TEXT_LIMIT: usize = 1_048_576;

/// Adds the interval `m` or `m-n` of a uuid, if it holds a number.
#[tactic(auto, unfolding(crate::specs::Text::intervals_of_piece))]
fn push_piece(named: &mut Named, alloc: Global, uuid: u128, piece: &[u8]) -> Result<(), GtidFault>
    ensures { (front : List IntervalValue) → Keeps named.old front → ReadsIntervals result named.new (put_before front (intervals_of_piece uuid piece.now)) }
{
    let (lower, upper) = cut(piece, b'-');
    let first = number(lower, 1)?;
    let last = match upper {
        Some(text) => number(text, 0)?,
        None => first,
    };
    if first <= last {
        named.put(alloc, Interval { uuid, first, last });
    }
    Ok(())
}

/// Adds the intervals of a uuid that stand between colons.
fn push_pieces(named: &mut Named, alloc: Global, uuid: u128, text: &[u8]) -> Result<(), GtidFault>
    ensures { (front : List IntervalValue) → Keeps named.old front → ReadsIntervals result named.new (put_before front (all_of (intervals_of_piece uuid) (parts_between 58 text.now))) }
{
    let mut rest = Some(text);
    while let Some(pieces) = rest {
        let (piece, others) = cut(pieces, b':');
        push_piece(named, alloc, uuid, piece)?;
        rest = others;
    }
    Ok(())
}

/// Adds the intervals of a part, which has no blanks at its ends.
fn push_part(named: &mut Named, alloc: Global, part: &[u8]) -> Result<(), GtidFault>
    ensures { (front : List IntervalValue) → Keeps named.old front → ReadsIntervals result named.new (put_before front (intervals_of_part part.now)) }
{
    if part.is_empty() {
        return Ok(());
    }
    if part.len() < 36 {
        return Err(GtidFault::BadUuid);
    }
    let Some(uuid) = uuid(&part[..36]) else {
        return Err(GtidFault::BadUuid);
    };
    if part.len() == 36 || part[36] != b':' {
        return Err(GtidFault::Syntax);
    }
    push_pieces(named, alloc, uuid, &part[37..])
}

/// The text behind its flavor, if it has one.
fn without_flavor(text: &[u8]) -> Result<&[u8], GtidFault>
    ensures { Gives (λ rest. rest.now) result (without_flavor text.now) }
{
    match cut(text, b'/') {
        (b"MySQL56", Some(rest)) => Ok(rest),
        (_, Some(_)) => Err(GtidFault::Flavor),
        (_, None) => Ok(text),
    }
}

/// All intervals that a text names, in its order. Its own faults are told before want of memory,
/// which comes only where it names two intervals or more.
#[tactic(auto, unfolding(crate::specs::Text::within_limit, crate::specs::Text::intervals_of_text))]
pub(crate) fn intervals_of(alloc: Global, text: &[u8]) -> Result<Intervals, GtidFault>
    ensures named { IfOk result (λ intervals. within_limit text.now ≡ Ok (intervals_listed intervals)) }
    ensures refused { IfErr result (λ fault. RefusedBy fault (within_limit text.now)) }
{
    if text.len() > TEXT_LIMIT {
        return Err(GtidFault::TooLarge);
    }
    let parts = without_flavor(trimmed(text))?;
    let mut named = Named::Kept(Intervals::Empty);
    let mut rest = Some(parts);
    while let Some(parts) = rest {
        let (part, others) = cut(parts, b',');
        push_part(&mut named, alloc, trimmed(part))?;
        rest = others;
    }
    match named {
        Named::Kept(intervals) => Ok(intervals),
        Named::Wanting => Err(GtidFault::Memory),
    }
}
