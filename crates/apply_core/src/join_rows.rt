//! The rows of two boards that are joined: from which of the two each stream's come, and the first that clash.

ghost use Rattle.std.specs.Prelude.{◌≡◌, ◌<◌, ◌∷◌, ◌++◌, [], List, length, IfOk, IfErr, MatchOption};
ghost use Rattle.board_laws.specs.Chosen.{all_chosen};
ghost use Rattle.board_laws.specs.Compatible.{AreApart};
ghost use Rattle.apply_core.specs.Private.Beside.{plans_in};
ghost use Rattle.apply_core.specs.Private.Meeting as meetings;
ghost use Rattle.apply_core.specs.Private.Meeting.{IsFurther, AreFurtherSides, Met, AreOrdered, NoneClash, IsFirstMet};
ghost use Rattle.apply_core.specs.Private.Together.{AreNotTogether};

use crate::board::Board;
use board_laws::JoinFault;
use pk_copy::{Key, keys_tie_where_they_are_equal};
use row_view::RowBuf;
use std::alloc::{AllocError, Global};
use target_tables::{Common, MergeSide, comes_from};

/// Two rows at one key, of which a join would keep both.
#[derive(Clone, Copy)]
pub(crate) struct Meeting<'t> {
    key: &'t Key,
    /// the later of the two streams
    later: u8,
    /// the other one
    lower: u8,
}

/// Whether stream `s` is further on in the second board. Takes no memory.
fn is_further(a: &Board<'_>, b: &Board<'_>, s: usize) -> bool
    requires plans { plans_in a.now.streams ≡ plans_in b.now.streams }
    requires inside { s < length a.now.streams }
    ensures { IsFurther a.now.streams b.now.streams s result }
{
    a.streams[s].is_behind(&b.streams[s])
}

/// The side from which a stream comes that is further on in the second board, or isn't.
fn side_from(further: bool) -> MergeSide
    ensures { result ≡ meetings.side_by further }
{
    if further {
        MergeSide::Second
    } else {
        MergeSide::First
    }
}

/// Each stream comes from the board in which it is further on. An error is want of memory.
fn sides_of(alloc: Global, a: &Board<'_>, b: &Board<'_>) -> Result<Vec<MergeSide>, AllocError>
    requires { plans_in a.now.streams ≡ plans_in b.now.streams }
    ensures { IfOk result (λ sides. AreFurtherSides a.now.streams b.now.streams sides.items) }
{
    let mut sides = Vec::with_capacity(alloc, a.streams.len())?;
    let mut s = 0;
    while s < a.streams.len() {
        sides.push(side_from(is_further(a, b, s)))?;
        s += 1;
    }
    Ok(sides)
}

/// Both rows would stay: the one's stream comes from the first board, the other's from the second.
fn clashes(sides: &[MergeSide], here: u8, there: u8) -> bool
    ensures { result ≡ meetings.clashes sides.now here there }
{
    if comes_from(sides, MergeSide::First, here) {
        comes_from(sides, MergeSide::Second, there)
    } else {
        false
    }
}

/// Two streams' rows at a key.
fn meet<'t>(key: &'t Key, here: u8, there: u8) -> Meeting<'t>
    ensures key { result.key.now ≡ key.now }
    ensures order { AreOrdered here there result.later result.lower }
{
    if here < there {
        return Meeting {
            key,
            later: there,
            lower: here,
        };
    }
    Meeting {
        key,
        later: here,
        lower: there,
    }
}

/// The first rows that clash among those that were seen and two more at the next key.
fn keep_first<'t>(
    sides: &[MergeSide],
    first: Option<Meeting<'t>>,
    key: &'t Key,
    here: u8,
    there: u8,
) -> Option<Meeting<'t>>
    ensures { (seen : List Met)
        → MatchOption first.entry (NoneClash sides.now seen) (λ met. IsFirstMet sides.now seen met.key.now met.later met.lower)
        → MatchOption result (NoneClash sides.now (seen ++ (key.now, (here, there)) ∷ [])) (λ met. IsFirstMet sides.now (seen ++ (key.now, (here, there)) ∷ []) met.key.now met.later met.lower) }
{
    let clash = clashes(sides, here, there);
    let met = meet(key, here, there);
    match first {
        None => { if clash { Some(met) } else { None } }
        Some(earlier) => {
            if !clash {
                Some(earlier)
            } else if met.later < earlier.later {
                Some(met)
            } else {
                Some(earlier)
            }
        }
    }
}

/// Of the keys that two boards' rows both have the first at which both would stay: that of the least later
/// stream, and of these the least. Takes no memory.
fn first_met<'t>(sides: &[MergeSide], mut keys: Common<'t, Key, RowBuf>) -> Option<Meeting<'t>>
    ensures { MatchOption result (NoneClash sides.now keys.entry) (λ met. IsFirstMet sides.now keys.entry met.key.now met.later met.lower) }
{
    let mut first: Option<Meeting<'t>> = None;
    while let Some((key, here, there)) = keys.next_key() {
        first = keep_first(sides, first, key, here, there);
    }
    first
}

/// Each stream of two boards from the one in which it is further on, or why the rows of the further states can't
/// stand together. Goes once over the rows of both.
pub(crate) fn choose_sides(
    alloc: Global,
    a: &Board<'_>,
    b: &Board<'_>,
) -> Result<Vec<MergeSide>, JoinFault>
    requires { plans_in a.now.streams ≡ plans_in b.now.streams }
    ensures sides { IfOk result (λ sides. AreFurtherSides a.now.streams b.now.streams sides.items) }
    ensures apart { IfOk result (λ _. AreApart (all_chosen a.now.streams b.now.streams)) }
    ensures err { IfErr result (AreNotTogether (all_chosen a.now.streams b.now.streams)) }
{
    keys_tie_where_they_are_equal();
    a.is_lawful();
    b.is_lawful();
    let sides = sides_of(alloc, a, b)?;
    let Some(met) = first_met(&sides, a.rows.common(&b.rows)) else {
        return Ok(sides);
    };
    Err(JoinFault::OwnedByOther {
        key: met.key.try_clone(alloc)?,
        owner: met.lower,
    })
}
