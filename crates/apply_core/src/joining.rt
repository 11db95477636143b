//! Two boards joined to one.

ghost use Rattle.std.specs.Prelude.{◌≡◌, ◌↔◌, List, length, IfOk, IfErr, OnOk, IsTrue, MatchOption};
ghost use Rattle.board_laws.specs.Chosen.{chosen, all_chosen};
ghost use Rattle.board_laws.specs.Compatible.{plans_of_board, OfEachStream, AreAlike, AreCompatible};
ghost use Rattle.board_laws.specs.Joined.{joined};
ghost use Rattle.board_laws.specs.JoinLaws.{JoinsCommute, JoinsWithItself, JoinsAssociate, RunningJoinsByWhatIsRead, DisjointFeedsCanBeJoined};
ghost use Rattle.board_laws.specs.RefusedJoin.{IsFirstNot, IsRefusedJoin};
ghost use Rattle.apply_core.specs.Private.Beside.{plans_in, Premise, Passes};
ghost use Rattle.apply_core.specs.Private.Meeting.{AreFurtherSides};
ghost use Rattle.apply_core.specs.Private.Together.{IsJoinSource};
ghost use Rattle.board_laws.specs.declared.join_fault.JoinFault.TheVariants.{Memory};
ghost use Rattle.source_feed.specs.Planned.{FeedValue};
ghost use Rattle.apply_core.specs.Ended.{IsFedBoard};

use crate::beside::{Test, first_not};
use crate::board::Board;
use crate::join_rows::choose_sides;
use crate::stream::Stream;
use board_laws::{
    JoinFault, boards_can_be_joined, joined_boards_are_lawful, joins_are_a_greatest_board,
};
use pk_copy::keys_tie_where_they_are_equal;
use std::alloc::Global;
use std::mem::swap;
use target_tables::{MergeSide, merge};

/// Two boards that aren't joined, as they were, and why.
#[derive(Drop)]
pub struct JoinRefusal<'h> {
    pub why: JoinFault,
    pub a: Board<'h>,
    pub b: Board<'h>,
}

/// Where the streams of a join come from.
#[derive(Drop)]
pub(crate) enum JoinSource {
    /// All from the first board.
    First,
    /// All from the second board.
    Second,
    /// From both: each stream from the board in which it is further on.
    Both(Vec<MergeSide>),
}

/// The first stream whose states on the two boards don't pass a test, if any. Takes no memory.
fn first_stream_not(test: Test, a: &Board<'_>, b: &Board<'_>) -> Option<u8>
    requires both { length a.now.streams ≡ length b.now.streams }
    requires premise { OfEachStream (Premise test) a.now.streams b.now.streams }
    ensures { MatchOption result (OfEachStream (Passes test) a.now.streams b.now.streams) (IsFirstNot (Passes test) a.now.streams b.now.streams) }
{
    first_not(test, &a.streams, &b.streams)
}

/// Whether the boards have the same plans. Takes no memory.
fn have_same_plans(a: &Board<'_>, b: &Board<'_>) -> bool
    ensures { IsTrue result ↔ (plans_of_board a.now ≡ plans_of_board b.now) }
{
    if a.len() != b.len() {
        return false;
    }
    match first_stream_not(Test::OnePlan, a, b) {
        None => true,
        Some(_) => false,
    }
}

/// What a join asks of the streams, rows aside: their plans are the same, and of each stream one read list is a
/// beginning of the other. Takes no memory.
fn judge(a: &Board<'_>, b: &Board<'_>) -> Result<(), JoinFault>
    ensures ok { OnOk result (AreAlike a.now b.now) }
    ensures err { IfErr result (IsRefusedJoin a.now b.now) }
{
    if !have_same_plans(a, b) {
        return Err(JoinFault::WrongPlan);
    }
    match first_stream_not(Test::OneHistory, a, b) {
        Some(s) => Err(JoinFault::HistoriesDiffer(s)),
        None => Ok(()),
    }
}

/// No stream is further on in the second board than in the first. Takes no memory.
fn holds_all(a: &Board<'_>, b: &Board<'_>) -> bool
    requires { AreAlike a.now b.now }
    ensures { IsTrue result → all_chosen a.now.streams b.now.streams ≡ a.now.streams }
{
    match first_stream_not(Test::NoFurther, a, b) {
        None => true,
        Some(_further) => false,
    }
}

/// Where the streams of a join come from, or why the boards aren't joined.
#[tactic(auto, using(crate::proofs::JoinLaws::turned))]
fn find_source(alloc: Global, a: &Board<'_>, b: &Board<'_>) -> Result<JoinSource, JoinFault>
    ensures ok { IfOk result (IsJoinSource a.now b.now) }
    ensures err { IfErr result (IsRefusedJoin a.now b.now) }
{
    keys_tie_where_they_are_equal();
    joined_boards_are_lawful();
    a.is_lawful();
    b.is_lawful();
    match judge(a, b) {
        Err(fault) => Err(fault),
        Ok(()) => {
            if holds_all(a, b) {
                return Ok(JoinSource::First);
            }
            if holds_all(b, a) {
                return Ok(JoinSource::Second);
            }
            match choose_sides(alloc, a, b) {
                Err(fault) => Err(fault),
                Ok(sides) => Ok(JoinSource::Both(sides)),
            }
        }
    }
}

/// The first state is the one of the two that is further on. Takes no memory.
fn keep_further<'h>(x: &mut Stream<'h>, y: &mut Stream<'h>)
    requires { x.old.plan ≡ y.old.plan }
    ensures { x.new ≡ chosen x.old y.old }
{
    if x.is_behind(y) {
        swap(x, y);
    }
}

/// The first list has of each stream the state that is further on. Takes no memory.
fn keep_all_further<'h>(a: &mut [Stream<'h>], b: &mut [Stream<'h>])
    requires { plans_in a.old ≡ plans_in b.old }
    ensures { a.new ≡ all_chosen a.old b.old }
{
    let mut s = 0;
    while s < a.len() {
        keep_further(&mut a[s], &mut b[s]);
        s += 1;
    }
}

/// The join of two boards of which neither is further on in every stream, with the rows of both moved. Where
/// memory is wanted both are handed back as they were.
fn join_both<'h>(
    alloc: Global,
    a: Board<'h>,
    b: Board<'h>,
    sides: &[MergeSide],
) -> Result<Board<'h>, JoinRefusal<'h>>
    requires compatible { AreCompatible a b }
    requires sides { AreFurtherSides a.streams b.streams sides.now }
    ensures joined { IfOk result (λ board. board ≡ joined a.entry b.entry) }
    ensures refused { IfErr result (λ refusal. refusal.why ≡ Memory) }
    ensures handed_back { IfErr result (λ refusal. (refusal.a ≡ a.entry) × (refusal.b ≡ b.entry)) }
{
    keys_tie_where_they_are_equal();
    joined_boards_are_lawful();
    a.is_lawful();
    b.is_lawful();
    match merge(alloc, a.rows, b.rows, sides) {
        Err((rows, others)) => Err(JoinRefusal {
            why: JoinFault::Memory,
            a: Board {
                streams: a.streams,
                rows,
            },
            b: Board {
                streams: b.streams,
                rows: others,
            },
        }),
        Ok(rows) => {
            let mut streams = a.streams;
            let mut others = b.streams;
            keep_all_further(&mut streams, &mut others);
            Ok(Board { streams, rows })
        }
    }
}

/// Two boards joined to one: all streams come from one of them, or the rows of both are moved.
fn join_by_source<'h>(
    alloc: Global,
    a: Board<'h>,
    b: Board<'h>,
) -> Result<Board<'h>, JoinRefusal<'h>>
    ensures joined { IfOk result (λ board. AreCompatible a.entry b.entry × (board ≡ joined a.entry b.entry)) }
    ensures refused { IfErr result (λ refusal. IsRefusedJoin a.entry b.entry refusal.why) }
    ensures handed_back { IfErr result (λ refusal. (refusal.a ≡ a.entry) × (refusal.b ≡ b.entry)) }
{
    keys_tie_where_they_are_equal();
    joined_boards_are_lawful();
    a.is_lawful();
    b.is_lawful();
    match find_source(alloc, &a, &b) {
        Err(why) => Err(JoinRefusal { why, a, b }),
        Ok(JoinSource::First) => Ok(a),
        Ok(JoinSource::Second) => Ok(b),
        Ok(JoinSource::Both(sides)) => join_both(alloc, a, b, &sides),
    }
}

/// Two boards over the same target joined to one. Both may still copy: each stream's whole state, with its
/// rows, comes from the board in which it is further on. That is the one which has applied more of its groups;
/// at equal numbers the one which has copied more (more tables done above fewer, then a mark up to a key above
/// none, by that key); then the one which has read more groups; then an open snapshot is above none, and a
/// later one above an earlier.
///
/// Refused 111 where the plans differ; 113 for the least stream of which neither read list is a beginning of
/// the other; 71 where two streams then have a row at one key: for the first stream that meets a lower one,
/// its least such key and the lower stream; 72 for want of memory, never before 111 and 113. A refusal hands
/// both boards back as they were. Where all streams come from one board it is the answer as it stands; else
/// the rows of both are moved, one by one by rising key, in time linear in the rows of both. A key is copied
/// for a refusal alone.
pub fn join<'h>(alloc: Global, a: Board<'h>, b: Board<'h>) -> Result<Board<'h>, JoinRefusal<'h>>
    ensures joined { IfOk result (λ board. AreCompatible a.entry b.entry × (board ≡ joined a.entry b.entry)) }
    ensures refused { IfErr result (λ refusal. IsRefusedJoin a.entry b.entry refusal.why) }
    ensures handed_back { IfErr result (λ refusal. (refusal.a ≡ a.entry) × (refusal.b ≡ b.entry)) }
    // The laws of joins: either way round, with itself, in either grouping of three; by what is applied and
    // read alone where all tables are copied; and boards that read the same feeds, which share no key, can
    // always be joined.
    ensures commute { JoinsCommute }
    ensures itself { JoinsWithItself }
    ensures associate { JoinsAssociate }
    ensures running { RunningJoinsByWhatIsRead }
    ensures disjoint { DisjointFeedsCanBeJoined }
    // Boards whose streams read the same feeds are joined to one whose streams do.
    ensures fed { (feeds : List FeedValue) → IsFedBoard feeds a.entry → IsFedBoard feeds b.entry → IfOk result (IsFedBoard feeds) }
{
    joined_boards_are_lawful();
    joins_are_a_greatest_board();
    boards_can_be_joined();
    join_by_source(alloc, a, b)
}
