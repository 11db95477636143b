//! Tables added to a board.

ghost use Rattle.std.specs.Prelude.{◌≡◌, ◌↔◌, ◌≤◌, length, map, IsTrue, IfOk, IfErr, OnOk};
ghost use Rattle.std.specs.Arc.{arc_value};
ghost use Rattle.filter_rule.specs.Extending.{IsExtended};
ghost use Rattle.board_laws.specs.Lawful.{IsLawful};
ghost use Rattle.board_laws.specs.Reading.{AllReadTheirFeeds};
ghost use Rattle.board_laws.specs.Extended.{AreExtended, extended_board, MayExtend};
ghost use Rattle.board_laws.specs.AddedLaws.{AddedTablesAreBare, AddedTablesAreToCopy, CutsStay};
ghost use Rattle.board_laws.specs.declared.add_fault.AddFault.TheVariants.{Memory};
ghost use Rattle.board_laws.specs.Compatible.{plans_of_board};
ghost use Rattle.apply_core.specs.Ended.{IsFedBoard};
ghost use Rattle.apply_core.specs.Adding.{AreTaken, IsRefusedAdd};
ghost use Rattle.apply_core.specs.Feeds.{AreWholeFeeds};
ghost use Rattle.apply_core.specs.Private.Adding.{FeedsExtend, AreExtendedUpTo, AreStopped};
ghost use Rattle.apply_core.specs.Private.Beside.{plans_in};

use crate::added_streams::extended_streams;
use crate::board::Board;
use crate::fresh::have_same_tables;
use crate::schedule::are_opened_under;
use crate::stream::Stream;
use board_laws::{
    AddFault, added_tables_are_to_copy, extended_boards_are_lawful, feeds_go_on_or_stop,
};
use filter_rule::Plan;
use source_feed::Feed;
use std::alloc::Global;
use std::sync::Arc;

/// A board to which no tables are added, as it was, and why.
#[derive(Drop)]
pub struct AddRefusal<'h> {
    pub why: AddFault,
    pub board: Board<'h>,
}

/// Whether a plan is a stream's with tables appended. Takes no memory.
fn is_extended(plan: &Plan, stream: &Stream<'_>) -> bool
    ensures { IsTrue result ↔ IsExtended stream.now.plan plan.now }
{
    plan.extends(&stream.plan)
}

/// Whether each plan is that of its stream with tables appended. Takes no memory.
fn are_extended(streams: &[Stream<'_>], plans: &[Arc<Plan>]) -> bool
    requires { length plans.now ≡ length streams.now }
    ensures { IsTrue result ↔ AreExtended (plans_in streams.now) (map arc_value plans.now) }
{
    for s in 0..plans.len() {
        if !is_extended(&plans[s], &streams[s]) {
            return false;
        }
    }
    true
}

/// Whether there is a plan for each stream. Takes no memory.
fn are_as_many(board: &Board<'_>, plans: &[Arc<Plan>]) -> bool
    ensures { IsTrue result ↔ (length plans.now ≡ length board.now.streams) }
{
    plans.len() == board.len()
}

/// The same of the plans of a board's streams, of which there may be more or fewer.
fn board_is_extended(board: &Board<'_>, plans: &[Arc<Plan>]) -> bool
    ensures { IsTrue result ↔ AreExtended (plans_of_board board.now) (map arc_value plans.now) }
{
    if !are_as_many(board, plans) {
        return false;
    }
    are_extended(&board.streams, plans)
}

/// Whether tables can be added by these plans and feeds, the feeds' groups aside: refused 119, 122 and 111 as
/// `add_tables` is. Takes no memory.
fn judge_plans(board: &Board<'_>, plans: &[Arc<Plan>], feeds: &[Feed<'_>]) -> Result<(), AddFault>
    ensures taken { OnOk result (AreTaken (map arc_value plans.now) feeds.now board.now) }
    ensures whole { OnOk result (AreWholeFeeds feeds.now) }
    ensures refused { IfErr result (IsRefusedAdd (map arc_value plans.now) feeds.now board.now) }
{
    if feeds.len() != plans.len() {
        return Err(AddFault::FeedCount);
    }
    if !board_is_extended(board, plans) {
        return Err(AddFault::PlanNotExtended);
    }
    if !are_opened_under(feeds, plans) {
        return Err(AddFault::WrongPlan);
    }
    if !have_same_tables(plans) {
        return Err(AddFault::WrongPlan);
    }
    Ok(())
}

/// The streams of a board with the tables of their feeds' plans. Refused 113 and 90 as `add_tables` is. Any other
/// error is want of memory.
fn streams_of_more<'h>(
    alloc: Global,
    board: &Board<'h>,
    feeds: &[Feed<'h>],
) -> Result<Vec<Stream<'h>>, AddFault>
    requires count { length feeds.now ≡ length board.now.streams }
    requires few { length board.now.streams ≤ 64 }
    requires extend { FeedsExtend feeds.now board.now.streams }
    ensures ok { IfOk result (λ new. AreExtendedUpTo feeds.now board.now.streams (length board.now.streams) new.items) }
    ensures err { IfErr result (AreStopped feeds.now board.now.streams) }
{
    extended_streams(alloc, &board.streams, feeds)
}

/// The same, where plans and feeds are taken. Refused as `add_tables` is.
fn streams_with_tables<'h>(
    alloc: Global,
    board: &Board<'h>,
    plans: &[Arc<Plan>],
    feeds: &[Feed<'h>],
) -> Result<Vec<Stream<'h>>, AddFault>
    ensures taken { IfOk result (λ _. AreTaken (map arc_value plans.now) feeds.now board.now) }
    ensures whole { IfOk result (λ _. AreWholeFeeds feeds.now) }
    ensures ok { IfOk result (λ new. AreExtendedUpTo feeds.now board.now.streams (length board.now.streams) new.items) }
    ensures refused { IfErr result (IsRefusedAdd (map arc_value plans.now) feeds.now board.now) }
{
    board.is_lawful();
    judge_plans(board, plans, feeds)?;
    streams_of_more(alloc, board, feeds)
}

/// A board with other streams over the same rows, none of which is copied.
fn with_streams<'h>(board: Board<'h>, streams: Vec<Stream<'h>>) -> Board<'h>
    requires { IsLawful (record { streams = streams.items; rows = board.rows }) }
    ensures { result ≡ record { streams = streams.entry.items; rows = board.entry.rows } }
{
    Board {
        streams,
        rows: board.rows,
    }
}

/// Tables are added to a board: its plans become these, which are the old ones with one or more tables appended
/// last, and its feeds these, which are opened under them. Each stream has the first groups of its feed read and
/// applied, as many as before, its marks as before and behind them the new tables, which wait; no snapshot is open.
/// The rows are the old ones, and none is copied. So a stream that was Running is in CatchUp, and the new tables are
/// copied by the usual steps.
///
/// Refused, in this order: 119 where there aren't as many feeds as plans; 122 where there aren't as many plans as
/// streams, or one isn't its stream's with tables appended; 111 where two plans differ in their tables or a feed wasn't
/// opened under its plan; then for the first stream whose feed doesn't go on: 113 where the feed has fewer groups than are applied,
/// and else for the first of these groups that isn't sound, 90, or that differs from the one that was read in its
/// position or in a touch of an old table, 113. 72 for want of memory, never before the first three, and of a stream
/// never where its feed has fewer groups or for a group that isn't sound. A refusal hands the board back as it was.
pub fn add_tables<'h>(
    alloc: Global,
    board: Board<'h>,
    plans: &[Arc<Plan>],
    feeds: &[Feed<'h>],
) -> Result<Board<'h>, AddRefusal<'h>>
    ensures taken { IfOk result (λ _. AreTaken (map arc_value plans.now) feeds.now board.entry) }
    ensures may { IfOk result (λ _. MayExtend feeds.now board.entry) }
    ensures extended { IfOk result (λ after. after ≡ extended_board feeds.now board.entry) }
    ensures lawful { IfOk result IsLawful }
    // Each stream reads its new feed: what steps then leave shows the sources, as `Board::take_steps` says.
    ensures reads { IfOk result (AllReadTheirFeeds feeds.now) }
    // The board has a stream for each feed: with these feeds it is a `FedBoard`.
    ensures board { IfOk result (IsFedBoard feeds.now) }
    ensures refused { IfErr result (λ refusal. IsRefusedAdd (map arc_value plans.now) feeds.now board.entry refusal.why) }
    ensures handed_back { IfErr result (λ refusal. refusal.board ≡ board.entry) }
    // Feeds that go on are refused for want of memory alone.
    ensures only_memory { MayExtend feeds.now board.entry → AreTaken (map arc_value plans.now) feeds.now board.entry → IfErr result (λ refusal. refusal.why ≡ Memory) }
    // Laws of added tables: rows are due where they were, no row of an added table stands, and each stream has
    // to copy them.
    ensures cuts { CutsStay }
    ensures bare { AddedTablesAreBare }
    ensures copying { AddedTablesAreToCopy }
{
    extended_boards_are_lawful();
    added_tables_are_to_copy();
    feeds_go_on_or_stop();
    board.is_lawful();
    match streams_with_tables(alloc, &board, plans, feeds) {
        Err(why) => Err(AddRefusal { why, board }),
        Ok(streams) => Ok(with_streams(board, streams)),
    }
}
