//! Many streams over one target.

ghost use Rattle.std.specs.Prelude.{◌≡◌, ◌≤◌, None, IfOk, IfErr, IsSomeAnd, IsTrue, length, map, slice_get};
ghost use Rattle.std.specs.Arc.{arc_value};
ghost use Rattle.std.specs.Option.{option_copied, option_map};
ghost use Rattle.target_tables.specs.Contents.{value_at, standing};
ghost use Rattle.pk_copy.specs.KeyOrder.{key_cmp};
ghost use Rattle.board_laws.specs.declared.refusal.Refusal.TheVariants.{NoStream};
ghost use Rattle.board_laws.specs.Lawful.{standing_of, IsLawful};
ghost use Rattle.apply_core.specs.Fresh.{fresh_board, HaveSameTables, IsRefusedBoard};

use crate::fresh::{fresh_streams, have_same_tables, know_plans};
use crate::stream::Stream;
use board_laws::{Refusal, fresh_boards_are_lawful};
use filter_rule::Plan;
use pk_copy::Key;
use row_view::RowBuf;
use source_feed::Prepared;
use std::alloc::Global;
use std::marker::Model;
use std::sync::Arc;
use stream_core::Cursor;
use target_tables::Tables;

/// Many streams over one target: for each stream its plan, the groups that are read and how many of them
/// are applied, how far its tables are copied, and the open snapshot; and the rows of the target, each with
/// the stream that owns it. Every board is lawful: at every time each stream's rows are exactly those that
/// its applied groups left, that pass its filter and lie at its copied keys.
#[derive(Drop)]
pub struct Board<'h> {
    pub(crate) streams: Vec<Stream<'h>>,
    pub(crate) rows: Tables<Key, RowBuf>,
}

impl<'h> Model for Board<'h> {
    ghost use Rattle.board_laws.specs.Meaning.{Meaning};
    ghost use Rattle.board_laws.specs.Lawful.{IsLawful};

    ghost Value = { Meaning };

    ghost view = { λ b. record { streams = b.streams.items; rows = b.rows.entries } };

    ghost invariant = { λ b. IsLawful (record { streams = b.streams.items; rows = b.rows.entries }) };
}

impl<'h> Board<'h> {
    /// A board over the tables of 1 to 64 plans, with a stream for each: nothing is read or copied, and the
    /// target is empty. Refused 111 where two plans differ in their tables.
    pub fn new(alloc: Global, plans: Vec<Arc<Plan>>) -> Result<Board<'h>, Refusal>
        requires some { 1 ≤ length plans.items }
        requires few { length plans.items ≤ 64 }
        ensures fresh { IfOk result (λ board. board ≡ fresh_board (map arc_value plans.items)) }
        ensures same_tables { IfOk result (λ board. HaveSameTables (map arc_value plans.items)) }
        ensures refused { IfErr result (IsRefusedBoard (map arc_value plans.items)) }
    {
        fresh_boards_are_lawful();
        know_plans(&plans);
        if !have_same_tables(&plans) {
            return Err(Refusal::WrongPlan);
        }
        let streams = fresh_streams(alloc, plans)?;
        Ok(Board {
            streams,
            rows: Tables::new(alloc),
        })
    }

    /// The board is lawful. Takes no memory.
    pub fn is_lawful(&self)
        ensures { IsLawful self.now }
    {
        let _ = &self.streams;
    }

    /// The stream and row at a key of the target. Takes no memory.
    pub fn row(&self, key: &Key) -> Option<(u8, &RowBuf)>
        ensures { option_map standing result ≡ value_at key_cmp self.now.rows key.now }
    {
        self.rows.get(key)
    }

    /// How many streams there are. Takes no memory.
    pub fn len(&self) -> usize
        ensures { result ≡ length self.now.streams }
    {
        self.streams.len()
    }

    /// The stream of a number.
    pub(crate) fn stream(&self, s: u8) -> Option<&Stream<'h>>
        ensures { option_copied result ≡ slice_get self.now.streams s }
    {
        self.streams.get(s as usize)
    }

    /// Whether stream `s` is there and of this plan. Takes no memory.
    pub fn is_under(&self, s: u8, plan: &Plan) -> bool
        ensures yes { IsTrue result → IsSomeAnd (slice_get self.now.streams s) (λ state. state.plan ≡ plan.now) }
        ensures no { IsSomeAnd (slice_get self.now.streams s) (λ state. state.plan ≡ plan.now) → IsTrue result }
    {
        match self.stream(s) {
            None => false,
            Some(stream) => stream.plan.same(plan),
        }
    }

    /// Where stream `s` stands, by its numbers. Refused 115 alone. Takes no memory.
    pub fn state(&self, s: u8) -> Result<Cursor, Refusal>
        ensures state { IfOk result (λ cursor. IsSomeAnd (slice_get self.now.streams s) (λ state. cursor ≡ standing_of state)) }
        ensures no_stream { IfErr result (λ refusal. (refusal ≡ NoStream) × (slice_get self.now.streams s ≡ None)) }
    {
        match self.stream(s) {
            None => Err(Refusal::NoStream),
            Some(stream) => Ok(stream.cursor()),
        }
    }

    /// The groups that stream `s` has read, in order. Refused 115 alone. Takes no memory.
    pub fn read_list(&self, s: u8) -> Result<&[Arc<Prepared<'h>>], Refusal>
        ensures list { IfOk result (λ list. IsSomeAnd (slice_get self.now.streams s) (λ state. map arc_value list.now ≡ state.list)) }
        ensures no_stream { IfErr result (λ refusal. (refusal ≡ NoStream) × (slice_get self.now.streams s ≡ None)) }
    {
        match self.stream(s) {
            None => Err(Refusal::NoStream),
            Some(stream) => Ok(stream.list()),
        }
    }
}
