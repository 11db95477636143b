//! The columns of each table that all streams keep.

ghost use Rattle.std.specs.Prelude.{◌≡◌, ℕ, List, option_map, Ok, Err};
ghost use Rattle.std.specs.List.{list_all};
ghost use Rattle.filter_rule.specs.Faults.{GivesOrFails, columns_differ};
ghost use Rattle.filter_rule.specs.Reading.{kept_in, first_kept, keeps_these, agreed, closed_from};

use crate::decision::Decision;
use crate::fault::PlanFault;
use crate::places::Places;
use crate::table::Table;
use std::alloc::Global;
use std::marker::Model;

/// A stream's shard, and what its rules decide of each table.
#[derive(Drop)]
pub(crate) struct Decided {
    pub(crate) shard: String,
    pub(crate) decisions: Vec<Decision>,
}

impl Model for Decided {
    ghost use Rattle.std.specs.String.{string_bytes};
    ghost use Rattle.filter_rule.specs.Reading.{Decided as DecidedValue};

    ghost Value = { DecidedValue };

    ghost view = { λ d. record { shard = string_bytes d.shard; decisions = d.decisions.items } };
}

/// The columns that a stream keeps of table `t`, if a rule of it matches the table.
fn kept_in(stream: &Decided, t: usize) -> Option<&[u8]>
    ensures { option_map (λ kept. kept.now) result ≡ kept_in t stream.now }
{
    stream.decisions.get(t)?.kept()
}

/// The columns that the first stream with a rule for table `t` keeps of it.
#[tactic(auto, using(crate::proofs::CloseLaws::first_turn, crate::proofs::CloseLaws::first_here, crate::proofs::CloseLaws::first_end))]
fn first_kept(streams: &[Decided], t: usize) -> Option<&[u8]>
    ensures { option_map (λ kept. kept.now) result ≡ first_kept t streams.now }
{
    for stream in streams {
        if let Some(kept) = kept_in(stream, t) {
            return Some(kept);
        }
    }
    None
}

/// Whether a stream keeps these columns of table `t`, or has no rule that matches it.
fn keeps_these(stream: &Decided, t: usize, kept: &[u8]) -> bool
    ensures { result ≡ keeps_these t kept.now stream.now }
{
    match kept_in(stream, t) {
        Some(others) => others == kept,
        None => true,
    }
}

fn all_keep(streams: &[Decided], t: usize, kept: &[u8]) -> bool
    ensures { result ≡ list_all (keeps_these t kept.now) streams.now }
{
    streams.iter().all(|stream| keeps_these(stream, t, kept))
}

/// The refusal of a table of which streams keep different columns.
fn differ(alloc: Global, table: &str) -> PlanFault
    ensures { GivesOrFails {X = ℕ} {Y = ℕ} (λ n. n) (Err result) (Err (columns_differ table.now)) }
{
    match String::from_str(alloc, table) {
        Ok(table) => PlanFault::ColumnsDiffer { table },
        Err(_) => PlanFault::Memory,
    }
}

fn copied(alloc: Global, places: &[u8]) -> Result<Places, PlanFault>
    ensures { GivesOrFails {Y = List ℕ} (λ p. p) result (Ok places.now) }
{
    let copy = Vec::from_slice(alloc, places)?;
    Ok(Places::new(copy))
}

/// The columns of table `t` that the streams keep.
fn agreed(alloc: Global, streams: &[Decided], t: usize, table: &Table) -> Result<Places, PlanFault>
    ensures { GivesOrFails (λ p. p) result (agreed streams.now t table.now (first_kept t streams.now)) }
{
    let Some(kept) = first_kept(streams, t) else {
        return copied(alloc, table.kept());
    };
    if all_keep(streams, t, kept) {
        copied(alloc, kept)
    } else {
        Err(differ(alloc, table.name()))
    }
}

/// Each table with the columns that all streams keep of it.
pub(crate) fn closed(
    alloc: Global,
    streams: &[Decided],
    tables: Vec<Table>,
) -> Result<Vec<Table>, PlanFault>
    ensures { GivesOrFails (λ v. v.items) result (closed_from streams.now 0 tables.items) }
{
    let mut closed = tables;
    for t in 0..closed.len() {
        let kept = agreed(alloc, streams, t, &closed[t])?;
        closed[t].keep(kept);
    }
    Ok(closed)
}
