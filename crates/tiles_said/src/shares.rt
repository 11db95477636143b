//! The ranges of ids that files pass, each with the number of its file.

ghost use Rattle.std.specs.Prelude.{◌≡◌, ◌++◌, IfOk, OnOk};
ghost use Rattle.std.specs.Option.{option_map};
ghost use Rattle.vindex.specs.Bounds.{whole};
ghost use Rattle.vindex.specs.KeyspaceId.{vindex_name};
ghost use Rattle.vindex.specs.RangeText.{key_range_of_text};
ghost use Rattle.workflow_check.specs.Ranges.{is_like};
ghost use Rattle.tiles_said.specs.Cover.{own_range, share_of, shares_from, is_absent, is_everything, are_absent, are_everything, is_like_passing, like_all, are_alike};

use crate::passing::{Passing, Ranged};
use crate::sources::Source;
use range_cover::Share;
use std::alloc::{AllocError, Global};
use vindex::{KeyRange, Vindex, VindexFault};

/// The range of all ids.
pub(crate) fn whole_range(alloc: Global) -> Result<KeyRange, AllocError>
    ensures { IfOk result (λ range. range ≡ whole) }
{
    match KeyRange::parse(alloc, "0") {
        Ok(range) => Ok(range),
        Err(_) => Err(AllocError),
    }
}

/// The range of a shard's own ids: all, where its name is no key range.
fn own_range(alloc: Global, shard: &str) -> Result<KeyRange, AllocError>
    ensures { IfOk result (λ range. range ≡ own_range shard.now) }
{
    match KeyRange::parse(alloc, shard) {
        Ok(range) => Ok(range),
        Err(VindexFault::BadRange) => whole_range(alloc),
        Err(_) => Err(AllocError),
    }
}

/// The range of a source shard's own ids.
pub(crate) fn source_range(alloc: Global, source: &Source<'_>) -> Result<KeyRange, AllocError>
    ensures { IfOk result (λ range. range ≡ own_range source.now.shard) }
{
    own_range(alloc, source.shard)
}

/// Puts the range that a file passes behind others, if it passes one.
fn push_share<'r>(
    holder: usize,
    passing: &'r Passing<'_>,
    all: &'r KeyRange,
    shares: &mut Vec<Share<'r>>,
) -> Result<(), AllocError>
    requires { all.now ≡ whole }
    ensures { OnOk result (shares.new.items ≡ shares.old.items ++ share_of holder passing.entry.now) }
{
    match passing {
        Passing::Absent | Passing::NoRow => Ok(()),
        Passing::EveryRow => {
            shares.push(Share { holder, range: all })?;
            Ok(())
        }
        Passing::InRange(ranged) => {
            shares.push(Share {
                holder,
                range: &ranged.range,
            })?;
            Ok(())
        }
    }
}

/// The ranges that files pass, all ids being that of every row.
pub(crate) fn shares_of<'r>(
    alloc: Global,
    passings: &'r [Passing<'_>],
    all: &'r KeyRange,
) -> Result<Vec<Share<'r>>, AllocError>
    requires { all.now ≡ whole }
    ensures { IfOk result (λ shares. shares.items ≡ shares_from 0 passings.entry.now) }
{
    let mut shares = Vec::new(alloc);
    for i in 0..passings.len() {
        push_share(i, &passings[i], all, &mut shares)?;
    }
    Ok(shares)
}

/// Whether no file has the table and a stream of the shard.
pub(crate) fn are_absent(passings: &[Passing<'_>]) -> bool
    ensures { result ≡ are_absent passings.now }
{
    for passing in passings {
        if !is_absent(passing) {
            return false;
        }
    }
    true
}

/// Whether a file hasn't the table, or no stream of the shard.
fn is_absent(passing: &Passing<'_>) -> bool
    ensures { result ≡ is_absent passing.now }
{
    match passing {
        Passing::Absent => true,
        _ => false,
    }
}

/// Whether each file that has the table and a stream of the shard passes every row.
pub(crate) fn are_everything(passings: &[Passing<'_>]) -> bool
    ensures { result ≡ are_everything passings.now }
{
    for passing in passings {
        if !is_everything(passing) {
            return false;
        }
    }
    true
}

/// Whether a file passes every row, where it has the table and a stream of the shard.
fn is_everything(passing: &Passing<'_>) -> bool
    ensures { result ≡ is_everything passing.now }
{
    match passing {
        Passing::Absent | Passing::EveryRow => true,
        _ => false,
    }
}

/// The name of a vindex.
fn vindex_name(vindex: Vindex) -> &'static str
    ensures { result.now ≡ vindex_name vindex }
{
    match vindex {
        Vindex::Numeric => "numeric",
        Vindex::ReverseBits => "reverse_bits",
        Vindex::Binary => "binary",
        Vindex::BinaryMd5 => "binary_md5",
        Vindex::Hash => "hash",
    }
}

/// Whether two ranges are by the same vindex of the same column.
fn is_like(range: &Ranged<'_>, other: &Ranged<'_>) -> bool
    ensures { result ≡ is_like range.now other.now }
{
    range.column == other.column && vindex_name(range.vindex) == vindex_name(other.vindex)
}

/// Whether two files pass ranges by the same vindex of the same column, where both pass one.
fn is_like_passing(passing: &Passing<'_>, other: &Passing<'_>) -> bool
    ensures { result ≡ is_like_passing passing.now other.now }
{
    match (passing, other) {
        (Passing::InRange(range), Passing::InRange(other)) => is_like(range, other),
        _ => true,
    }
}

/// Whether a file does so with each of others.
fn like_all(passings: &[Passing<'_>], passing: &Passing<'_>) -> bool
    ensures { result ≡ like_all passings.now passing.now }
{
    for other in passings {
        if !is_like_passing(passing, other) {
            return false;
        }
    }
    true
}

/// Whether all ranges are by one vindex of one column.
pub(crate) fn are_alike(passings: &[Passing<'_>]) -> bool
    ensures { result ≡ are_alike passings.now }
{
    for passing in passings {
        if !like_all(passings, passing) {
            return false;
        }
    }
    true
}
