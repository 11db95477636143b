//! Writing of a VGTID's entries.

ghost use Rattle.std.specs.Prelude.{◌≡◌, ◌++◌, length, OnOk, IfOk};
ghost use Rattle.proto_wire.specs.Writing.{Begins};
ghost use Rattle.vevent.specs.ShardGtidView.{shard_gtid_value};
ghost use Rattle.vevent.specs.WrittenEvent.{written_shard_gtid, written_vgtid};

use crate::vgtid_event::{ShardGtid, ShardGtids, VGtid};
use proto_wire::{bytes_field_size, put_bytes_head, put_text, size_of_both, text_field_size};
use std::alloc::AllocError;

/// How many bytes an entry has.
fn entry_size(entry: &ShardGtid<'_>) -> Result<usize, AllocError>
    ensures { IfOk result (λ n. n ≡ length (written_shard_gtid (shard_gtid_value entry.now))) }
{
    let keyspace = text_field_size(1, entry.keyspace.len())?;
    let shard = text_field_size(2, entry.shard.len())?;
    let gtid = text_field_size(3, entry.gtid.len())?;
    size_of_both(keyspace, size_of_both(shard, gtid)?)
}

/// Appends an entry.
fn put_entry(out: &mut Vec<u8>, entry: &ShardGtid<'_>) -> Result<(), AllocError>
    ensures written { OnOk result (out.new.items ≡ out.old.items ++ written_shard_gtid (shard_gtid_value entry.now)) }
    ensures kept { Begins out.old.items out.new.items }
{
    put_text(out, 1, entry.keyspace.as_bytes())?;
    put_text(out, 2, entry.shard.as_bytes())?;
    put_text(out, 3, entry.gtid.as_bytes())?;
    Ok(())
}

/// How many bytes entries take.
fn entries_size(entries: ShardGtids<'_>) -> Result<usize, AllocError>
    ensures { IfOk result (λ n. n ≡ length (written_vgtid entries.entry)) }
{
    let mut size = 0;
    for entry in entries {
        let one = bytes_field_size(1, entry_size(&entry)?)?;
        size = size_of_both(size, one)?;
    }
    Ok(size)
}

/// Appends entries.
fn put_entries(out: &mut Vec<u8>, entries: ShardGtids<'_>) -> Result<(), AllocError>
    ensures written { OnOk result (out.new.items ≡ out.old.items ++ written_vgtid entries.entry) }
    ensures kept { Begins out.old.items out.new.items }
{
    for entry in entries {
        put_bytes_head(out, 1, entry_size(&entry)?)?;
        put_entry(out, &entry)?;
    }
    Ok(())
}

/// How many bytes a VGTID has.
pub(crate) fn vgtid_size(vgtid: &VGtid<'_>) -> Result<usize, AllocError>
    ensures { IfOk result (λ n. n ≡ length (written_vgtid vgtid.now)) }
{
    entries_size(vgtid.entries())
}

/// Appends a VGTID.
pub(crate) fn put_vgtid(out: &mut Vec<u8>, vgtid: &VGtid<'_>) -> Result<(), AllocError>
    ensures written { OnOk result (out.new.items ≡ out.old.items ++ written_vgtid vgtid.now) }
    ensures kept { Begins out.old.items out.new.items }
{
    put_entries(out, vgtid.entries())
}
