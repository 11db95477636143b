//! A board as the bytes of a checkpoint.

ghost use Rattle.std.specs.Prelude.{◌≡◌, ◌≤◌, ◌++◌, length, map, IfOk, OnOk};
ghost use Rattle.source_feed.specs.Image.{lent_row};
ghost use Rattle.vevent.specs.WrittenPart.{written_stream_part};
ghost use Rattle.checkpoint_laws.specs.declared.version.Version.TheVariants.{Two};
ghost use Rattle.checkpoint_laws.specs.Saved.{saved_stream};
ghost use Rattle.checkpoint_laws.specs.Written.{stream_part, framed, written_parts, checkpoint_of};
ghost use Rattle.apply_core.specs.Shown.{rows_of_stream};
ghost use Rattle.apply_core.specs.Private.Saving.{parts_from};

use crate::board::Board;
use crate::stream::Stream;
use checkpoint_core::put_stream;
use pk_copy::Key;
use row_view::RowBuf;
use std::alloc::{AllocError, Global};
use target_tables::Tables;

/// The rows of stream `s` with their keys, lent, by rising key.
fn own_rows<'a>(
    alloc: Global,
    rows: &'a Tables<Key, RowBuf>,
    s: u8,
) -> Result<Vec<(&'a Key, &'a RowBuf)>, AllocError>
    ensures { IfOk result (λ own. map lent_row own.items ≡ rows_of_stream s rows.now.entries) }
{
    let mut own = Vec::new(alloc);
    for (key, owner, row) in rows.iter() {
        if owner == s {
            own.push((key, row))?;
        }
    }
    Ok(own)
}

/// Appends the part of stream `s` behind its length. An error is want of memory.
fn put_part(
    alloc: Global,
    out: &mut Vec<u8>,
    stream: &Stream<'_>,
    s: u8,
    rows: &Tables<Key, RowBuf>,
) -> Result<(), AllocError>
    ensures { OnOk result (out.new.items ≡ out.old.items ++ framed (written_stream_part (stream_part Two stream.now.plan (saved_stream s stream.now rows.now.entries)))) }
{
    let own = own_rows(alloc, rows, s)?;
    put_stream(
        alloc,
        out,
        &stream.plan,
        stream.position(),
        &stream.marks,
        &own,
    )?;
    Ok(())
}

/// Appends the parts of streams, in order. An error is want of memory.
fn put_parts(
    alloc: Global,
    out: &mut Vec<u8>,
    streams: &[Stream<'_>],
    rows: &Tables<Key, RowBuf>,
) -> Result<(), AllocError>
    requires { length streams.now ≤ 64 }
    ensures { OnOk result (out.new.items ≡ out.old.items ++ written_parts (parts_from 0 streams.now rows.now.entries)) }
{
    for s in 0..streams.len() {
        put_part(alloc, out, &streams[s], s as u8, rows)?;
    }
    Ok(())
}

/// The checkpoint of a board, of version 2: of each stream the position of the last applied group, how far its
/// tables are copied, and its rows in the target. What is read beyond the applied groups isn't kept, nor is an
/// open snapshot. An error is want of memory.
pub fn save(alloc: Global, board: &Board<'_>) -> Result<Vec<u8>, AllocError>
    ensures { IfOk result (λ bytes. bytes.items ≡ checkpoint_of board.now) }
{
    board.is_lawful();
    let mut out = Vec::from_slice(alloc, b"VREPLCP2")?;
    put_parts(alloc, &mut out, &board.streams, &board.rows)?;
    Ok(out)
}
