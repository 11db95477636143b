//! Streams with their tables as JSON, and a key that two of them touch.

ghost use Rattle.std.specs.Prelude.{◌≡◌, ◌++◌, codes, map, slice_get, length, ◌-◌};
ghost use Rattle.std.specs.Option.{option_copied};
ghost use Rattle.pk_copy.specs.PartValue.{part_value};
ghost use Rattle.serde_json.specs.Data.{string};
ghost use Rattle.serde_json.specs.Written.{compact_text};
ghost use Rattle.json_pieces.specs.Pieces.{list_data, pieces_text};
ghost use Rattle.json_pieces.specs.Telling.{Tells, at};
ghost use Rattle.check_said.specs.Private.Parts.{first_part, groups_part, shard_part, stream_part};
ghost use Rattle.check_said.specs.Json.{shared_data, shared_if, stream_data, streams_data};

use crate::changes::{position_piece, put_events, put_findings};
use crate::checked_rows::CheckedRows;
use crate::tables::{put_names, put_tables};
use feed_check::{Checked, SharedKey, file_name, name_of_table};
use filter_rule::Table;
use json_pieces::{Line, Piece, put_comma_if, put_pieces};
use pk_copy::KeyPart;
use printing::Out;

/// What stands before the findings of a stream.
fn first_pieces(file: &str) -> [Piece<'_>; 3]
    ensures { pieces_text result ≡ first_part file.entry.now }
{
    [
        Piece::Text("{\"file\":"),
        Piece::Name(file),
        Piece::Text(",\"findings\":"),
    ]
}

/// What stands between its findings and its moves.
fn groups_pieces<'p>(check: &'p Checked<'_>) -> [Piece<'p>; 7]
    ensures { pieces_text result ≡ groups_part check.entry.now }
{
    [
        Piece::Text(",\"first\":"),
        position_piece(check.group(0)),
        Piece::Text(",\"groups\":"),
        Piece::Number(check.len() as u64),
        Piece::Text(",\"last\":"),
        position_piece(check.group(check.len().saturating_sub(1))),
        Piece::Text(",\"moves\":"),
    ]
}

/// What stands between its moves and the events that are passed over.
fn shard_pieces<'p>(check: &'p Checked<'_>) -> [Piece<'p>; 3]
    ensures { pieces_text result ≡ shard_part check.entry.now }
{
    [
        Piece::Text(",\"shard\":"),
        Piece::Name(check.shard()),
        Piece::Text(",\"skipped\":"),
    ]
}

/// What stands between those and its tables.
fn number_pieces(i: usize) -> [Piece<'static>; 3]
    ensures { pieces_text result ≡ stream_part i }
{
    [
        Piece::Text(",\"stream\":"),
        Piece::Number(i as u64),
        Piece::Text(",\"tables\":"),
    ]
}

/// Puts a stream: its file, its shard, its groups, its tables, and what is told of it.
fn put_stream<O: Out>(
    out: &mut O,
    line: &mut Line,
    i: usize,
    file: &str,
    rows: &CheckedRows<'_, '_>,
)
    ensures { Tells (at (O.written out.old) line.old) (at (O.written out.new) line.new) (compact_text (stream_data i file.now rows.now)) }
{
    let check = rows.check();
    put_pieces(out, line, &first_pieces(file));
    put_findings(out, line, check, check.findings());
    put_pieces(out, line, &groups_pieces(check));
    put_findings(out, line, check, check.moves());
    put_pieces(out, line, &shard_pieces(check));
    put_events(out, line, check.skipped());
    put_pieces(out, line, &number_pieces(i));
    put_tables(out, line, rows);
    line.put(out, b",\"unknown\":");
    put_names(out, line, check.plan(), check.unknown());
    line.put(out, b"}");
}

/// Puts all streams, whose files have these names.
pub(crate) fn put_streams<O: Out>(
    out: &mut O,
    line: &mut Line,
    files: &[&str],
    streams: &[CheckedRows<'_, '_>],
)
    ensures { Tells (at (O.written out.old) line.old) (at (O.written out.new) line.new) (compact_text (streams_data (map (λ file. file.now) files.now) streams.now)) }
{
    line.put(out, b"[");
    let mut later = false;
    for i in 0..streams.len() {
        put_comma_if(out, line, later);
        put_stream(out, line, i, file_name(files, i), &streams[i]);
        later = true;
    }
    line.put(out, b"]");
}

/// The key that two feeds touch, which has these parts, and their streams.
#[tactic(auto, unfolding(json::specs::Print::escape_byte))]
fn shared_pieces<'p>(
    tables: &'p [Table],
    shared: &SharedKey<'_, '_>,
    parts: &'p [KeyPart<'p>],
) -> [Piece<'p>; 9]
    requires { map part_value parts.now ≡ shared.now.key.parts }
    ensures { pieces_text result ≡ compact_text (shared_data tables.entry.now shared.now) }
{
    [
        Piece::Text("{\"key\":"),
        Piece::Parts(parts),
        Piece::Text(",\"streams\":["),
        Piece::Number(shared.one() as u64),
        Piece::Text(","),
        Piece::Number(shared.other() as u64),
        Piece::Text("],\"table\":"),
        Piece::Name(name_of_table(tables, shared.key().table())),
        Piece::Text("}"),
    ]
}

/// Puts the key that two feeds touch, null where there is none.
pub(crate) fn put_shared<O: Out>(
    out: &mut O,
    line: &mut Line,
    tables: &[Table],
    shared: Option<&SharedKey<'_, '_>>,
)
    ensures { Tells (at (O.written out.old) line.old) (at (O.written out.new) line.new) (compact_text (shared_if tables.now (option_copied shared.entry))) }
{
    match shared {
        None => line.put(out, b"null"),
        Some(shared) => {
            let key = shared.key().view();
            let pieces = shared_pieces(tables, shared, key.parts());
            put_pieces(out, line, &pieces);
        }
    }
}
