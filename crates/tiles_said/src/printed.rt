//! The subcommand `tiles`: what is said of workflow files, printed.

ghost use Rattle.std.specs.Prelude.{◌≡◌, map};
ghost use Rattle.tiles_said.specs.Cover.{AreSplit};
ghost use Rattle.tiles_said.specs.Printed.{EndsSo, PrintsSaid};
ghost use Rattle.tiles_said.specs.Sources.{file_in};
ghost use Rattle.tiles_said.specs.declared.printed.TilesEnd.TheVariants.{Fine};

use crate::fault::TilesFault;
use crate::said::{TilesSaid, tiles_said};
use printing::{Out, put_all};
use std::alloc::Global;

/// How `tiles` ends.
#[derive(Debug, Drop)]
pub enum TilesEnd {
    /// All was printed, and nothing is warned of.
    Fine,
    /// All was printed, and something is warned of.
    Warned,
    /// Nothing was printed: a file is refused, or the allocator gave no memory.
    Refused(TilesFault),
    /// A write failed.
    Unwritten,
}

/// Prints what is said.
fn print_said<W: Out>(said: &TilesSaid, out: &mut W) -> TilesEnd
    ensures { PrintsSaid said.now result (W.written out.old) (W.written out.new) }
{
    if put_all(out, said.text().as_bytes()).is_err() {
        return TilesEnd::Unwritten;
    }
    if said.told() {
        TilesEnd::Warned
    } else {
        TilesEnd::Fine
    }
}

/// Prints what `tiles_said` says of the workflow files of several targets, which have these names, or nothing where a file
/// is refused, the first that is.
pub fn tiles<W: Out>(alloc: Global, names: &[&str], texts: &[Vec<u8>], out: &mut W) -> TilesEnd
    ensures ends { EndsSo (map (λ name. name.now) names.now) (map (λ text. text.items) texts.now) result (W.written out.old) (W.written out.new) }
    // Where nothing is warned of each id is in the range of just one target, or all targets have every row.
    ensures split { result ≡ Fine → AreSplit (map file_in (map (λ text. text.items) texts.now)) }
{
    match tiles_said(alloc, names, texts) {
        Err(fault) => TilesEnd::Refused(fault),
        Ok(said) => print_said(&said, out),
    }
}
