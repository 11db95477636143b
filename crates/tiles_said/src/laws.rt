//! What it means that nothing is warned of.

ghost use Rattle.tiles_said.specs.Private.Saying.{QuietTilesHaveEachIdOnce};

/// Where nothing is warned of each id of each source shard is in the range of just one target, or all targets have every
/// row, or no target is concerned.
pub fn quiet_tiles_have_each_id_once()
    ensures { QuietTilesHaveEachIdOnce }
{}
