//! What `tiles` says of the workflow files of several targets: whether of each source shard each of a table's rows is in just
//! one target, by the key ranges that the targets' streams pass.
#![tactic(auto)]

mod cover;
mod fault;
mod files;
mod json;
mod laws;
mod lines;
mod passing;
mod printed;
mod said;
mod shares;
mod sources;

pub use fault::TilesFault;
pub use laws::quiet_tiles_have_each_id_once;
pub use printed::{TilesEnd, tiles};
pub use said::{TilesSaid, tiles_said};
