//! Tests of the board: the step table, its calls, joins, runs, and lists of steps on several streams.

mod alike;
mod boards;
mod chunks;
mod copying_joins;
mod fed_boards;
mod feeds;
mod fresh_memory;
mod joined_images;
mod joins;
mod memory;
mod own_rows;
mod random_joins;
mod random_steps;
mod runs;
mod schedules;
mod setup;
mod shown;
mod sides;
mod slow;
mod steps;
