//! Tests of the program's library: what all commands read and print by, scripts, and the commands over
//! bytes and writers. What a command prints of its inputs is shown by the whole program too.

mod checkpoints;
mod feeds;
mod hex_text;
mod inputs;
mod outputs;
mod printed;
mod replies;
mod rooms;
mod runs;
mod scripts;
