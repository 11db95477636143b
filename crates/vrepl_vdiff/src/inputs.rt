//! What `vdiff` is given, each by its name.

use crate::options::Options;
use std::marker::Model;

/// What is compared, and what is shown of it.
#[derive(Drop)]
pub struct VdiffInputs<'w> {
    /// What is shown.
    pub options: Options<'w>,
    /// The workflow's file.
    pub workflow: Vec<u8>,
    /// The source's dump.
    pub source: Dump<'w>,
    /// The target's dump.
    pub target: Dump<'w>,
}

/// A dump that was read, and its name. Seen in contracts as both.
#[derive(Drop)]
pub struct Dump<'w> {
    /// The name.
    pub name: &'w str,
    /// The text.
    pub text: Vec<u8>,
}

impl<'w> Model for Dump<'w> {
    ghost use Rattle.vrepl_vdiff.specs.NamedDump.{NamedDump};

    ghost Value = { NamedDump };

    ghost view = { λ d. record { name = d.name.now; text = d.text.items } };
}
