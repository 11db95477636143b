//! The versions in which a checkpoint's bytes are written.

/// The version of a checkpoint's bytes.
#[derive(Clone, Copy)]
pub enum Version {
    /// It begins with `VREPLCP1`: each stream has a part for each table of the workflow, which doesn't say
    /// the table's name.
    One,
    /// It begins with `VREPLCP2`: each table's part has the table's name, and the last tables of the workflow
    /// may have none.
    Two,
}
