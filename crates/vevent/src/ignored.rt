//! The events that the target side reads over.

/// An event that changes nothing here, by its type.
#[derive(Clone, Copy)]
pub enum IgnoredEvent {
    /// Type 5: a statement that changed the schema.
    Ddl,
    /// Type 11: a statement that the stream doesn't follow.
    Other,
    /// Type 14: a sign that the stream lives.
    Heartbeat,
    /// Type 17: the schema was read anew.
    Version,
    /// Type 19: a savepoint within a transaction.
    Savepoint,
}
