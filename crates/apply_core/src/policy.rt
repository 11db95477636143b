//! In what portions a stream is run.

ghost use Rattle.std.specs.Prelude.{◌≡◌, ◌↔◌, ◌≤◌, IsSome, IfSome};

/// In what portions a stream reads and copies on its way to its feed's end. Each is at least 1. Whatever they
/// are, the rows at the end are the same.
#[derive(Clone, Copy)]
pub struct Policy {
    /// how many rows are copied at a time
    pub rows: u32,
    /// how many groups are read before a snapshot is opened
    pub ahead: u32,
    /// how many chunks are copied out of a snapshot before it is closed
    pub chunks: u32,
    ghost some_rows: { 1 ≤ rows },
    ghost some_groups: { 1 ≤ ahead },
    ghost some_chunks: { 1 ≤ chunks },
}

impl Policy {
    /// The policy of these portions; none where one of them is 0. Takes no memory.
    pub fn new(rows: u32, ahead: u32, chunks: u32) -> Option<Policy>
        ensures taken { IsSome result ↔ ((1 ≤ rows) × (1 ≤ ahead) × (1 ≤ chunks)) }
        ensures portions { IfSome result (λ policy. (policy.rows ≡ rows) × (policy.ahead ≡ ahead) × (policy.chunks ≡ chunks)) }
    {
        if rows == 0 || ahead == 0 || chunks == 0 {
            return None;
        }
        Some(Policy {
            rows,
            ahead,
            chunks,
        })
    }
}
