//! Statements.

ghost use Rattle.std.specs.Prelude.{◌≡◌};
ghost use Rattle.list_laws.specs.Outcome.{Gives};
ghost use Rattle.log_groups.specs.Body.{query_value, query_at};

use log_events::{Size, number_at};
use log_tables::{TableFault, front_of};

/// A statement. Its bytes are slices of the event's body.
#[derive(Clone, Copy, Debug, PartialEq, Eq)]
pub struct Query<'b> {
    /// the schema in which it was made
    pub schema: &'b [u8],
    pub text: &'b [u8],
}

/// The statement of an event's body. Takes no memory.
#[tactic(auto, unfolding(crate::specs::Body::query_at))]
pub fn query_of(body: &[u8]) -> Result<Query<'_>, TableFault>
    ensures { Gives query_value result (query_at body.now) }
{
    let (head, behind) = front_of(body, 13)?;
    let (_, behind_variables) = front_of(behind, number_at(head, 11, Size::Two))?;
    let (schema, rest) = front_of(behind_variables, number_at(head, 8, Size::One))?;
    let (_, text) = front_of(rest, 1)?;
    Ok(Query { schema, text })
}
