//! Looking into a JSON value.

ghost use Rattle.std.specs.Prelude.{◌≡◌, Some, map};
ghost use Rattle.serde_json.specs.View.{view};
ghost use Rattle.filter_rule.specs.Faults.{GivesOrFails};
ghost use Rattle.filter_rule.specs.Document.{member_in, in_utf8, text_of, list_of, text_in, list_in, pair_of};

use crate::fault::PlanFault;
use serde_json::Value;

/// The member of an object, which is to be there.
pub(crate) fn member<'v>(value: &'v Value, key: &str) -> Result<&'v Value, PlanFault>
    ensures { GivesOrFails (λ v. view v.now) result (member_in key.now (view value.now)) }
{
    match value.get(key) {
        Some(found) => Ok(found),
        None => Err(PlanFault::Shape),
    }
}

/// The text, which is UTF-8.
fn in_utf8(text: &str) -> &str
    ensures { in_utf8 text.now ≡ Some result.now }
{
    text
}

/// A value that is to be a text.
pub(crate) fn text(value: &Value) -> Result<&str, PlanFault>
    ensures { GivesOrFails (λ s. s.now) result (text_of (view value.now)) }
{
    match value.as_str() {
        Some(text) => Ok(in_utf8(text)),
        None => Err(PlanFault::Shape),
    }
}

/// A value that is to be a list.
pub(crate) fn list(value: &Value) -> Result<&[Value], PlanFault>
    ensures { GivesOrFails (λ vs. map view vs.now) result (list_of (view value.now)) }
{
    match value.as_array() {
        Some(values) => Ok(values.as_slice()),
        None => Err(PlanFault::Shape),
    }
}

/// A member that is to be a text.
#[tactic(auto, unfolding(crate::specs::Document::text_in))]
pub(crate) fn text_in<'v>(value: &'v Value, key: &str) -> Result<&'v str, PlanFault>
    ensures { GivesOrFails (λ s. s.now) result (text_in key.now (view value.now)) }
{
    text(member(value, key)?)
}

/// A member that is to be a list.
#[tactic(auto, unfolding(crate::specs::Document::list_in))]
pub(crate) fn list_in<'v>(value: &'v Value, key: &str) -> Result<&'v [Value], PlanFault>
    ensures { GivesOrFails (λ vs. map view vs.now) result (list_in key.now (view value.now)) }
{
    list(member(value, key)?)
}

/// A value that is to be a list of two.
#[tactic(auto, unfolding(crate::specs::Document::pair_of))]
pub(crate) fn pair(value: &Value) -> Result<(&Value, &Value), PlanFault>
    ensures { GivesOrFails (λ p. (view p.0.now, view p.1.now)) result (pair_of (view value.now)) }
{
    match list(value)? {
        [first, second] => Ok((first, second)),
        _ => Err(PlanFault::Shape),
    }
}
