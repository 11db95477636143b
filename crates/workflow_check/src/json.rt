//! Looking into a JSON value that was read as a workflow: what isn't there is empty.

ghost use Rattle.std.specs.Prelude.{◌≡◌, map};
ghost use Rattle.serde_json.specs.View.{view};
ghost use Rattle.workflow_check.specs.Json.{items_in, items_at, text_said, text_at};

use serde_json::Value;

/// The values of a list.
pub(crate) fn items_in(value: &Value) -> &[Value]
    ensures { map view result.now ≡ items_in (view value.now) }
{
    match value.as_array() {
        None => &[],
        Some(values) => values.as_slice(),
    }
}

/// The values of a member that is a list.
pub(crate) fn items_at<'v>(value: &'v Value, key: &str) -> &'v [Value]
    ensures { map view result.now ≡ items_at key.now (view value.now) }
{
    match value.get(key) {
        None => &[],
        Some(found) => items_in(found),
    }
}

/// A text.
pub(crate) fn text_in(value: &Value) -> &str
    ensures { result.now ≡ text_said (view value.now) }
{
    match value.as_str() {
        None => "",
        Some(text) => text,
    }
}

/// A member that is a text.
pub(crate) fn text_at<'v>(value: &'v Value, key: &str) -> &'v str
    ensures { result.now ≡ text_at key.now (view value.now) }
{
    match value.get(key) {
        None => "",
        Some(found) => text_in(found),
    }
}
