//! Looking into a workflow file's JSON value: what isn't there is empty.

ghost use Rattle.std.specs.Prelude.{◌≡◌, map, option_map};
ghost use Rattle.serde_json.specs.View.{view};
ghost use Rattle.workflow_check.specs.Json.{items_in, items_at, text_said, text_at};
ghost use Rattle.workflow_check.specs.Rules.{rule_values, named_vindex, own_vindex, first_rule, rules_in};

use serde_json::Value;
use vindex::Vindex;

/// The values of a list.
fn items_in(value: &Value) -> &[Value]
    ensures { map view result.now ≡ items_in (view value.now) }
{
    match value.as_array() {
        None => &[],
        Some(values) => values.as_slice(),
    }
}

/// The values of a member that is a list.
pub(crate) fn items_at<'v>(value: &'v Value, key: &str) -> &'v [Value]
    ensures { map view result.now ≡ items_at key.now (view value.now) }
{
    match value.get(key) {
        None => &[],
        Some(found) => items_in(found),
    }
}

/// A text.
fn text_in(value: &Value) -> &str
    ensures { result.now ≡ text_said (view value.now) }
{
    match value.as_str() {
        None => "",
        Some(text) => text,
    }
}

/// A member that is a text.
pub(crate) fn text_at<'v>(value: &'v Value, key: &str) -> &'v str
    ensures { result.now ≡ text_at key.now (view value.now) }
{
    match value.get(key) {
        None => "",
        Some(found) => text_in(found),
    }
}

/// The values of a stream's rules.
fn rule_values(stream: &Value) -> &[Value]
    ensures { map view result.now ≡ rule_values (view stream.now) }
{
    match stream.get("filter") {
        None => &[],
        Some(filter) => items_at(filter, "rules"),
    }
}

/// The filter of a stream's first rule that matches a table.
pub(crate) fn first_filter<'v>(stream: &'v Value, table: &str) -> Option<&'v str>
    ensures { option_map (λ filter. filter.now) result ≡ option_map (λ rule. rule.filter) (first_rule (rules_in (view stream.now)) table.now) }
{
    let rules = rule_values(stream);
    for rule in rules {
        let matches = text_at(rule, "match");
        if matches == "/.*" || table == matches {
            return Some(text_at(rule, "filter"));
        }
    }
    None
}

/// A vindex by the column's name and its own.
fn named_vindex(values: &[Value]) -> Option<(&str, Vindex)>
    ensures { option_map (λ v. (v.0.now, v.1)) result ≡ named_vindex (map view values.now) }
{
    match values {
        [column, name] => match Vindex::parse(text_in(name)) {
            Ok(vindex) => Some((text_in(column), vindex)),
            Err(_) => None,
        },
        _ => None,
    }
}

/// The vindex of a table, if it has one.
pub(crate) fn vindex_in(table: &Value) -> Option<(&str, Vindex)>
    ensures { option_map (λ v. (v.0.now, v.1)) result ≡ own_vindex (view table.now) }
{
    match table.get("vindex") {
        None => None,
        Some(value) => named_vindex(items_in(value)),
    }
}
