//! Vindexes beyond the four, which a file says that it uses.

ghost use Rattle.std.specs.Prelude.{◌≡◌, map, option_map};
ghost use Rattle.std.specs.List.{list_all, list_any};
ghost use Rattle.serde_json.specs.Find.{as_array};
ghost use Rattle.serde_json.specs.View.{view};
ghost use Rattle.filter_rule.specs.Document.{listed, further_in, is_hash, uses_hash, uses_no_other, may_name, vindex_named};

use serde_json::Value;
use vindex::Vindex;

/// The values of the list that a value is.
fn values_in(value: &Value) -> Option<&[Value]>
    ensures { option_map (λ values. map view values.now) result ≡ option_map listed (as_array (view value.now)) }
{
    match value.as_array() {
        Some(values) => Some(values.as_slice()),
        None => None,
    }
}

/// The values that the member `vindexes` lists: none where it isn't there, `None` where it is no list.
#[tactic(auto, unfolding(crate::specs::Document::further_in))]
fn further_in(value: &Value) -> Option<&[Value]>
    ensures { option_map (λ values. map view values.now) result ≡ further_in (view value.now) }
{
    match value.get("vindexes") {
        None => Some(&[]),
        Some(member) => values_in(member),
    }
}

fn is_hash(value: &Value) -> bool
    ensures { result ≡ is_hash (view value.now) }
{
    match value.as_str() {
        Some(name) => name == "hash",
        None => false,
    }
}

fn have_hash(values: &[Value]) -> bool
    ensures { result ≡ list_any (λ value. is_hash (view value)) values.now }
{
    values.iter().any(|value| is_hash(value))
}

fn are_hash(values: &[Value]) -> bool
    ensures { result ≡ list_all (λ value. is_hash (view value)) values.now }
{
    values.iter().all(|value| is_hash(value))
}

/// Whether a workflow file says that it uses the vindex `hash`: its member `vindexes` is a list that has
/// this text. Takes no memory.
pub fn uses_hash(value: &Value) -> bool
    ensures { result ≡ uses_hash (view value.now) }
{
    match further_in(value) {
        Some(values) => have_hash(values),
        None => false,
    }
}

/// Whether the file says that it uses no vindex beyond the four but `hash`.
pub(crate) fn uses_no_other(value: &Value) -> bool
    ensures { result ≡ uses_no_other (view value.now) }
{
    match further_in(value) {
        Some(values) => are_hash(values),
        None => false,
    }
}

/// Whether a vindex may be named, in a file that uses `hash` or doesn't.
pub(crate) fn may_name(hash: bool, vindex: Vindex) -> bool
    ensures { result ≡ may_name hash vindex }
{
    match vindex {
        Vindex::Numeric | Vindex::ReverseBits | Vindex::Binary | Vindex::BinaryMd5 => true,
        Vindex::Hash => hash,
    }
}

/// The vindex of a name, if it may be named.
pub(crate) fn vindex_named(hash: bool, name: &str) -> Option<Vindex>
    ensures { result ≡ vindex_named hash name.now }
{
    match Vindex::parse(name) {
        Ok(vindex) if may_name(hash, vindex) => Some(vindex),
        _ => None,
    }
}
