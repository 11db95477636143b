//! The rules of a workflow's streams and the tables that they are for.

ghost use Rattle.std.specs.Prelude.{◌≡◌, ◌++◌, IfOk, OnOk, map};
ghost use Rattle.std.specs.Option.{option_copied, option_map};
ghost use Rattle.serde_json.specs.View.{view};
ghost use Rattle.filter_rule.specs.FirstRule.{is_match};
ghost use Rattle.workflow_check.specs.Rules.{rule_in, rule_values, rules_in, named_vindex, own_vindex, names_in, first_rule, has_match, unmatched_from, unmatched_in};

use crate::ignored::in_item;
use crate::json::{items_at, items_in, text_at, text_in};
use crate::note::{Flaw, Note, item_place};
use serde_json::Value;
use std::alloc::{AllocError, Global};
use std::marker::Model;
use vindex::Vindex;

/// A rule's `match` and `filter`, lent from the file.
#[derive(Drop)]
pub(crate) struct Rule<'v> {
    matches: &'v str,
    filter: &'v str,
}

impl<'v> Model for Rule<'v> {
    ghost use Rattle.std.specs.Prelude.{true};
    ghost use Rattle.filter_rule.specs.Document.{RuleSaid};

    ghost Value = { RuleSaid };

    ghost view = { λ r. record { matches = r.matches.now; filter = r.filter.now; uses_hash = true } };
}

impl<'v> Rule<'v> {
    /// The rule that a value says.
    fn of(value: &'v Value) -> Rule<'v>
        ensures { result ≡ rule_in (view value.now) }
    {
        Rule {
            matches: text_at(value, "match"),
            filter: text_at(value, "filter"),
        }
    }

    /// Whether the rule matches a table.
    pub(crate) fn is_for(&self, table: &str) -> bool
        ensures { result ≡ is_match self.now table.now }
    {
        self.matches == "/.*" || table == self.matches
    }

    /// The rule's filter.
    pub(crate) fn filter(&self) -> &'v str
        ensures { result.now ≡ self.now.filter }
    {
        self.filter
    }
}

/// The values of a stream's rules.
fn rule_values(stream: &Value) -> &[Value]
    ensures { map view result.now ≡ rule_values (view stream.now) }
{
    match stream.get("filter") {
        None => &[],
        Some(filter) => items_at(filter, "rules"),
    }
}

/// The rules of a stream.
pub(crate) fn rules_in(alloc: Global, stream: &Value) -> Result<Vec<Rule<'_>>, AllocError>
    ensures { IfOk result (λ rules. rules.items ≡ rules_in (view stream.now)) }
{
    let values = rule_values(stream);
    let mut rules = Vec::with_capacity(alloc, values.len())?;
    for value in values {
        rules.push(Rule::of(value))?;
    }
    Ok(rules)
}

/// A vindex by the column's name and its own.
fn named_vindex(values: &[Value]) -> Option<(&str, Vindex)>
    ensures { option_map (λ v. (v.0.now, v.1)) result ≡ named_vindex (map view values.now) }
{
    match values {
        [column, name] => match Vindex::parse(text_in(name)) {
            Ok(vindex) => Some((text_in(column), vindex)),
            Err(_) => None,
        },
        _ => None,
    }
}

/// The vindex of a table, if it has one.
pub(crate) fn vindex_in(table: &Value) -> Option<(&str, Vindex)>
    ensures { option_map (λ v. (v.0.now, v.1)) result ≡ own_vindex (view table.now) }
{
    match table.get("vindex") {
        None => None,
        Some(value) => named_vindex(items_in(value)),
    }
}

/// The names of the tables.
pub(crate) fn names_in(alloc: Global, tables: &[Value]) -> Result<Vec<&str>, AllocError>
    ensures { IfOk result (λ names. map (λ name. name.now) names.items ≡ names_in (map view tables.now)) }
{
    let mut names = Vec::with_capacity(alloc, tables.len())?;
    for table in tables {
        names.push(text_at(table, "name"))?;
    }
    Ok(names)
}

/// The first rule that matches a table.
pub(crate) fn first_rule<'r, 'v>(rules: &'r [Rule<'v>], table: &str) -> Option<&'r Rule<'v>>
    ensures { option_copied result ≡ first_rule rules.now table.now }
{
    for rule in rules {
        if rule.is_for(table) {
            return Some(rule);
        }
    }
    None
}

/// Whether a rule matches a table.
fn has_match(tables: &[&str], rule: &Rule<'_>) -> bool
    ensures { result ≡ has_match (map (λ name. name.now) tables.now) rule.now }
{
    for table in tables {
        if rule.is_for(table) {
            return true;
        }
    }
    false
}

/// Puts the rules of the list at a path that match no table behind the notes.
fn push_unmatched(
    alloc: Global,
    tables: &[&str],
    list: &str,
    rules: &[Rule<'_>],
    notes: &mut Vec<Note>,
) -> Result<(), AllocError>
    ensures { OnOk result (notes.new.items ≡ notes.old.items ++ unmatched_from (map (λ name. name.now) tables.now) list.now 0 rules.now) }
{
    for j in 0..rules.len() {
        if !has_match(tables, &rules[j]) {
            let place = item_place(alloc, list, j)?;
            notes.push(Note::new(alloc, place, Flaw::Unmatched, "")?)?;
        }
    }
    Ok(())
}

/// Puts the rules of the streams that match no table behind the notes.
pub(crate) fn push_all_unmatched(
    alloc: Global,
    tables: &[&str],
    streams: &[Value],
    notes: &mut Vec<Note>,
) -> Result<(), AllocError>
    ensures { OnOk result (notes.new.items ≡ notes.old.items ++ unmatched_in (map (λ name. name.now) tables.now) 0 (map view streams.now)) }
{
    for i in 0..streams.len() {
        let mut list = in_item(alloc, "streams", i)?;
        list.push_str("filter.rules")?;
        let rules = rules_in(alloc, &streams[i])?;
        push_unmatched(alloc, tables, &list, &rules, notes)?;
    }
    Ok(())
}
