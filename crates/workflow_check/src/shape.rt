//! Where a workflow file hasn't the shape of a document.

ghost use Rattle.std.specs.Prelude.{◌≡◌, [], IfOk, codes, map};
ghost use Rattle.std.specs.List.{list_any};
ghost use Rattle.std.specs.Option.{option_map};
ghost use Rattle.std.specs.Str.{bytes_eq};
ghost use Rattle.serde_json.specs.Find.{get};
ghost use Rattle.serde_json.specs.View.{view};
ghost use Rattle.workflow_check.specs.Told.{told_here, told_within, item_step, quoted};
ghost use Rattle.workflow_check.specs.Shape.{told_in, told_if, told_from, second_from, told_of_items, list_told, values_in, told_of_pair, told_of_list};

use crate::told::{Told, here, in_item, quoted, said, within};
use serde_json::Value;
use std::alloc::{AllocError, Global};
use std::collections::BTreeSet;

/// A kind of value.
pub(crate) trait Shape {
    ghost use Rattle.std.specs.Prelude.{◌≡◌, Option, IfOk};
    ghost use Rattle.serde_json.specs.Data.{Data};
    ghost use Rattle.serde_json.specs.View.{view};
    ghost use Rattle.workflow_check.specs.Told.{ToldValue};

    // what is told of a value that isn't of this kind
    ghost tells: { Data → Option ToldValue };

    fn told(alloc: Global, value: &Value) -> Result<Option<Told>, AllocError>
        ensures { IfOk result (λ told. told ≡ tells (view value.now)) };
}

/// A kind of value that has a name.
pub(crate) trait Named: Shape {
    ghost use Rattle.std.specs.Prelude.{◌≡◌, List, ℕ};
    ghost use Rattle.serde_json.specs.Data.{Data};
    ghost use Rattle.serde_json.specs.View.{view};

    // the name
    ghost named: { Data → List ℕ };

    fn name(value: &Value) -> &str
        ensures { result.now ≡ named (view value.now) };
}

/// Told of a member by the step to it, which is to be there.
pub(crate) fn told_in<T: Shape>(
    alloc: Global,
    value: &Value,
    key: &str,
    step: &str,
) -> Result<Option<Told>, AllocError>
    ensures { IfOk result (λ told. told ≡ told_in T.tells step.now (get key.now (view value.now))) }
{
    match value.get(key) {
        None => {
            let missing = said(alloc, "missing")?;
            within(alloc, step, missing)
        }
        Some(found) => {
            let told = T::told(alloc, found)?;
            within(alloc, step, told)
        }
    }
}

/// Told of a member, if it is there.
pub(crate) fn told_if<T: Shape>(
    alloc: Global,
    value: &Value,
    key: &str,
    step: &str,
) -> Result<Option<Told>, AllocError>
    ensures { IfOk result (λ told. told ≡ told_if T.tells step.now (get key.now (view value.now))) }
{
    match value.get(key) {
        None => Ok(None),
        Some(found) => {
            let told = T::told(alloc, found)?;
            within(alloc, step, told)
        }
    }
}

/// The first that is told of items.
pub(crate) fn told_from<T: Shape>(
    alloc: Global,
    values: &[Value],
) -> Result<Option<Told>, AllocError>
    ensures { IfOk result (λ told. told ≡ told_from T.tells 0 (map view values.now)) }
{
    for i in 0..values.len() {
        if let Some(told) = T::told(alloc, &values[i])? {
            return in_item(alloc, i, Some(told));
        }
    }
    Ok(None)
}

/// Whether a name is among others.
fn is_among(names: &[&str], name: &str) -> bool
    ensures { result ≡ list_any (bytes_eq name.now) (map (λ one. one.now) names.now) }
{
    for one in names {
        if name == *one {
            return true;
        }
    }
    false
}

/// Told of a name that stands before it too.
fn second_told(alloc: Global, i: usize, name: &str) -> Result<Option<Told>, AllocError>
    ensures { IfOk result (λ told. told ≡ told_within (item_step i) (told_here (quoted (codes "a second") name.now))) }
{
    let what = quoted(alloc, "a second", name)?;
    in_item(alloc, i, here(alloc, what))
}

/// The first name that stands before it, by the names that were seen, which are kept in their order.
fn second_seen(alloc: Global, names: &[&str]) -> Result<Option<Told>, AllocError>
    ensures { IfOk result (λ told. told ≡ second_from 0 [] (map (λ one. one.now) names.now)) }
{
    let mut seen: BTreeSet<&str> = BTreeSet::new(alloc);
    for i in 0..names.len() {
        let is_new = seen.insert(names[i])?;
        if !is_new {
            return second_told(alloc, i, names[i]);
        }
    }
    Ok(None)
}

/// The first name that stands before it, where the names before are read anew for each.
fn second_again(alloc: Global, names: &[&str]) -> Result<Option<Told>, AllocError>
    ensures { IfOk result (λ told. told ≡ second_from 0 [] (map (λ one. one.now) names.now)) }
{
    for i in 0..names.len() {
        if is_among(&names[..i], names[i]) {
            return second_told(alloc, i, names[i]);
        }
    }
    Ok(None)
}

/// The first name that stands before it. Where memory is given each name is looked up once; else the names
/// before it are read anew for each.
fn second_from(alloc: Global, names: &[&str]) -> Result<Option<Told>, AllocError>
    ensures { IfOk result (λ told. told ≡ second_from 0 [] (map (λ one. one.now) names.now)) }
{
    match second_seen(alloc, names) {
        Ok(told) => Ok(told),
        Err(_) => second_again(alloc, names),
    }
}

/// The names of items.
fn names_of<T: Named>(alloc: Global, values: &[Value]) -> Result<Vec<&str>, AllocError>
    ensures { IfOk result (λ names. map (λ one. one.now) names.items ≡ map T.named (map view values.now)) }
{
    let mut names = Vec::with_capacity(alloc, values.len())?;
    for value in values {
        names.push(T::name(value))?;
    }
    Ok(names)
}

/// Told of each item, and then of the names.
fn told_of_items<T: Named>(alloc: Global, values: &[Value]) -> Result<Option<Told>, AllocError>
    ensures { IfOk result (λ told. told ≡ told_of_items T.Shape.tells T.named (map view values.now)) }
{
    if let Some(told) = told_from::<T>(alloc, values)? {
        return Ok(Some(told));
    }
    let names = names_of::<T>(alloc, values)?;
    second_from(alloc, &names)
}

/// The values of the list that a value is.
pub(crate) fn list_in(value: &Value) -> Option<&[Value]>
    ensures { option_map (λ values. map view values.now) result ≡ values_in (view value.now) }
{
    match value.as_array() {
        None => None,
        Some(values) => Some(values.as_slice()),
    }
}

/// Told of a list of items with names.
pub(crate) fn list_told<T: Named>(alloc: Global, value: &Value) -> Result<Option<Told>, AllocError>
    ensures { IfOk result (λ told. told ≡ list_told T.Shape.tells T.named (view value.now)) }
{
    match list_in(value) {
        None => said(alloc, "no list"),
        Some(values) => told_of_items::<T>(alloc, values),
    }
}

/// Told of two values.
fn told_of_pair<A: Shape, B: Shape>(
    alloc: Global,
    values: &[Value],
) -> Result<Option<Told>, AllocError>
    ensures { IfOk result (λ told. told ≡ told_of_pair A.tells B.tells (map view values.now)) }
{
    match values {
        [first, second] => {
            if let Some(told) = A::told(alloc, first)? {
                return in_item(alloc, 0, Some(told));
            }
            let told = B::told(alloc, second)?;
            in_item(alloc, 1, told)
        }
        _ => said(alloc, "no list of two"),
    }
}

/// Told of a list of two.
pub(crate) fn pair_told<A: Shape, B: Shape>(
    alloc: Global,
    value: &Value,
) -> Result<Option<Told>, AllocError>
    ensures { IfOk result (λ told. told ≡ told_of_list (told_of_pair A.tells B.tells) (values_in (view value.now))) }
{
    match list_in(value) {
        None => said(alloc, "no list"),
        Some(values) => told_of_pair::<A, B>(alloc, values),
    }
}
