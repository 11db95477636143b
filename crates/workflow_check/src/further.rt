//! Where a workflow file names the vindex `hash` and doesn't say that it uses it, and where it says that it uses a
//! vindex that isn't known.

ghost use Rattle.std.specs.Prelude.{◌≡◌, IfOk};
ghost use Rattle.std.specs.Option.{option_map};
ghost use Rattle.serde_json.specs.View.{view};
ghost use Rattle.workflow_check.specs.Further.{is_always_known, file_unsaid, file_further};

use crate::json::items_at;
use crate::rules::vindex_in;
use crate::shape::{Shape, list_in, told_from, told_if};
use crate::told::{Told, here, quoted, said, within};
use filter_rule::uses_hash;
use serde_json::Value;
use std::alloc::{AllocError, Global};
use vindex::Vindex;

/// A table whose vindex may be named in every file.
struct Table;

/// The name of a vindex that a file may say it uses.
struct FurtherName;

/// All of these names.
struct FurtherNames;

/// Whether a vindex may be named in every file.
fn is_always_known(own: Option<(&str, Vindex)>) -> bool
    ensures { result ≡ is_always_known (option_map (λ v. (v.0.now, v.1)) own.entry) }
{
    match own {
        None => true,
        Some((_column, Vindex::Hash)) => false,
        Some(_) => true,
    }
}

impl Shape for Table {
    ghost use Rattle.workflow_check.specs.Further.{unsaid_told};

    ghost tells = { unsaid_told };

    fn told(alloc: Global, value: &Value) -> Result<Option<Told>, AllocError> {
        if is_always_known(vindex_in(value)) {
            return Ok(None);
        }
        let told = said(
            alloc,
            "vindex \"hash\" without the file's member \"vindexes\": [\"hash\"]",
        )?;
        within(alloc, ".vindex[1]", told)
    }
}

impl Shape for FurtherName {
    ghost use Rattle.workflow_check.specs.Further.{further_told};

    ghost tells = { further_told };

    fn told(alloc: Global, value: &Value) -> Result<Option<Told>, AllocError> {
        match value.as_str() {
            None => said(alloc, "no text"),
            Some("hash") => Ok(None),
            Some(name) => {
                let what = quoted(alloc, "no further vindex", name)?;
                Ok(here(alloc, what))
            }
        }
    }
}

impl Shape for FurtherNames {
    ghost use Rattle.workflow_check.specs.Further.{all_further_told};

    ghost tells = { all_further_told };

    fn told(alloc: Global, value: &Value) -> Result<Option<Told>, AllocError> {
        match list_in(value) {
            None => said(alloc, "no list"),
            Some(values) => told_from::<FurtherName>(alloc, values),
        }
    }
}

/// Where a file names `hash` and doesn't say that it uses it.
pub(crate) fn file_unsaid(alloc: Global, file: &Value) -> Result<Option<Told>, AllocError>
    ensures { IfOk result (λ told. told ≡ file_unsaid (view file.now)) }
{
    if uses_hash(file) {
        return Ok(None);
    }
    let told = told_from::<Table>(alloc, items_at(file, "tables"))?;
    within(alloc, "tables", told)
}

/// Where a file says that it uses a vindex that isn't known.
pub(crate) fn file_further(alloc: Global, file: &Value) -> Result<Option<Told>, AllocError>
    ensures { IfOk result (λ told. told ≡ file_further (view file.now)) }
{
    told_if::<FurtherNames>(alloc, file, "vindexes", "vindexes")
}
