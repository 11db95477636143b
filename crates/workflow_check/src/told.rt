//! Where a workflow file has a fault, and what it is.

ghost use Rattle.std.specs.Prelude.{◌≡◌, ◌++◌, IfOk};
ghost use Rattle.std.specs.String.{string_bytes};
ghost use Rattle.workflow_check.specs.Told.{told_here, told_within, item_step, quoted};

use crate::note::number_text;
use shown_text::shown;
use std::alloc::{AllocError, Global};
use std::marker::Model;

/// Where a workflow file has a fault: the path of a value within another one, and what is wrong there.
#[derive(Drop)]
pub(crate) struct Told {
    at: String,
    what: String,
}

impl Model for Told {
    ghost use Rattle.std.specs.String.{string_bytes};
    ghost use Rattle.workflow_check.specs.Told.{ToldValue};

    ghost Value = { ToldValue };

    ghost view = { λ t. record { at = string_bytes t.at; what = string_bytes t.what } };
}

impl Told {
    /// The path.
    pub(crate) fn at(&self) -> &str
        ensures { result.now ≡ self.now.at }
    {
        self.at.as_str()
    }

    /// What is wrong.
    pub(crate) fn what(&self) -> &str
        ensures { result.now ≡ self.now.what }
    {
        self.what.as_str()
    }

    /// The same, told of a value that is one step further out.
    fn behind(self, alloc: Global, step: &str) -> Result<Told, AllocError>
        ensures { IfOk result (λ told. told ≡ record { at = step.now ++ self.at; what = self.what }) }
    {
        let mut at = String::from_str(alloc, step)?;
        at.push_str(&self.at)?;
        Ok(Told {
            at,
            what: self.what,
        })
    }
}

/// Told of a value itself.
pub(crate) fn here(alloc: Global, what: String) -> Option<Told>
    ensures { result ≡ told_here (string_bytes what) }
{
    Some(Told {
        at: String::new(alloc),
        what,
    })
}

/// Told of a value itself, in these words.
pub(crate) fn said(alloc: Global, what: &str) -> Result<Option<Told>, AllocError>
    ensures { IfOk result (λ told. told ≡ told_here what.now) }
{
    let what = String::from_str(alloc, what)?;
    Ok(here(alloc, what))
}

/// Told of a value within another one.
pub(crate) fn within(
    alloc: Global,
    step: &str,
    told: Option<Told>,
) -> Result<Option<Told>, AllocError>
    ensures { IfOk result (λ out. out ≡ told_within step.now told) }
{
    match told {
        None => Ok(None),
        Some(told) => Ok(Some(told.behind(alloc, step)?)),
    }
}

/// The step to an item.
fn item_step(alloc: Global, i: usize) -> Result<String, AllocError>
    ensures { IfOk result (λ text. string_bytes text ≡ item_step i) }
{
    let number = number_text(alloc, i)?;
    let mut text = String::from_str(alloc, "[")?;
    text.push_str(&number)?;
    text.push_str("]")?;
    Ok(text)
}

/// Told of an item.
pub(crate) fn in_item(
    alloc: Global,
    i: usize,
    told: Option<Told>,
) -> Result<Option<Told>, AllocError>
    ensures { IfOk result (λ out. out ≡ told_within (item_step i) told) }
{
    let step = item_step(alloc, i)?;
    within(alloc, &step, told)
}

/// What is missed, beside what stands there.
pub(crate) fn quoted(alloc: Global, missed: &str, text: &str) -> Result<String, AllocError>
    ensures { IfOk result (λ what. string_bytes what ≡ quoted missed.now text.now) }
{
    let text = shown(alloc, text.as_bytes())?;
    let mut what = String::from_str(alloc, missed)?;
    what.push_str(" \"")?;
    what.push_str(&text)?;
    what.push_str("\"")?;
    Ok(what)
}
