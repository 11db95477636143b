//! Names of tables and columns.

ghost use Rattle.std.specs.Prelude.{◌≡◌, List, ℕ};
ghost use Rattle.std.specs.List.{list_all};
ghost use Rattle.serde_json.specs.View.{view};
ghost use Rattle.filter_rule.specs.Faults.{GivesOrFails};
ghost use Rattle.filter_rule.specs.Document.{is_fit, is_name, name_of};

use crate::fault::PlanFault;
use crate::json::text;
use serde_json::Value;
use std::marker::Model;

/// A name of 1 to 256 bytes without control characters of ASCII, lent from the workflow file.
#[derive(Drop)]
pub(crate) struct Name<'v> {
    text: &'v str,
}

impl<'v> Model for Name<'v> {
    ghost use Rattle.std.specs.Prelude.{List, ℕ};

    ghost Value = { List ℕ };

    ghost view = { λ n. n.text.now };
}

impl<'v> Name<'v> {
    /// The name's text.
    pub(crate) fn as_str(&self) -> &'v str
        ensures { result.now ≡ self.now }
    {
        self.text
    }
}

fn is_fit(b: u8) -> bool
    ensures { result ≡ is_fit b }
{
    b >= b' ' && b != 0x7f
}

fn are_fit(bytes: &[u8]) -> bool
    ensures { result ≡ list_all is_fit bytes.now }
{
    bytes.iter().all(|b| is_fit(*b))
}

fn is_name(text: &str) -> bool
    ensures { result ≡ is_name text.now }
{
    let bytes = text.as_bytes();
    !bytes.is_empty() && bytes.len() <= 256 && are_fit(bytes)
}

/// A value that is to be a name.
#[tactic(auto, unfolding(crate::specs::Document::name_of))]
pub(crate) fn name_of(value: &Value) -> Result<Name<'_>, PlanFault>
    ensures { GivesOrFails (λ n. n) result (name_of (view value.now)) }
{
    let text = text(value)?;
    if is_name(text) {
        Ok(Name { text })
    } else {
        Err(PlanFault::Shape)
    }
}
