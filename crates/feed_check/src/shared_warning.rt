//! The warning of a key that two feeds touch, as text.

ghost use Rattle.std.specs.Prelude.{◌≡◌, ◌++◌, IfOk, OnOk};
ghost use Rattle.std.specs.Option.{option_copied};
ghost use Rattle.std.specs.String.{string_bytes};
ghost use Rattle.feed_check.specs.Report.{ended, shared_head, shared_text, shared_warning};

use crate::key_text::key_text;
use crate::shared::SharedKey;
use crate::warnings::name_of_table;
use filter_rule::Table;
use shown_text::shown;
use std::alloc::{AllocError, Global};

/// The two streams.
fn shared_head(alloc: Global, shared: &SharedKey<'_, '_>) -> Result<String, AllocError>
    ensures { IfOk result (λ text. string_bytes text ≡ shared_head shared.now) }
{
    let one = shared.one();
    let other = shared.other();
    let text = format!(in alloc; "{one} and {other} touch")?;
    Ok(text)
}

/// That, and behind it the table and the key that both touch.
fn shared_text(
    alloc: Global,
    tables: &[Table],
    shared: &SharedKey<'_, '_>,
) -> Result<String, AllocError>
    ensures { IfOk result (λ text. string_bytes text ≡ shared_text tables.now shared.now) }
{
    let head = shared_head(alloc, shared)?;
    let name = shown(
        alloc,
        name_of_table(tables, shared.key().table()).as_bytes(),
    )?;
    let key = key_text(alloc, shared.key())?;
    let text = format!(in alloc; "{head} table {name} key {key}")?;
    Ok(text)
}

/// A text, and the end of the line.
fn ended(alloc: Global, text: &str) -> Result<String, AllocError>
    ensures { IfOk result (λ line. string_bytes line ≡ ended text.now) }
{
    let line = format!(in alloc; "{text}\n")?;
    Ok(line)
}

/// Puts the warning of a key that two feeds touch behind a text, if there is one.
pub(crate) fn push_shared_warning(
    alloc: Global,
    tables: &[Table],
    shared: Option<&SharedKey<'_, '_>>,
    text: &mut String,
) -> Result<(), AllocError>
    ensures { OnOk result (string_bytes text.new ≡ string_bytes text.old ++ shared_warning tables.now (option_copied shared.entry)) }
{
    if let Some(shared) = shared {
        let warned = shared_text(alloc, tables, shared)?;
        let line = ended(alloc, &warned)?;
        text.push_str("warning streams ")?;
        text.push_str(&line)?;
    }
    Ok(())
}
