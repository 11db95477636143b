//! Which rows of a table a stream passes, and which columns it keeps, in words.

ghost use Rattle.std.specs.Prelude.{◌≡◌, ◌++◌, IfOk, OnOk, codes, decimal, map};
ghost use Rattle.std.specs.Option.{option_copied, option_map};
ghost use Rattle.std.specs.String.{string_bytes};
ghost use Rattle.serde_json.specs.View.{view};
ghost use Rattle.shown_text.specs.Shown as said;
ghost use Rattle.vindex.specs.KeyspaceId.{vindex_name};
ghost use Rattle.filter_text.specs.Views.{meaning, rows_said};
ghost use Rattle.workflow_check.specs.Passing.{said_by, rows_by, range_said, end_text, range_text, ranged_text, said_text, table_words, rule_line, stream_lines, rule_lines};

use crate::json::text_at;
use crate::listed::columns_text;
use crate::note::number_text;
use crate::rules::{Rule, first_rule, rules_in, vindex_in};
use filter_text::{Filter, FilterFault, Rows};
use serde_json::Value;
use shown_text::{printable, shown};
use std::alloc::{AllocError, Global};
use std::marker::Model;
use vindex::{KeyRange, Vindex};

/// A key range of ids, with the column and the vindex that give a row its id.
#[derive(Drop)]
pub(crate) struct Ranged<'v> {
    pub(crate) column: &'v str,
    pub(crate) vindex: Vindex,
    pub(crate) range: KeyRange,
}

impl<'v> Model for Ranged<'v> {
    ghost use Rattle.workflow_check.specs.Passing.{RangedValue};

    ghost Value = { RangedValue };

    ghost view = { λ r. record { column = r.column.now; vindex = r.vindex; range = r.range } };
}

/// What a rule's filter says.
fn said_by<'v>(alloc: Global, rule: Option<&Rule<'v>>) -> Result<Option<Filter<'v>>, AllocError>
    ensures { IfOk result (λ said. option_map meaning said ≡ said_by (option_copied rule.entry)) }
{
    let Some(rule) = rule else {
        return Ok(None);
    };
    match Filter::parse(alloc, rule.filter()) {
        Ok(filter) => Ok(Some(filter)),
        Err(FilterFault::Memory) => Err(AllocError),
        Err(FilterFault::BadForm) => Ok(None),
    }
}

/// The rows that a rule's filter names.
pub(crate) fn rows_by<'v>(
    alloc: Global,
    rule: Option<&Rule<'v>>,
) -> Result<Option<Rows<'v>>, AllocError>
    ensures { IfOk result (λ rows. option_map rows_said rows ≡ rows_by (option_copied rule.entry)) }
{
    match said_by(alloc, rule)? {
        None => Ok(None),
        Some(said) => Ok(Some(said.rows)),
    }
}

/// The key range that rows are in.
pub(crate) fn range_of<'v>(own: Option<(&'v str, Vindex)>, rows: Rows<'v>) -> Option<Ranged<'v>>
    ensures { result ≡ range_said (option_map (λ v. (v.0.now, v.1)) own.entry) (rows_said rows.entry) }
{
    match rows {
        Rows::EveryRow => None,
        Rows::OwnVindex { range } => {
            let (column, vindex) = own?;
            Some(Ranged {
                column,
                vindex,
                range,
            })
        }
        Rows::Named {
            column,
            vindex,
            range,
        } => Some(Ranged {
            column,
            vindex,
            range,
        }),
    }
}

/// The end of a range, nothing where it is open.
fn end_text(alloc: Global, end: Option<&[u8]>) -> Result<String, AllocError>
    ensures { IfOk result (λ text. string_bytes text ≡ end_text (option_copied end.entry)) }
{
    match end {
        None => Ok(String::new(alloc)),
        Some(end) => Ok(hex::encode(alloc, end)?),
    }
}

/// A range by its bounds.
fn range_text(alloc: Global, range: &KeyRange) -> Result<String, AllocError>
    ensures { IfOk result (λ text. string_bytes text ≡ range_text range.now) }
{
    let mut text = hex::encode(alloc, range.start())?;
    let end = end_text(alloc, range.end())?;
    text.push_str("-")?;
    text.push_str(&end)?;
    Ok(text)
}

/// The name of a vindex.
pub(crate) fn vindex_name(vindex: Vindex) -> &'static str
    ensures { result.now ≡ vindex_name vindex }
{
    match vindex {
        Vindex::Numeric => "numeric",
        Vindex::ReverseBits => "reverse_bits",
        Vindex::Binary => "binary",
        Vindex::BinaryMd5 => "binary_md5",
        Vindex::Hash => "hash",
    }
}

/// Rows that are in a range, or else every row.
fn ranged_text(alloc: Global, ranged: Option<&Ranged<'_>>) -> Result<String, AllocError>
    ensures { IfOk result (λ text. string_bytes text ≡ ranged_text (option_copied ranged.entry)) }
{
    let Some(ranged) = ranged else {
        return Ok(String::from_str(alloc, "every row")?);
    };
    let range = range_text(alloc, &ranged.range)?;
    let mut text = String::from_str(alloc, "range ")?;
    text.push_str(&range)?;
    text.push_str(" of ")?;
    text.push_str(ranged.column)?;
    text.push_str(" by ")?;
    text.push_str(vindex_name(ranged.vindex))?;
    Ok(text)
}

/// The listed columns of a table and its rows, in words.
fn said_text<'v>(
    alloc: Global,
    own: Option<(&'v str, Vindex)>,
    said: Option<Filter<'v>>,
) -> Result<String, AllocError>
    ensures { IfOk result (λ text. string_bytes text ≡ said_text (option_map (λ v. (v.0.now, v.1)) own.entry) (option_map meaning said.entry)) }
{
    let Some(said) = said else {
        return Ok(String::from_str(alloc, "no row")?);
    };
    let mut text = columns_text(alloc, &said.columns)?;
    let ranged = range_of(own, said.rows);
    let rows = ranged_text(alloc, ranged.as_ref())?;
    text.push_str(&rows)?;
    Ok(text)
}

/// The columns that a stream with these rules lists of a table, and the rows that it passes, in words.
pub(crate) fn table_words(
    alloc: Global,
    rules: &[Rule<'_>],
    table: &Value,
) -> Result<String, AllocError>
    ensures { IfOk result (λ text. string_bytes text ≡ table_words rules.now (view table.now)) }
{
    let said = said_by(alloc, first_rule(rules, text_at(table, "name")))?;
    said_text(alloc, vindex_in(table), said)
}

/// A stream's number and a table's name.
fn line_head(alloc: Global, i: usize, name: &str) -> Result<String, AllocError>
    ensures { IfOk result (λ text. string_bytes text ≡ codes "rule stream " ++ decimal i ++ codes " table " ++ said.shown name.now) }
{
    let number = number_text(alloc, i)?;
    let mut text = String::from_str(alloc, "rule stream ")?;
    text.push_str(&number)?;
    text.push_str(" table ")?;
    text.push_str(&shown(alloc, name.as_bytes())?)?;
    Ok(text)
}

/// The line of a table of a stream with these rules.
fn rule_line(
    alloc: Global,
    i: usize,
    rules: &[Rule<'_>],
    table: &Value,
) -> Result<String, AllocError>
    ensures { IfOk result (λ text. string_bytes text ≡ rule_line i rules.now (view table.now)) }
{
    let mut line = line_head(alloc, i, text_at(table, "name"))?;
    let words = table_words(alloc, rules, table)?;
    let words = printable(alloc, words.as_bytes())?;
    line.push_str(" ")?;
    line.push_str(&words)?;
    line.push_str("\n")?;
    Ok(line)
}

/// Puts the lines of a stream behind a text.
fn push_stream(
    alloc: Global,
    i: usize,
    rules: &[Rule<'_>],
    tables: &[Value],
    text: &mut String,
) -> Result<(), AllocError>
    ensures { OnOk result (string_bytes text.new ≡ string_bytes text.old ++ stream_lines i rules.now (map view tables.now)) }
{
    for table in tables {
        let line = rule_line(alloc, i, rules, table)?;
        text.push_str(&line)?;
    }
    Ok(())
}

/// Puts the lines of all streams behind a text.
pub(crate) fn push_rule_lines(
    alloc: Global,
    tables: &[Value],
    streams: &[Value],
    text: &mut String,
) -> Result<(), AllocError>
    ensures { OnOk result (string_bytes text.new ≡ string_bytes text.old ++ rule_lines (map view tables.now) 0 (map view streams.now)) }
{
    for i in 0..streams.len() {
        let rules = rules_in(alloc, &streams[i])?;
        push_stream(alloc, i, &rules, tables, text)?;
    }
    Ok(())
}
