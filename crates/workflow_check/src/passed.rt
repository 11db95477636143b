//! The rows of each table that each stream passes, one by one.

ghost use Rattle.std.specs.Prelude.{◌≡◌, ◌++◌, IfOk, OnOk, map};
ghost use Rattle.serde_json.specs.View.{view};
ghost use Rattle.workflow_check.specs.Passed as said;
ghost use Rattle.workflow_check.specs.Passed.{passed_at, passed_by, passed_from};

use crate::file::value_in;
use crate::json::{items_at, text_at};
use crate::passing::table_words;
use crate::rules::{Rule, rules_in};
use serde_json::Value;
use std::alloc::{AllocError, Global};
use std::marker::Model;

/// The rows of a table that a stream passes, in words.
#[derive(Drop)]
pub struct Passed {
    stream: usize,
    table: String,
    rows: String,
}

impl Model for Passed {
    ghost use Rattle.std.specs.String.{string_bytes};
    ghost use Rattle.workflow_check.specs.Passed.{PassedValue};

    ghost Value = { PassedValue };

    ghost view = { λ p. record { stream = p.stream; table = string_bytes p.table; rows = string_bytes p.rows } };
}

impl Passed {
    /// The number of the stream, from 0.
    pub fn stream(&self) -> usize
        ensures { result ≡ self.now.stream }
    {
        self.stream
    }

    /// The name of the table.
    pub fn table(&self) -> &str
        ensures { result.now ≡ self.now.table }
    {
        self.table.as_str()
    }

    /// The rows, in words.
    pub fn rows(&self) -> &str
        ensures { result.now ≡ self.now.rows }
    {
        self.rows.as_str()
    }

    /// The rows of a table that a stream with these rules passes.
    fn of(
        alloc: Global,
        stream: usize,
        rules: &[Rule<'_>],
        table: &Value,
    ) -> Result<Passed, AllocError>
        ensures { IfOk result (λ passed. passed ≡ passed_at stream rules.now (view table.now)) }
    {
        let rows = table_words(alloc, rules, table)?;
        let table = String::from_str(alloc, text_at(table, "name"))?;
        Ok(Passed {
            stream,
            table,
            rows,
        })
    }
}

/// Puts those of a stream behind others.
fn push_stream(
    alloc: Global,
    stream: usize,
    rules: &[Rule<'_>],
    tables: &[Value],
    passed: &mut Vec<Passed>,
) -> Result<(), AllocError>
    ensures { OnOk result (passed.new.items ≡ passed.old.items ++ passed_by stream rules.now (map view tables.now)) }
{
    for table in tables {
        let one = Passed::of(alloc, stream, rules, table)?;
        passed.push(one)?;
    }
    Ok(())
}

/// Puts those of all streams behind others.
fn push_streams(
    alloc: Global,
    tables: &[Value],
    streams: &[Value],
    passed: &mut Vec<Passed>,
) -> Result<(), AllocError>
    ensures { OnOk result (passed.new.items ≡ passed.old.items ++ passed_from (map view tables.now) 0 (map view streams.now)) }
{
    for i in 0..streams.len() {
        let rules = rules_in(alloc, &streams[i])?;
        push_stream(alloc, i, &rules, tables, passed)?;
    }
    Ok(())
}

/// The rows of each table that each stream passes, in words, stream by stream. An error is want of memory.
pub fn passed_of(alloc: Global, text: &[u8]) -> Result<Vec<Passed>, AllocError>
    ensures { IfOk result (λ passed. passed.items ≡ said.passed_of text.now) }
{
    let mut passed = Vec::new(alloc);
    if let Some(file) = value_in(alloc, text)? {
        let tables = items_at(&file, "tables");
        push_streams(alloc, tables, items_at(&file, "streams"), &mut passed)?;
    }
    Ok(passed)
}
