//! What a statement that alters tables is to one table.

ghost use Rattle.std.specs.Prelude.{◌≡◌, option_copied};
ghost use Rattle.list_laws.specs.Outcome.{Gives};
ghost use Rattle.log_groups.specs.Body.{query_value};
ghost use Rattle.log_feed.specs.Statement.{behind_create, names_alone, names_within, names_table, makes, drops_schema, concerns, selects, moves_rows, unfilled_to, alters_to};

use crate::fault::Trouble;
use crate::table::Stage;
use crate::words::{begins_by_word, begins_with, behind_name, behind_words, has_word};
use log_events::behind;
use log_groups::Query;

/// What stands behind the first words of a CREATE TABLE.
#[tactic(auto, unfolding(crate::specs::Statement::behind_create))]
fn behind_create(text: &[u8]) -> Option<&[u8]>
    ensures { option_copied result ≡ behind_create text.now }
{
    match behind_words(b"CREATE TABLE IF NOT EXISTS", text) {
        Some(rest) => Some(rest),
        None => match behind_words(b"CREATE OR REPLACE TABLE", text) {
            Some(rest) => Some(rest),
            None => behind_words(b"CREATE TABLE", text),
        },
    }
}

/// Whether a table's name stands alone, where the statement's own schema is the table's.
fn names_alone(same: bool, found: Option<&[u8]>) -> bool
    ensures { result ≡ names_alone same (option_copied found.entry) }
{
    match found {
        Some(rest) => same && !begins_with(b".", rest),
        None => false,
    }
}

/// Whether a table's name stands behind its schema's.
fn names_within(name: &[u8], found: Option<&[u8]>) -> bool
    ensures { result ≡ names_within name.now (option_copied found.entry) }
{
    match found {
        Some(rest) => begins_with(b".", rest) && behind_name(name, behind(rest, 1)).is_some(),
        None => false,
    }
}

/// Whether a table is named in front.
#[tactic(auto, unfolding(crate::specs::Statement::names_table))]
fn names_table(schema: &[u8], name: &[u8], own: &[u8], text: &[u8]) -> bool
    ensures { result ≡ names_table schema.now name.now own.now text.now }
{
    names_alone(own == schema, behind_name(name, text))
        || names_within(name, behind_name(schema, text))
}

/// Whether a statement makes a table.
#[tactic(auto, unfolding(crate::specs::Statement::makes))]
fn makes(schema: &[u8], name: &[u8], query: &Query<'_>) -> bool
    ensures { result ≡ makes schema.now name.now (query_value query.now) }
{
    match behind_create(query.text) {
        Some(text) => names_table(schema, name, query.schema, text),
        None => false,
    }
}

/// Whether a statement drops a schema of this name.
#[tactic(auto, unfolding(crate::specs::Statement::drops_schema))]
fn drops_schema(schema: &[u8], text: &[u8]) -> bool
    ensures { result ≡ drops_schema schema.now text.now }
{
    begins_by_word(b"DROP", text)
        && (has_word(b"DATABASE", text) || has_word(b"SCHEMA", text))
        && has_word(schema, text)
}

/// Whether a statement has a table's name, or drops its schema.
#[tactic(auto, unfolding(crate::specs::Statement::concerns))]
fn concerns(schema: &[u8], name: &[u8], text: &[u8]) -> bool
    ensures { result ≡ concerns schema.now name.now text.now }
{
    has_word(name, text) || drops_schema(schema, text)
}

/// Whether a statement makes a table of rows that it selects: a server that logs rows has it without its SELECT.
#[tactic(auto, unfolding(crate::specs::Statement::selects))]
fn selects(text: &[u8]) -> bool
    ensures { result ≡ selects text.now }
{
    has_word(b"CREATE", text) && has_word(b"TABLE", text) && has_word(b"SELECT", text)
}

/// Whether rows may come into a table that no event has.
#[tactic(auto, unfolding(crate::specs::Statement::moves_rows))]
fn moves_rows(text: &[u8]) -> bool
    ensures { result ≡ moves_rows text.now }
{
    has_word(b"RENAME", text)
        || has_word(b"EXCHANGE", text)
        || has_word(b"IMPORT", text)
        || has_word(b"CONVERT", text)
        || selects(text)
}

/// What a table without rows is behind a statement.
fn unfilled_to(
    schema: &[u8],
    name: &[u8],
    query: &Query<'_>,
    stage: Stage,
) -> Result<Stage, Trouble>
    ensures { Gives (λ s. s) result (unfilled_to schema.now name.now (query_value query.now) stage) }
{
    if moves_rows(query.text) {
        Err(Trouble::Altered)
    } else if makes(schema, name, query) {
        Ok(Stage::Made)
    } else if begins_by_word(b"DROP", query.text) {
        Ok(Stage::Absent)
    } else {
        Ok(stage)
    }
}

/// What a table is behind a statement that alters tables. One that had rows may not be altered, and into another one rows
/// may not come without events: both are `Altered`. Takes no memory.
#[tactic(auto, unfolding(crate::specs::Statement::alters_to))]
pub fn alters_to(
    schema: &[u8],
    name: &[u8],
    query: &Query<'_>,
    stage: Stage,
) -> Result<Stage, Trouble>
    ensures { Gives (λ s. s) result (alters_to schema.now name.now (query_value query.now) stage) }
{
    if !concerns(schema, name, query.text) {
        return Ok(stage);
    }
    match stage {
        Stage::Filled => Err(Trouble::Altered),
        Stage::Absent | Stage::Made => unfilled_to(schema, name, query, stage),
    }
}
