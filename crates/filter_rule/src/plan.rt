//! A stream's plan.

ghost use Rattle.std.specs.Prelude.{◌≡◌, ◌↔◌, IsTrue, ◌<◌, length, position, slice_get, IfSome};
ghost use Rattle.std.specs.Option.{option_copied};
ghost use Rattle.std.specs.Str.{bytes_eq};
ghost use Rattle.filter_rule.specs.Private.PlanParts.{plan_value};
ghost use Rattle.filter_rule.specs.WellFormed.{IsPlan, AreColumnPlaces, AreKept};
ghost use Rattle.filter_rule.specs.Extending.{IsExtended};
ghost use Rattle.filter_rule.specs.Splitting.{SplitRow};
ghost use Rattle.filter_rule.specs.PlanValue.{PlanValue, columns_of, key_columns_of, kept_columns_of, table_of_name, passes_of};

use crate::decision::Decision;
use crate::same::{all_same, begins_with};
use crate::table::{ColumnDef, Table};
use row_view::RowBytes;
use std::marker::Model;
use std::sync::Arc;
use vindex::VindexFault;

/// What all plans of a workflow share.
#[derive(Drop)]
pub(crate) struct Schema {
    pub(crate) keyspace: String,
    pub(crate) tables: Vec<Table>,
}

/// One stream's plan: its keyspace and shard, the tables, and which rows of each table it keeps.
#[derive(Drop)]
pub struct Plan {
    schema: Arc<Schema>,
    shard: String,
    decisions: Vec<Decision>,
}

impl Model for Plan {
    ghost use Rattle.filter_rule.specs.Splitting.{SplitRow};
    ghost use Rattle.filter_rule.specs.PlanValue.{PlanValue};

    ghost Value = { PlanValue };

    ghost use Rattle.filter_rule.specs.Private.PlanParts.{plan_value};
    ghost use Rattle.filter_rule.specs.WellFormed.{IsPlan};

    ghost view = { λ p. plan_value p.schema p.shard p.decisions };

    ghost invariant = { λ p. IsPlan (plan_value p.schema p.shard p.decisions) };
}

impl Plan {
    /// A plan over shared tables.
    pub(crate) fn new(schema: Arc<Schema>, shard: String, decisions: Vec<Decision>) -> Plan
        requires { IsPlan (plan_value schema shard decisions) }
        ensures { result ≡ plan_value schema shard decisions }
    {
        Plan {
            schema,
            shard,
            decisions,
        }
    }

    /// The keyspace's name.
    pub fn keyspace(&self) -> &str
        ensures { result.now ≡ self.now.keyspace }
    {
        self.schema.keyspace.as_str()
    }

    /// The source shard's name.
    pub fn shard(&self) -> &str
        ensures { result.now ≡ self.now.shard }
    {
        self.shard.as_str()
    }

    /// The tables, in copying order: 1 to 64 of them, with distinct names. A table has 1 to 256 columns
    /// with distinct names, and 1 to 8 distinct key columns of types that a key can have; its vindex and
    /// the plan's filters name columns of types that their vindexes can take.
    pub fn tables(&self) -> &[Table]
        ensures tables { result.now ≡ self.now.tables }
        // What is true of every plan.
        ensures well_formed { IsPlan self.now }
    {
        self.schema.tables.as_slice()
    }

    /// The number of the table of this name, if there is one.
    pub fn table(&self, name: &str) -> Option<u8>
        ensures number { result ≡ table_of_name self.now name.now }
        ensures within { IfSome result (λ t. t < length self.now.tables) }
    {
        let place = place_of_table(&self.schema.tables, name)?;
        Some(place as u8)
    }

    /// Table `t`, if the plan has it.
    fn table_at(&self, t: u8) -> Option<&Table>
        ensures table { option_copied result ≡ slice_get self.now.tables t }
        ensures whole { IsPlan self.now }
    {
        self.tables().get(usize::from(t))
    }

    /// The columns of table `t`, in order; none where the plan has no such table.
    pub fn columns(&self, t: u8) -> &[ColumnDef]
        ensures { result.now ≡ columns_of self.now t }
    {
        match self.table_at(t) {
            Some(table) => table.columns(),
            None => &[],
        }
    }

    /// The places of the key columns of table `t`, from 0, in key order; none where the plan has no such table.
    pub fn key_columns(&self, t: u8) -> &[u8]
        ensures places { result.now ≡ key_columns_of self.now t }
        ensures within { AreColumnPlaces (columns_of self.now t) (key_columns_of self.now t) }
    {
        match self.table_at(t) {
            Some(table) => table.key(),
            None => &[],
        }
    }

    /// The places of the columns that the target keeps of table `t`, from 0, in kept order: the same in
    /// each plan of a file. Each is that of a column, none stands twice, and each key column is one of
    /// them. There are none where the plan has no such table.
    pub fn kept_columns(&self, t: u8) -> &[u8]
        ensures places { result.now ≡ kept_columns_of self.now t }
        ensures kept { AreKept (columns_of self.now t) (key_columns_of self.now t) (kept_columns_of self.now t) }
    {
        match self.table_at(t) {
            Some(table) => table.kept(),
            None => &[],
        }
    }

    /// Whether a row of table `t` passes the stream's filter: the answer of the first rule that matches
    /// the table, and no where none does. A rule by a key range asks for the id of its column's value,
    /// also where the range is whole: `NullValue` for NULL and `NotANumber` where a number from 0 to
    /// 2^64 - 1 is due. Of the row's columns it decodes none behind that one, and takes no memory. That `t`
    /// is a table of the plan and that the row has as many columns as the table is the caller's.
    pub fn passes(&self, t: u8, row: &RowBytes<'_>) -> Result<bool, VindexFault>
        requires table { t < length self.now.tables }
        requires columns { length row.now ≡ length (columns_of self.now t) }
        ensures value { result ≡ passes_of self.now t row.now }
        // Where plans split a table's rows by key ranges, each row whose id is defined passes in one of them.
        ensures split { SplitRow t row.now }
    {
        self.decisions[usize::from(t)].keeps(row)
    }
}

impl Plan {
    /// Whether both plans mean the same: keyspace, shard, tables, and for each table no rule, every
    /// row, or the same column, vindex and bounds, and the same columns kept in the same order. Texts that mean the same are the same. Takes no
    /// memory.
    pub fn same(&self, other: &Plan) -> bool
        ensures { IsTrue result ↔ (self.now ≡ other.now) }
    {
        self.schema.keyspace == other.schema.keyspace
            && self.shard == other.shard
            && all_same(&self.schema.tables, &other.schema.tables)
            && all_same(&self.decisions, &other.decisions)
    }

    /// Whether both plans have the same tables in the same order, with the same columns, types, key,
    /// vindex and kept columns. Takes no memory.
    pub fn same_tables(&self, other: &Plan) -> bool
        ensures { IsTrue result ↔ (self.now.tables ≡ other.now.tables) }
    {
        all_same(&self.schema.tables, &other.schema.tables)
    }

    /// Whether this plan is the other with one or more tables appended last, and all else the same for
    /// the other's tables: keyspace, shard, and each table's columns, types, key, vindex, kept
    /// columns and rule by its meaning. Takes no memory.
    pub fn extends(&self, other: &Plan) -> bool
        ensures { IsTrue result ↔ IsExtended other.now self.now }
    {
        self.schema.keyspace == other.schema.keyspace
            && self.shard == other.shard
            && self.schema.tables.len() > other.schema.tables.len()
            && begins_with(&self.schema.tables, &other.schema.tables)
            && begins_with(&self.decisions, &other.decisions)
    }
}

fn place_of_table(tables: &[Table], name: &str) -> Option<usize>
    ensures value { result ≡ position (λ table. bytes_eq table.name name.now) tables.now }
    ensures within { IfSome result (λ t. t < length tables.now) }
{
    tables.iter().position(|table| table.name() == name)
}
