//! The tables of a workflow.

ghost use Rattle.std.specs.Prelude.{◌≡◌, ◌≤◌, length, IfOk};
ghost use Rattle.row_view.specs.FieldValue.{FieldValue};
ghost use Rattle.filter_rule.specs.PlanTable.{TableValue, keeping};

use crate::places::Places;
use crate::same::{Same, all_same};
use std::alloc::{AllocError, Global};
use std::marker::Model;
use vindex::Vindex;

/// A column of a table: its name and its type number (`query.proto`, Type).
#[derive(Drop)]
pub struct ColumnDef {
    name: String,
    type_number: u32,
}

impl Model for ColumnDef {
    ghost use Rattle.std.specs.String.{string_bytes};
    ghost use Rattle.row_view.specs.FieldValue.{FieldValue};

    ghost Value = { FieldValue };

    ghost view = { λ c. record { name = string_bytes c.name; type_number = c.type_number } };
}

impl ColumnDef {
    /// A column of a copy of the name.
    pub(crate) fn new(alloc: Global, name: &str, type_number: u32) -> Result<ColumnDef, AllocError>
        ensures { IfOk result (λ c. c ≡ record { name = name.now; type_number = type_number }) }
    {
        let name = String::from_str(alloc, name)?;
        Ok(ColumnDef { name, type_number })
    }

    /// The column's name.
    pub fn name(&self) -> &str
        ensures { result.now ≡ self.now.name }
    {
        self.name.as_str()
    }

    /// The column's type number.
    pub fn type_number(&self) -> u32
        ensures { result ≡ self.now.type_number }
    {
        self.type_number
    }
}

/// A table: its name, its columns in order, its key, its vindex, if it has one, and the columns that the
/// target keeps of it.
#[derive(Drop)]
pub struct Table {
    name: String,
    columns: Vec<ColumnDef>,
    key: Vec<u8>,
    vindex: Option<(usize, Vindex)>,
    kept: Places,
}

impl Model for Table {
    ghost use Rattle.std.specs.String.{string_bytes};
    ghost use Rattle.filter_rule.specs.PlanTable.{TableValue};

    ghost Value = { TableValue };

    ghost use Rattle.std.specs.Prelude.{◌≤◌, length};

    ghost view = { λ t. record { name = string_bytes t.name; columns = t.columns.items; key = t.key.items; vindex = t.vindex; kept = t.kept } };

    ghost invariant = { λ t. length t.columns.items ≤ 256 };
}

impl Table {
    /// A table of a copy of the name.
    pub(crate) fn new(
        alloc: Global,
        name: &str,
        columns: Vec<ColumnDef>,
        key: Vec<u8>,
        vindex: Option<(usize, Vindex)>,
        kept: Places,
    ) -> Result<Table, AllocError>
        requires { length columns.items ≤ 256 }
        ensures { IfOk result (λ t. t ≡ record { name = name.now; columns = columns.items; key = key.items; vindex = vindex; kept = kept }) }
    {
        let name = String::from_str(alloc, name)?;
        Ok(Table {
            name,
            columns,
            key,
            vindex,
            kept,
        })
    }

    /// Other columns are kept.
    pub(crate) fn keep(&mut self, kept: Places)
        ensures { self.new ≡ keeping self.old kept }
    {
        self.kept = kept;
    }

    /// The table's name.
    pub fn name(&self) -> &str
        ensures { result.now ≡ self.now.name }
    {
        self.name.as_str()
    }

    /// The table's columns, in order: 1 to 256 of them.
    pub fn columns(&self) -> &[ColumnDef]
        ensures { result.now ≡ self.now.columns }
    {
        self.columns.as_slice()
    }

    /// The table's columns, of which there are no more than a byte can number.
    pub(crate) fn few_columns(&self) -> &[ColumnDef]
        ensures columns { result.now ≡ self.now.columns }
        ensures few { length result.now ≤ 256 }
    {
        self.columns.as_slice()
    }

    /// The places of the key columns in the table, from 0, in key order: 1 to 8 of them.
    pub fn key(&self) -> &[u8]
        ensures { result.now ≡ self.now.key }
    {
        self.key.as_slice()
    }

    /// The place of the vindex column and its vindex, if the table has them.
    pub fn vindex(&self) -> Option<(usize, Vindex)>
        ensures { result ≡ self.now.vindex }
    {
        self.vindex
    }

    /// The places of the columns that the target keeps of the table, in kept order: each key column is
    /// one of them, and none stands twice.
    pub fn kept(&self) -> &[u8]
        ensures { result.now ≡ self.now.kept }
    {
        self.kept.as_slice()
    }
}

impl Same for ColumnDef {
    fn same(&self, other: &ColumnDef) -> bool {
        self.name == other.name && self.type_number == other.type_number
    }
}

impl Same for Table {
    fn same(&self, other: &Table) -> bool {
        self.name == other.name
            && all_same(&self.columns, &other.columns)
            && self.key == other.key
            && self.vindex == other.vindex
            && self.kept.same(&other.kept)
    }
}
