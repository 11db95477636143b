//! The FIELDs that are in force.

ghost use Rattle.std.specs.Prelude.{◌≡◌, Some, IfOk};
ghost use Rattle.std.specs.List.{filter};
ghost use Rattle.feed_bytes.specs.Private.FieldsBehind.{is_of_another, behind_named};

use crate::place::Source;
use std::alloc::{AllocError, Global};
use std::marker::Model;

/// A FIELD event of a feed: the name that its table has there, and the event's bytes.
#[derive(Drop)]
pub struct FieldBytes<'h> {
    name: &'h str,
    bytes: &'h [u8],
}

impl<'h> Model for FieldBytes<'h> {
    ghost use Rattle.feed_bytes.specs.FieldBytes.{FieldBytesValue};

    ghost Value = { FieldBytesValue };

    ghost view = { λ f. record { name = f.name.now; bytes = f.bytes.now } };
}

impl<'h> FieldBytes<'h> {
    /// The table's name, as it stands in the feed.
    pub fn name(&self) -> &'h str
        ensures { result.now ≡ self.now.name }
    {
        self.name
    }

    /// The event's bytes.
    pub fn bytes(&self) -> &'h [u8]
        ensures { result.now ≡ self.now.bytes }
    {
        self.bytes
    }

    /// The same again.
    fn copy(&self) -> FieldBytes<'h>
        ensures { result ≡ self.now }
    {
        FieldBytes {
            name: self.name,
            bytes: self.bytes,
        }
    }
}

/// The FIELDs of other tables than one, in order.
fn of_others<'h>(
    alloc: Global,
    fields: &[FieldBytes<'h>],
    source: &Source<'_>,
    table: &str,
) -> Result<Vec<FieldBytes<'h>>, AllocError>
    ensures { IfOk result (λ others. others.items ≡ filter (is_of_another source.now table.now) fields.now) }
{
    let mut others = Vec::with_capacity(alloc, fields.len())?;
    for field in fields {
        if *source.table(field.name) != *table {
            others.push(field.copy())?;
        }
    }
    Ok(others)
}

/// The FIELDs in force behind one more, of the table of this name: those of other tables, and it.
pub(crate) fn with_field<'h>(
    alloc: Global,
    fields: &[FieldBytes<'h>],
    source: &Source<'_>,
    name: &'h str,
    bytes: &'h [u8],
) -> Result<Vec<FieldBytes<'h>>, AllocError>
    ensures { IfOk result (λ new. new.items ≡ behind_named source.now fields.now bytes.now (Some name.now)) }
{
    let mut fields = of_others(alloc, fields, source, source.table(name))?;
    fields.push(FieldBytes { name, bytes })?;
    Ok(fields)
}
