//! Reading of dumps.

ghost use Rattle.std.specs.Prelude.{◌≡◌, ◌⊎◌, ℕ, ◌+◌, ◌<◌, ◌≤◌, ◌++◌, IfOk, Ok, Err, length, MatchOption, IfSome, IsErr, IsOk, List};
ghost use Rattle.std.specs.List.{AllByRecursion};
ghost use Rattle.filter_rule.specs.PlanValue.{kept_columns_of, table_name};
ghost use Rattle.pk_copy.specs.KeyOfKept.{key_of_kept};
ghost use Rattle.dump.specs.Dump.{table_line};
ghost use Rattle.dump.specs.DumpReading.{FitsPlan, IsDump, IsFirstBad, NoLineStands, BeginsAsRow, MayHaveRow, AreReadOnce, at_front};
ghost use Rattle.dump.specs.DumpFaults.{number_of};
ghost use Rattle.dump.specs.DumpRowsValue.{DumpRowsValue};
ghost use Rattle.dump.specs.Private.Known.{StandsKnown};
ghost use Rattle.dump.specs.Private.Reading.{TakesLine, TakesRowLine, NoRowStands};

use crate::line_fault::LineFault;
use crate::lined_rows::{LinedRows, keep_line};
use crate::row_cells::{RowCells, take_row};
use crate::rows::DumpRows;
use filter_rule::Plan;
use pace::{Meter, Portions, Unmetered};
use pk_copy::Key;
use row_view::{RowBuf, RowBytes};
use std::alloc::Global;
use std::marker::Model;
use thiserror::Error;

/// Why a text isn't read as a dump.
#[derive(Clone, Copy, Debug, PartialEq, Eq, Error)]
pub enum DumpFault {
    /// 121: this line, counted from 1, can't stand there, or is missing where the text ends.
    #[error("line {line} can't stand in a dump of these tables")]
    BadDump { line: usize },
    /// 72: a growth of memory was refused.
    #[error("out of memory")]
    Memory,
}

/// What stands behind some lines: how many tables have begun, and the rows so far; and the memory that
/// one line after another is read into. Seen in contracts as what stands behind the lines.
#[derive(Drop)]
struct LinesRead {
    begun: usize,
    rows: DumpRows,
    cells: RowCells,
    message: Vec<u8>,
}

impl Model for LinesRead {
    ghost use Rattle.dump.specs.DumpReading.{Behind};

    ghost Value = { Behind };

    ghost view = { λ r. record { begun = r.begun; rows = r.rows } };
}

impl DumpFault {
    /// The number of the fault.
    pub fn number(&self) -> u8
        ensures { result ≡ number_of self.now }
    {
        match self {
            DumpFault::BadDump { .. } => 121,
            DumpFault::Memory => 72,
        }
    }
}

impl LinesRead {
    /// No line.
    fn new(alloc: Global) -> LinesRead
        ensures { result ≡ at_front }
    {
        LinesRead {
            begun: 0,
            rows: DumpRows::new(alloc),
            cells: RowCells::new(alloc),
            message: Vec::new(alloc),
        }
    }

    /// Takes a line off the front as `take_line` does, but doesn't decode it where it is the known one at the place,
    /// and leaves the place where the next line is looked for among the known ones. Whatever place it is, the same
    /// is read.
    fn take_next<'t>(
        &mut self,
        alloc: Global,
        plan: &Plan,
        known: &LinedRows<'_>,
        place: &mut usize,
        text: &'t [u8],
    ) -> Result<&'t [u8], LineFault>
        requires { AllByRecursion (FitsPlan plan.now) known.now }
        ensures taken { IfOk result (λ rest. TakesLine plan.now self.old self.new text.now rest.now) }
        ensures bad { result ≡ Err LineFault.Bad → NoLineStands plan.now self.old text.now }
        ensures memory { result ≡ Err LineFault.Memory → 1 ≤ self.old.begun }
        ensures row { result ≡ Err LineFault.Memory → BeginsAsRow text.now }
    {
        // (for its contract: what is true of every plan)
        plan.tables();
        match self.known_in_front(known, *place, text) {
            Some((key, row, rest)) => {
                let copy = row.try_clone(alloc)?;
                let again = key.try_clone(alloc)?;
                self.rows.push(again, copy)?;
                *place = place.wrapping_add(1);
                Ok(rest)
            }
            None => {
                let outcome = self.take_line(alloc, plan, text);
                *place = known.place_behind(*place, &self.rows);
                outcome
            }
        }
    }

    /// The known row at a place with its key, and what stands behind its line, if that is in front and the row can
    /// stand there.
    fn known_in_front<'k, 't>(
        &self,
        known: &'k LinedRows<'_>,
        place: usize,
        text: &'t [u8],
    ) -> Option<(&'k Key, &'k RowBuf, &'t [u8])>
        ensures { IfSome result (λ found. StandsKnown known.now self.now text.now (found.0.now, found.1.now) found.2.now) }
    {
        let (key, row, line) = known.line_at(place)?;
        let rest = behind(text, line)?;
        let begun = usize::from(key.table()) + 1;
        if begun != self.begun {
            return None;
        }
        if !self.rows.is_behind_all(key) {
            return None;
        }
        Some((key, row, rest))
    }

    /// Takes a line off the front: that of the next table's name, or of a row.
    fn take_line<'t>(
        &mut self,
        alloc: Global,
        plan: &Plan,
        text: &'t [u8],
    ) -> Result<&'t [u8], LineFault>
        ensures taken { IfOk result (λ rest. TakesLine plan.now self.old self.new text.now rest.now) }
        ensures bad { result ≡ Err LineFault.Bad → NoLineStands plan.now self.old text.now }
        ensures memory { result ≡ Err LineFault.Memory → 1 ≤ self.old.begun }
        ensures row { result ≡ Err LineFault.Memory → BeginsAsRow text.now }
    {
        if let Some(rest) = behind_table_line(plan, self.begun, text) {
            self.begun += 1;
            return Ok(rest);
        }
        let rest = self.take_row_line(alloc, plan, text)?;
        Ok(rest)
    }

    /// Takes the line of a row off the front, of the table that began last.
    fn take_row_line<'t>(
        &mut self,
        alloc: Global,
        plan: &Plan,
        text: &'t [u8],
    ) -> Result<&'t [u8], LineFault>
        ensures taken { IfOk result (λ rest. TakesRowLine plan.now self.old self.new text.now rest.now) }
        ensures bad { result ≡ Err LineFault.Bad → NoRowStands plan.now self.old text.now }
        ensures memory { result ≡ Err LineFault.Memory → 1 ≤ self.old.begun }
        ensures row { result ≡ Err LineFault.Memory → BeginsAsRow text.now }
    {
        let tables = plan.tables().len();
        if self.begun == 0 || self.begun > tables {
            return Err(LineFault::Bad);
        }
        let t = (self.begun - 1) as u8;
        let width = plan.kept_columns(t).len();
        let rest = take_row(&mut self.cells, &mut self.message, alloc, width, text)?;
        let row = RowBytes::of_row(&self.message);
        let key = key_of_row(alloc, plan, t, &row)?;
        if !self.rows.is_behind_all(&key) {
            return Err(LineFault::Bad);
        }
        let copy = RowBuf::from_bytes(alloc, &row)?;
        self.rows.push(key, copy)?;
        Ok(rest)
    }
}

/// The key of a row of table `t`.
fn key_of_row(alloc: Global, plan: &Plan, t: u8, row: &RowBytes<'_>) -> Result<Key, LineFault>
    requires table { t < length plan.now.tables }
    requires columns { length row.now ≡ length (kept_columns_of plan.now t) }
    ensures ok { IfOk result (λ key. (key_of_kept plan.now t row.now ≡ Ok key) × (key.table ≡ t)) }
    ensures bad { result ≡ Err LineFault.Bad → IsErr (key_of_kept plan.now t row.now) }
    ensures memory { result ≡ Err LineFault.Memory → IsOk (key_of_kept plan.now t row.now) }
{
    match Key::of_kept(alloc, plan, t, row)? {
        Ok(key) => Ok(key),
        Err(_) => Err(LineFault::Bad),
    }
}

/// Reads a dump of the plan's tables: exactly the texts that `write_dump` writes of rows that fit them are
/// read, and then as these rows. `BadDump` names the first line, from 1, that can't stand behind those
/// before it: any other than the next table's or a row's of the table that began last, of its kept columns, with a
/// key that can be read and is greater than those so far; where lines are missing, the one behind the last.
/// A line without its end can't stand there. Any other error is want of memory, which comes of a line alone that
/// stands behind the name of a table and begins as a row's does. Linear in the text.
pub fn read_dump(alloc: Global, plan: &Plan, bytes: &[u8]) -> Result<DumpRows, DumpFault>
    ensures ok { IfOk result (λ rows. IsDump plan.now rows bytes.now) }
    ensures only { (rows : DumpRowsValue) → IsDump plan.now rows bytes.now → (result ≡ Ok rows) ⊎ (result ≡ Err DumpFault.Memory) }
    ensures bad { (n : ℕ) → (result ≡ Err (DumpFault.BadDump n)) → IsFirstBad plan.now bytes.now n }
    ensures first { (n : ℕ) → IsFirstBad plan.now bytes.now n → (result ≡ Err (DumpFault.BadDump n)) ⊎ (result ≡ Err DumpFault.Memory) }
    // Memory is wanted for what begins as a row alone, behind the name of a table.
    ensures memory { result ≡ Err DumpFault.Memory → MayHaveRow plan.now bytes.now }
{
    match read_lines(
        alloc,
        plan,
        bytes,
        &LinedRows::none(alloc),
        false,
        &Unmetered,
    ) {
        Ok(read) => Ok(read.into_rows()),
        Err(fault) => Err(fault),
    }
}

/// Reads a dump as `read_dump` does, and keeps the text of its rows' lines, so that another dump can be read beside it.
/// Where there is no memory for a text, it isn't kept, nor is one behind it. Each line is a part that is done; that so many
/// begin is the caller's to tell.
pub fn read_lined_dump<'t, M: Meter>(
    alloc: Global,
    plan: &Plan,
    bytes: &'t [u8],
    meter: &M,
) -> Result<LinedRows<'t>, DumpFault>
    ensures ok { IfOk result (λ rows. IsDump plan.now rows bytes.now) }
    ensures only { (rows : DumpRowsValue) → IsDump plan.now rows bytes.now → (result ≡ Ok rows) ⊎ (result ≡ Err DumpFault.Memory) }
    ensures bad { (n : ℕ) → (result ≡ Err (DumpFault.BadDump n)) → IsFirstBad plan.now bytes.now n }
    ensures first { (n : ℕ) → IsFirstBad plan.now bytes.now n → (result ≡ Err (DumpFault.BadDump n)) ⊎ (result ≡ Err DumpFault.Memory) }
    ensures memory { result ≡ Err DumpFault.Memory → MayHaveRow plan.now bytes.now }
{
    read_lines(alloc, plan, bytes, &LinedRows::none(alloc), true, meter)
}

/// Reads a dump as `read_dump` does, beside the rows of another one under the plan: a row whose line stands there as the
/// same text, behind those found so far, is copied and isn't decoded. Each line is a part that is done; that so many begin is
/// the caller's to tell.
pub fn read_dump_beside<M: Meter>(
    alloc: Global,
    plan: &Plan,
    bytes: &[u8],
    known: &LinedRows<'_>,
    meter: &M,
) -> Result<DumpRows, DumpFault>
    requires { AllByRecursion (FitsPlan plan.now) known.now }
    ensures ok { IfOk result (λ rows. IsDump plan.now rows bytes.now) }
    ensures only { (rows : DumpRowsValue) → IsDump plan.now rows bytes.now → (result ≡ Ok rows) ⊎ (result ≡ Err DumpFault.Memory) }
    ensures bad { (n : ℕ) → (result ≡ Err (DumpFault.BadDump n)) → IsFirstBad plan.now bytes.now n }
    ensures first { (n : ℕ) → IsFirstBad plan.now bytes.now n → (result ≡ Err (DumpFault.BadDump n)) ⊎ (result ≡ Err DumpFault.Memory) }
    ensures memory { result ≡ Err DumpFault.Memory → MayHaveRow plan.now bytes.now }
{
    match read_lines(alloc, plan, bytes, known, false, meter) {
        Ok(read) => Ok(read.into_rows()),
        Err(fault) => Err(fault),
    }
}

/// Reads a dump, beside known rows, and keeps its lines or not.
fn read_lines<'t, M: Meter>(
    alloc: Global,
    plan: &Plan,
    bytes: &'t [u8],
    known: &LinedRows<'_>,
    keeps: bool,
    meter: &M,
) -> Result<LinedRows<'t>, DumpFault>
    requires { AllByRecursion (FitsPlan plan.now) known.now }
    ensures ok { IfOk result (λ rows. IsDump plan.now rows bytes.now) }
    ensures only { (rows : DumpRowsValue) → IsDump plan.now rows bytes.now → (result ≡ Ok rows) ⊎ (result ≡ Err DumpFault.Memory) }
    ensures bad { (n : ℕ) → (result ≡ Err (DumpFault.BadDump n)) → IsFirstBad plan.now bytes.now n }
    ensures first { (n : ℕ) → IsFirstBad plan.now bytes.now n → (result ≡ Err (DumpFault.BadDump n)) ⊎ (result ≡ Err DumpFault.Memory) }
    ensures memory { result ≡ Err DumpFault.Memory → MayHaveRow plan.now bytes.now }
{
    let mut read = LinesRead::new(alloc);
    let mut lines = Vec::new(alloc);
    let mut place = 0;
    let mut rest = bytes;
    let mut line: usize = 1;
    let mut portions = Portions::of(meter);
    while !rest.is_empty() {
        let count = read.rows.len();
        match read.take_next(alloc, plan, known, &mut place, rest) {
            Ok(behind) => {
                keep_line(&mut lines, keeps, count, &read.rows, rest, behind);
                rest = behind;
            }
            Err(LineFault::Bad) => return Err(DumpFault::BadDump { line }),
            Err(LineFault::Memory) => return Err(DumpFault::Memory),
        }
        line += 1;
        portions.has_done_one();
    }
    portions.tell();
    if read.begun < plan.tables().len() {
        return Err(DumpFault::BadDump { line });
    }
    Ok(LinedRows::new(read.rows, lines))
}

/// Each text is read as one thing alone: a dump determines its rows and has no line that can't stand, and in
/// any other text one line is the first that can't.
pub fn texts_are_read_once()
    ensures { AreReadOnce }
{}

/// What stands behind the line of a table's name in front.
fn behind_table_line<'t>(plan: &Plan, t: usize, text: &'t [u8]) -> Option<&'t [u8]>
    ensures line { MatchOption result
        (t < length plan.now.tables → (rest : List ℕ) → text.now ≡ table_line (table_name plan.now t) ++ rest → ⊥)
        (λ rest. (t < length plan.now.tables) × (text.now ≡ table_line (table_name plan.now t) ++ rest.now)) }
    ensures few { IfSome result (λ rest. t < 64) }
{
    let tables = plan.tables();
    if t >= tables.len() {
        return None;
    }
    let table = &tables[t];
    let name = behind(text, b"table ")?;
    let end = behind(name, table.name().as_bytes())?;
    let rest = behind(end, b"\n")?;
    Some(rest)
}

/// What stands behind a text in front.
fn behind<'t>(text: &'t [u8], front: &[u8]) -> Option<&'t [u8]>
    ensures { MatchOption result ((rest : List ℕ) → text.now ≡ front.now ++ rest → ⊥) (λ rest. text.now ≡ front.now ++ rest.now) }
{
    match text.strip_prefix(front) {
        Some(rest) => Some(rest),
        None => None,
    }
}
