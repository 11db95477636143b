//! The line of a refusal: `refused`, its number, and what stands behind it.

ghost use Rattle.std.specs.Prelude.{◌≡◌, ◌++◌, codes, decimal, IfOk, OnOk, map};
ghost use Rattle.log_feed.specs.Table.{table_value};
ghost use Rattle.vrepl_transcribe.specs.Transcribed.{byte_text, file_text, line_of, logs_line, table_text};

use log_feed::FeedTable;
use log_laws::TellFault;
use log_transcribe::LogsFault;
use std::alloc::{AllocError, Global};

/// Appends a number in decimal digits.
fn put_number(line: &mut Vec<u8>, number: u64) -> Result<(), AllocError>
    ensures { OnOk result (line.new.items ≡ line.old.items ++ decimal number) }
{
    let mut digits = itoa::Buffer::new();
    line.extend_from_slice(digits.format(number).as_bytes())
}

/// Appends a name behind a word.
fn put_named(line: &mut Vec<u8>, word: &str, name: &[u8]) -> Result<(), AllocError>
    ensures { OnOk result (line.new.items ≡ line.old.items ++ (word.now ++ name.now)) }
{
    line.extend_from_slice(word.as_bytes())?;
    line.extend_from_slice(name)
}

/// Appends which file is at fault.
fn put_file(line: &mut Vec<u8>, names: &[&str], file: usize) -> Result<(), AllocError>
    ensures { OnOk result (line.new.items ≡ line.old.items ++ file_text (map (λ name. name.now) names.now) file) }
{
    match names.get(file) {
        Some(name) => put_named(line, " file ", name.as_bytes()),
        None => Ok(()),
    }
}

/// Appends which byte of it is.
fn put_byte(line: &mut Vec<u8>, byte: Option<usize>) -> Result<(), AllocError>
    ensures { OnOk result (line.new.items ≡ line.old.items ++ byte_text byte) }
{
    match byte {
        Some(byte) => {
            line.extend_from_slice(b" byte ")?;
            put_number(line, byte as u64)
        }
        None => Ok(()),
    }
}

/// Appends which table is.
fn put_table(
    line: &mut Vec<u8>,
    tables: &[FeedTable<'_>],
    fault: LogsFault,
) -> Result<(), AllocError>
    ensures { OnOk result (line.new.items ≡ line.old.items ++ table_text (map table_value tables.now) fault) }
{
    match fault {
        LogsFault::Tell(_, TellFault::Change(fault)) => match tables.get(fault.table) {
            Some(table) => put_named(line, " table ", table.name.as_bytes()),
            None => Ok(()),
        },
        _ => Ok(()),
    }
}

/// The beginning of the line of a number.
fn begun(alloc: Global, number: u8) -> Result<Vec<u8>, AllocError>
    ensures { IfOk result (λ line. line.items ≡ codes "refused " ++ decimal number) }
{
    let mut line = Vec::new(alloc);
    line.extend_from_slice(b"refused ")?;
    put_number(&mut line, u64::from(number))?;
    Ok(line)
}

/// The line of what is wrong with logs of these names, for a feed of these tables.
pub(crate) fn logs_line(
    alloc: Global,
    names: &[&str],
    tables: &[FeedTable<'_>],
    fault: LogsFault,
    byte: Option<usize>,
) -> Result<Vec<u8>, AllocError>
    ensures { IfOk result (λ line. line.items ≡ logs_line (map (λ name. name.now) names.now) (map table_value tables.now) fault byte) }
{
    let mut line = begun(alloc, fault.number())?;
    put_file(&mut line, names, fault.file())?;
    put_byte(&mut line, byte)?;
    put_table(&mut line, tables, fault)?;
    line.push(b'\n')?;
    Ok(line)
}

/// The line of a table whose name isn't plain.
pub(crate) fn name_line(alloc: Global, name: &str) -> Result<Vec<u8>, AllocError>
    ensures { IfOk result (λ line. line.items ≡ line_of 148 (codes " table " ++ name.now)) }
{
    let mut line = begun(alloc, 148)?;
    put_named(&mut line, " table ", name.as_bytes())?;
    line.push(b'\n')?;
    Ok(line)
}
