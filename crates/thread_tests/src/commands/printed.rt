//! What a command has printed into memory that was zero before.

use std::alloc::AllocError;

/// Nothing is printed from here on.
fn is_blank_at(printed: &[u8], at: usize) -> bool {
    match printed.get(at) {
        Some(byte) => *byte == 0,
        None => false,
    }
}

/// This text is printed, and nothing behind it.
pub fn is_printed(printed: &[u8], wanted: &[u8]) -> bool {
    printed.starts_with(wanted) && is_blank_at(printed, wanted.len())
}

/// A command answers its status; an error where its line on standard error says that memory was wanting.
fn status_or_memory(status: u8, err: &[u8]) -> Result<u8, AllocError> {
    if err.starts_with(b"refused 72\n") {
        return Err(AllocError);
    }
    Ok(status)
}

/// A command ended well, and has printed this text and no line on standard error; an error where memory was
/// wanting.
pub fn is_done(status: u8, out: &[u8], err: &[u8], wanted: &[u8]) -> Result<bool, AllocError> {
    let status = status_or_memory(status, err)?;
    Ok(status == 0 && is_blank_at(err, 0) && is_printed(out, wanted))
}

/// A command ended well, and has printed this text, and this one on standard error; an error where memory was wanting.
pub fn is_told(
    status: u8,
    out: &[u8],
    err: &[u8],
    wanted: &[u8],
    told: &[u8],
) -> Result<bool, AllocError> {
    let status = status_or_memory(status, err)?;
    Ok(status == 0 && is_printed(err, told) && is_printed(out, wanted))
}

/// A command was refused since standard output had only so much room, and has filled it with a beginning of
/// this text; an error where memory was wanting.
pub fn is_cut(status: u8, out: &[u8], err: &[u8], wanted: &[u8]) -> Result<bool, AllocError> {
    let status = status_or_memory(status, err)?;
    Ok(status == 1 && wanted.starts_with(out) && is_printed(err, b"refused 132 file -\n"))
}
