//! Hexadecimal text of feeds.

ghost use Rattle.std.specs.Prelude.{◌≡◌, IfOk, IfSome, IsSome, is_some, ◌<◌};
ghost use Rattle.vrepl_main.specs.HexText.{hex_text_digit, hex_bytes, is_skipped_byte};
ghost use Rattle.vrepl_main.specs.declared.hex_text.HexFault.TheVariants.{Memory};

use std::alloc::{AllocFailed, Global};
use thiserror::Error;

/// Why hexadecimal text is not read.
#[derive(Clone, Copy, Debug, PartialEq, Eq, Error)]
pub enum HexFault {
    /// A byte is no digit, blank, tab or end of a line, or the number of digits is odd.
    #[error("no hexadecimal text")]
    BadHex,
    /// A growth of memory was refused.
    #[error("out of memory")]
    Memory,
}

impl<T: Drop> From<AllocFailed<T>> for HexFault {
    ghost from_gives = { λ _ fault. fault ≡ Memory };

    fn from(_fault: AllocFailed<T>) -> HexFault {
        HexFault::Memory
    }
}

/// The bytes that the text spells, two digits a byte, the high half first, digits of either case.
/// Blanks, tabs, CR and LF are skipped wherever they stand.
pub fn bytes_of_hex(alloc: Global, text: &[u8]) -> Result<Vec<u8>, HexFault>
    ensures value { IfOk result (λ bytes. hex_bytes text.now ≡ Some bytes.items) }
    ensures bad { result ≡ Err HexFault.BadHex → hex_bytes text.now ≡ None }
    // Want of memory is told of hexadecimal text alone.
    ensures memory { result ≡ Err HexFault.Memory → IsSome (hex_bytes text.now) }
{
    match spelled(alloc, text) {
        Ok(bytes) => Ok(bytes),
        Err(HexFault::BadHex) => Err(HexFault::BadHex),
        Err(HexFault::Memory) => Err(fault_without_memory(text)),
    }
}

/// The same, where want of memory is told of any text.
fn spelled(alloc: Global, text: &[u8]) -> Result<Vec<u8>, HexFault>
    ensures value { IfOk result (λ bytes. hex_bytes text.now ≡ Some bytes.items) }
    ensures bad { result ≡ Err HexFault.BadHex → hex_bytes text.now ≡ None }
{
    let mut bytes = Vec::new(alloc);
    let mut high: Option<u8> = None;
    for character in text {
        if stands_for_nothing(*character) {
            continue;
        }
        let Some(digit) = digit_value(*character) else {
            return Err(HexFault::BadHex);
        };
        match high {
            None => high = Some(digit),
            Some(first) => {
                bytes.push(first * 16 + digit)?;
                high = None;
            }
        }
    }
    match high {
        None => Ok(bytes),
        Some(_) => Err(HexFault::BadHex),
    }
}

/// Why text is not read where a growth of memory was refused before its end was seen. Takes no memory.
fn fault_without_memory(text: &[u8]) -> HexFault
    ensures bad { result ≡ HexFault.BadHex → hex_bytes text.now ≡ None }
    ensures memory { result ≡ HexFault.Memory → IsSome (hex_bytes text.now) }
{
    if spells_bytes(text) {
        HexFault::Memory
    } else {
        HexFault::BadHex
    }
}

/// Whether the text spells bytes.
fn spells_bytes(text: &[u8]) -> bool
    ensures { result ≡ is_some (hex_bytes text.now) }
{
    let mut high: Option<u8> = None;
    for character in text {
        if stands_for_nothing(*character) {
            continue;
        }
        let Some(digit) = digit_value(*character) else {
            return false;
        };
        match high {
            None => high = Some(digit),
            Some(_) => high = None,
        }
    }
    match high {
        None => true,
        Some(_) => false,
    }
}

/// Whether the character is a blank, a tab, LF or CR.
fn stands_for_nothing(character: u8) -> bool
    ensures { result ≡ is_skipped_byte character }
{
    matches!(character, b' ' | b'\t' | b'\n' | b'\r')
}

/// The value of a digit, below 16.
fn digit_value(character: u8) -> Option<u8>
    ensures value { result ≡ hex_text_digit character }
    ensures range { IfSome result (λ digit. digit < 16) }
{
    match character {
        b'0'..=b'9' => Some(character - b'0'),
        b'a'..=b'f' => Some(character - b'a' + 10),
        b'A'..=b'F' => Some(character - b'A' + 10),
        _ => None,
    }
}
