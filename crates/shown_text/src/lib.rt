//! Texts of a file as they are printed for a person: at most 200 bytes of a name, each printable in ASCII. So a name can
//! neither forge a line nor speak to a terminal.
#![tactic(auto)]

ghost use Rattle.std.specs.Prelude.{◌≡◌, ◌<◌, ◌++◌, IfOk, OnOk, map, take};
ghost use Rattle.std.specs.String.{string_bytes};
ghost use Rattle.shown_text.specs.Shown as said;
ghost use Rattle.shown_text.specs.Shown.{printable_byte};

use std::alloc::{AllocError, Global};

/// How many bytes of a text are shown.
const SHOWN: usize = 200;

/// A byte as it is printed.
fn printable_byte(byte: u8) -> u8
    ensures value { result ≡ printable_byte byte }
    ensures ascii { result < 128 }
{
    if byte >= 32 && byte <= 126 {
        byte
    } else {
        b'?'
    }
}

/// Puts bytes as they are printed behind a text.
fn push_printable(bytes: &[u8], text: &mut String) -> Result<(), AllocError>
    ensures { OnOk result (string_bytes text.new ≡ string_bytes text.old ++ map printable_byte bytes.now) }
{
    for byte in bytes {
        text.push(char::from(printable_byte(*byte)))?;
    }
    Ok(())
}

/// At most so many of the first bytes.
#[tactic(auto, using(list_laws::proofs::Fronts::front_within))]
fn front(bytes: &[u8], most: usize) -> &[u8]
    ensures { result.now ≡ take most bytes.now }
{
    &bytes[..bytes.len().min(most)]
}

/// A text, printable: a byte that isn't printable in ASCII as a question mark. An error is want of memory.
#[tactic(auto, unfolding(crate::specs::Shown::printable))]
pub fn printable(alloc: Global, bytes: &[u8]) -> Result<String, AllocError>
    ensures { IfOk result (λ text. string_bytes text ≡ said.printable bytes.now) }
{
    let mut text = String::new(alloc);
    push_printable(bytes, &mut text)?;
    Ok(text)
}

/// The first 200 bytes of a text, printable. An error is want of memory.
#[tactic(auto, unfolding(crate::specs::Shown::shown))]
pub fn shown(alloc: Global, bytes: &[u8]) -> Result<String, AllocError>
    ensures { IfOk result (λ text. string_bytes text ≡ said.shown bytes.now) }
{
    let mut text = String::new(alloc);
    push_printable(front(bytes, SHOWN), &mut text)?;
    Ok(text)
}
