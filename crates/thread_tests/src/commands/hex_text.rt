//! Hexadecimal text of feeds.

use std::alloc::{AllocError, Global};
use std::test::Fail;
use vrepl_main::{HexFault, bytes_of_hex};

/// The text spells these bytes, or is none; an error where memory was wanting.
fn spells(alloc: Global, text: &str, wanted: Option<&[u8]>) -> Result<bool, AllocError> {
    match bytes_of_hex(alloc, text.as_bytes()) {
        Ok(bytes) => Ok(wanted == Some(bytes.as_slice())),
        Err(HexFault::BadHex) => Ok(wanted.is_none()),
        Err(HexFault::Memory) => Err(AllocError),
    }
}

#[test]
fn skips_blanks_and_line_ends(rt: HostRuntime) -> Result<(), Fail> {
    assert!(rt;
        spells(
            rt.alloc(),
            " 6c\n0A\t0\r\n2 ",
            Some(b"\x6c\x0a\x02".as_slice())
        )?
    );
    Ok(())
}

#[test]
fn refuses_odd_digits_and_other_characters(rt: HostRuntime) -> Result<(), Fail> {
    for text in ["6", "6c0", "6g", "0x6c", "6c,0a"] {
        assert!(rt; spells(rt.alloc(), text, None)?, "{text}");
    }
    Ok(())
}
