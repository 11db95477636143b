//! Small pieces of text, written together.

ghost use Rattle.std.specs.Prelude.{◌≡◌, ℕ, ◌+◌, ◌*◌, ◌/◌, ◌%◌, ◌≤◌, List, [], ◌++◌, OnOk, length, map, slice_index};
ghost use Rattle.hex.specs.Hex.{encode_lower, lower_digits};
ghost use Rattle.printing.specs.Printing.{Prints, Adds};
ghost use Rattle.printing.specs.Private.Spelling.{IsSpelled};

use crate::put::put_all;
use crate::writer::{Out, OutFailed};
use std::marker::Model;
use std::simd::prelude::*;

/// The most bytes that wait.
const ROOM: usize = 4096;

/// The most bytes whose digits can wait.
const PART: usize = ROOM / 2;

/// How many bytes are spelled side by side.
const BLOCK: usize = 16;

/// Half of them.
const HALF: usize = 8;

/// The digits in lower case.
const DIGITS: [u8; 16] = *b"0123456789abcdef";

/// The two hexadecimal digits of each byte in lower case, pair behind pair.
static PAIRS: [u8; 512] =
    *b"000102030405060708090a0b0c0d0e0f101112131415161718191a1b1c1d1e1f202122232425262728292a2b2c2d2e2f303132333435363738393a3b3c3d3e3f404142434445464748494a4b4c4d4e4f505152535455565758595a5b5c5d5e5f606162636465666768696a6b6c6d6e6f707172737475767778797a7b7c7d7e7f808182838485868788898a8b8c8d8e8f909192939495969798999a9b9c9d9e9fa0a1a2a3a4a5a6a7a8a9aaabacadaeafb0b1b2b3b4b5b6b7b8b9babbbcbdbebfc0c1c2c3c4c5c6c7c8c9cacbcccdcecfd0d1d2d3d4d5d6d7d8d9dadbdcdddedfe0e1e2e3e4e5e6e7e8e9eaebecedeeeff0f1f2f3f4f5f6f7f8f9fafbfcfdfeff";

/// Text that waits to be written, at most 4 KiB: small pieces are gathered here and written together once
/// they fill it, and at the end by `finish`. It lies in the value itself. Seen in contracts as the bytes
/// that wait.
#[derive(Drop)]
pub struct Gathered {
    bytes: [u8; ROOM],
    len: usize,
}

impl Model for Gathered {
    ghost use Rattle.std.specs.Prelude.{ℕ, ◌≤◌, List, take};
    ghost use Rattle.printing.specs.declared.gathered.TheConstants.{ROOM};

    ghost Value = { List ℕ };

    ghost view = { λ g. take g.len g.bytes };

    ghost invariant = { λ g. g.len ≤ ROOM };
}

impl Gathered {
    /// Nothing waits.
    pub fn new() -> Gathered
        ensures { result ≡ [] }
    {
        Gathered {
            bytes: [0; ROOM],
            len: 0,
        }
    }

    /// Adds a piece of text behind what waits. Takes no memory. After a fault what was written is a
    /// beginning of what waited and the piece.
    #[inline(always)]
    pub fn put<O: Out>(&mut self, out: &mut O, piece: &[u8]) -> Result<(), OutFailed>
        ensures { Adds result (O.written out.old) self.old (O.written out.new) self.new piece.now }
    {
        if piece.len() > ROOM {
            self.finish(out)?;
            return put_all(out, piece);
        }
        self.make_room(out, piece.len())?;
        self.add(piece);
        Ok(())
    }

    /// Adds bytes in lower case hexadecimal, two digits a byte, the high half first. Else as `put`.
    pub fn put_hex<O: Out>(&mut self, out: &mut O, bytes: &[u8]) -> Result<(), OutFailed>
        ensures { Adds result (O.written out.old) self.old (O.written out.new) self.new (encode_lower bytes.now) }
    {
        if bytes.len() > (ROOM - self.len) / 2 {
            return self.put_hex_parts(out, bytes);
        }
        self.add_hex(bytes);
        Ok(())
    }

    /// Adds the digits of bytes for which there may be no room, as many at once as can wait.
    #[inline(never)]
    fn put_hex_parts<O: Out>(&mut self, out: &mut O, bytes: &[u8]) -> Result<(), OutFailed>
        ensures { Adds result (O.written out.old) self.old (O.written out.new) self.new (encode_lower bytes.now) }
    {
        let mut rest = bytes;
        while rest.len() > PART {
            let (part, behind) = rest.split_at(PART);
            self.put_hex_part(out, part)?;
            rest = behind;
        }
        self.put_hex_part(out, rest)
    }

    /// Adds the digits of some bytes, at most as many as can wait.
    fn put_hex_part<O: Out>(&mut self, out: &mut O, part: &[u8]) -> Result<(), OutFailed>
        requires { length part.now ≤ PART }
        ensures { Adds result (O.written out.old) self.old (O.written out.new) self.new (encode_lower part.now) }
    {
        self.make_room(out, 2 * part.len())?;
        self.add_hex(part);
        Ok(())
    }

    /// Writes what waits. After a fault what was written is a beginning of it.
    #[inline(never)]
    pub fn finish<O: Out>(&mut self, out: &mut O) -> Result<(), OutFailed>
        ensures printed { Prints result (O.written out.old) (O.written out.new) self.old }
        ensures empty { OnOk result (self.new ≡ []) }
    {
        put_all(out, &self.bytes[..self.len])?;
        self.len = 0;
        Ok(())
    }

    /// Makes room for so many bytes, at most 4 KiB: writes what waits where there is less.
    #[inline(always)]
    fn make_room<O: Out>(&mut self, out: &mut O, count: usize) -> Result<(), OutFailed>
        requires { count ≤ ROOM }
        ensures added { Adds result (O.written out.old) self.old (O.written out.new) self.new [] }
        ensures room { OnOk result (length self.new + count ≤ ROOM) }
    {
        if ROOM - self.len < count {
            self.finish(out)?;
        }
        Ok(())
    }

    /// Adds a piece for which there is room.
    #[inline(always)]
    fn add(&mut self, piece: &[u8])
        requires { length self.old + length piece.now ≤ ROOM }
        ensures { self.new ≡ self.old ++ piece.now }
    {
        let end = self.len + piece.len();
        self.bytes[self.len..end].copy_from_slice(piece);
        self.len = end;
    }

    /// Adds the digits of some bytes for which there is room.
    #[inline(always)]
    fn add_hex(&mut self, piece: &[u8])
        requires { length self.old + 2 * length piece.now ≤ ROOM }
        ensures { self.new ≡ self.old ++ encode_lower piece.now }
    {
        let end = self.len + 2 * piece.len();
        spell(piece, &mut self.bytes[self.len..end]);
        self.len = end;
    }
}

/// The digits of a block of bytes, which are looked up side by side.
#[inline(always)]
fn digits_of(block: &[u8]) -> [u8; 2 * BLOCK]
    requires { length block.now ≡ BLOCK }
    ensures { result ≡ encode_lower block.now }
{
    let bytes = u8x16::from_slice(block);
    let high = high_digits(bytes).to_array();
    let low = low_digits(bytes).to_array();
    let mut digits = [0; 2 * BLOCK];
    for i in 0..BLOCK {
        digits[2 * i] = high[i];
        digits[2 * i + 1] = low[i];
    }
    digits
}

/// The digit of the high half of each byte.
#[inline(always)]
fn high_digits(bytes: u8x16) -> u8x16
    ensures { result ≡ map (λ byte. slice_index lower_digits (byte / 16)) bytes }
{
    u8x16::from_array(DIGITS).swizzle_dyn(bytes >> u8x16::splat(4))
}

/// The digit of the low half of each byte.
#[inline(always)]
fn low_digits(bytes: u8x16) -> u8x16
    ensures { result ≡ map (λ byte. slice_index lower_digits (byte % 16)) bytes }
{
    u8x16::from_array(DIGITS).swizzle_dyn(bytes & u8x16::splat(15))
}

/// Writes the digits of some bytes over room for them.
#[inline(always)]
fn spell(piece: &[u8], room: &mut [u8])
    requires { length room.old ≡ 2 * length piece.now }
    ensures { room.new ≡ encode_lower piece.now }
{
    if piece.len() >= BLOCK {
        spell_blocks(piece, room);
    } else if piece.len() >= HALF {
        spell_halves(piece, room);
    } else {
        spell_few(piece, room);
    }
}

/// Writes the digits of at least a block of bytes over room for them. The last block may begin in the one before it.
#[inline(always)]
fn spell_blocks(piece: &[u8], room: &mut [u8])
    requires some { BLOCK ≤ length piece.now }
    requires room { length room.old ≡ 2 * length piece.now }
    ensures { room.new ≡ encode_lower piece.now }
{
    let last = piece.len() - BLOCK;
    let mut at = 0;
    while at < last {
        spell_block(piece, at, room);
        at += BLOCK;
    }
    spell_block(piece, last, room);
}

/// Writes the digits of the block of bytes at a place, where those of the bytes before it stand, over room for all.
#[inline(always)]
fn spell_block(piece: &[u8], at: usize, room: &mut [u8])
    requires within { at + BLOCK ≤ length piece.now }
    requires room { length room.old ≡ 2 * length piece.now }
    ensures same { length room.new ≡ length room.old }
    ensures spelled { (n : ℕ) → at ≤ n → IsSpelled piece.now room.old n → IsSpelled piece.now room.new (at + BLOCK) }
{
    let digits = digits_of(&piece[at..at + BLOCK]);
    room[2 * at..2 * at + 2 * BLOCK].copy_from_slice(&digits);
}

/// Writes the digits of half a block to a whole one of bytes over room for them: those of half a block at each end.
#[inline(always)]
fn spell_halves(piece: &[u8], room: &mut [u8])
    requires some { HALF ≤ length piece.now }
    requires most { length piece.now ≤ BLOCK }
    requires room { length room.old ≡ 2 * length piece.now }
    ensures { room.new ≡ encode_lower piece.now }
{
    let last = piece.len() - HALF;
    let mut block = [0; BLOCK];
    block[..HALF].copy_from_slice(&piece[..HALF]);
    block[HALF..].copy_from_slice(&piece[last..]);
    let digits = digits_of(&block);
    room[..BLOCK].copy_from_slice(&digits[..BLOCK]);
    room[2 * last..].copy_from_slice(&digits[BLOCK..]);
}

/// Writes the digits of some bytes over room for them, one byte after another.
#[inline(always)]
fn spell_few(piece: &[u8], room: &mut [u8])
    requires { length room.old ≡ 2 * length piece.now }
    ensures { room.new ≡ encode_lower piece.now }
{
    for i in 0..piece.len() {
        let from = usize::from(piece[i]) * 2;
        room[2 * i] = PAIRS[from];
        room[2 * i + 1] = PAIRS[from + 1];
    }
}
