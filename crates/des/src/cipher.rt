//! A block enciphered under a key.

ghost use Rattle.std.specs.Prelude.{◌≡◌};
ghost use Rattle.des.specs.Des.{enciphered};

use crate::key_schedule::{RoundKeys, round_keys};
use crate::rounds::enciphered;
use std::marker::Model;

/// The cipher under a key of 64 bits, of which each eighth isn't used. It is seen as its key.
#[derive(Drop)]
pub struct Cipher {
    key: u64,
    odd: [u32; 16],
    even: [u32; 16],
}

impl Model for Cipher {
    ghost use Rattle.std.specs.Prelude.{ℕ};
    ghost use Rattle.des.specs.Private.Words.{HasRoundKeys};

    ghost Value = { ℕ };

    ghost view = { λ cipher. cipher.key };

    ghost invariant = { λ cipher. HasRoundKeys cipher.key cipher.odd cipher.even };
}

impl Cipher {
    /// The cipher under a key, whose first bit is the highest. Takes no memory.
    pub fn new(key: u64) -> Cipher
        ensures { result ≡ key }
    {
        let RoundKeys { odd, even } = round_keys(key);
        Cipher { key, odd, even }
    }

    /// The cipher under the key of zeros. Takes no memory.
    pub fn of_null_key() -> Cipher
        ensures { result ≡ 0 }
    {
        Cipher {
            key: 0,
            odd: [0; 16],
            even: [0; 16],
        }
    }

    /// A block of 64 bits, the first of which is the highest, enciphered. Takes no memory.
    pub fn enciphered(&self, block: u64) -> u64
        ensures { result ≡ enciphered self.now block }
    {
        enciphered(&self.odd, &self.even, block)
    }
}
