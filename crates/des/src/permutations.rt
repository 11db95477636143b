//! The permutations of a block before and behind the rounds: IP and its inverse, by exchanges of bits.

ghost use Rattle.std.specs.Prelude.{◌≡◌, ◌<◌, ◌^◌};
ghost use Rattle.des.specs.Des.{selected};
ghost use Rattle.des.specs.Private.Exchange.{exchanged};
ghost use Rattle.des.specs.Tables.{initial_permutation, final_permutation};

/// A block in which each bit of a mask and the one that stands some places higher have changed places.
#[inline(always)]
fn exchanged(block: u64, places: u32, mask: u64) -> u64
    requires { places < 64 }
    ensures { result ≡ exchanged block places mask }
{
    let differing = (block ^ (block >> places)) & mask;
    block ^ differing ^ (differing << places)
}

/// A block behind IP.
#[inline(always)]
pub(crate) fn initially_permuted(block: u64) -> u64
    ensures { result ≡ selected initial_permutation 64 block }
{
    let block = exchanged(block, 3, 0x1111_1111_1111_1111);
    let block = exchanged(block, 6, 0x0303_0303_0303_0303);
    let block = exchanged(block, 9, 0x0055_0055_0055_0055);
    let block = exchanged(block, 18, 0x0000_3333_0000_3333);
    exchanged(block, 36, 0x0000_0000_0f0f_0f0f)
}

/// A block behind the inverse of IP: the same exchanges, the last first.
#[inline(always)]
pub(crate) fn finally_permuted(block: u64) -> u64
    ensures { result ≡ selected final_permutation 64 block }
{
    let block = exchanged(block, 36, 0x0000_0000_0f0f_0f0f);
    let block = exchanged(block, 18, 0x0000_3333_0000_3333);
    let block = exchanged(block, 9, 0x0055_0055_0055_0055);
    let block = exchanged(block, 6, 0x0303_0303_0303_0303);
    exchanged(block, 3, 0x1111_1111_1111_1111)
}
