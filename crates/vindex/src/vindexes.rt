//! Vindexes, which give a column's value its keyspace id.

ghost use Rattle.std.specs.Prelude.{◌≡◌, ◌↔◌, ◌⊎◌, Ok, Err, IsErrOf, None, IfErr};
ghost use Rattle.std.specs.Result.{result_map_both};
ghost use Rattle.std.specs.Option.{ok_or};
ghost use Rattle.row_view.specs.ColumnValue.{column_value};
ghost use Rattle.vindex.specs.NumberText.{number_of_text};
ghost use Rattle.vindex.specs.KeyspaceId.{vindex_name, vindex_of_name, id_bytes, id_of, unsigned, IsNoUnsigned};
ghost use Rattle.vindex.specs.declared.faults.VindexFault.TheVariants.{UnknownVindex, NullValue, NotANumber};

use crate::faults::VindexFault;
use crate::ids::Id;
use crate::numbers::number_of;
use des::Cipher;
use md5::{Digest, Md5};
use row_view::Column;

/// A way to give a column's value its keyspace id.
#[derive(Clone, Copy, Debug, PartialEq, Eq)]
pub enum Vindex {
    /// `numeric`: the number in eight bytes, high first.
    Numeric,
    /// `reverse_bits`: the number's 64 bits in reverse order, in eight bytes, high first.
    ReverseBits,
    /// `binary`: the value's bytes.
    Binary,
    /// `binary_md5`: the MD5 of the value's bytes.
    BinaryMd5,
    /// `hash`: the number's 64 bits enciphered by DES under the key of zeros, in eight bytes, high first.
    Hash,
}

impl Vindex {
    /// The vindex of this name: `numeric`, `reverse_bits`, `binary`, `binary_md5` or `hash`. Every
    /// other name is `UnknownVindex`. Takes no memory.
    pub fn parse(name: &str) -> Result<Vindex, VindexFault>
        ensures value { result ≡ ok_or (vindex_of_name name.now) UnknownVindex }
        ensures named { (vindex : Vindex) → (result ≡ Ok vindex) ↔ (name.now ≡ vindex_name vindex) }
    {
        if name == "numeric" {
            Ok(Vindex::Numeric)
        } else if name == "reverse_bits" {
            Ok(Vindex::ReverseBits)
        } else if name == "binary" {
            Ok(Vindex::Binary)
        } else if name == "binary_md5" {
            Ok(Vindex::BinaryMd5)
        } else if name == "hash" {
            Ok(Vindex::Hash)
        } else {
            Err(VindexFault::UnknownVindex)
        }
    }

    /// The keyspace id of a column's value. NULL is `NullValue`; under `numeric`, `reverse_bits` and
    /// `hash` a value that is no number from 0 to 2^64 - 1 is `NotANumber`. Takes no memory.
    #[tactic(auto, unfolding(crate::specs::KeyspaceId::id_of))]
    pub fn id<'b>(self, column: Column<'b>) -> Result<Id<'b>, VindexFault>
        ensures value { result_map_both id_bytes (λ fault. fault) result ≡ id_of self (column_value column.entry) }
        ensures null { IsErrOf result NullValue ↔ (column_value column.entry ≡ None) }
        ensures refused { IfErr result (λ fault. (fault ≡ NullValue) ⊎ (fault ≡ NotANumber)) }
        ensures not_a_number { IsErrOf result NotANumber ↔ IsNoUnsigned self (column_value column.entry) }
    {
        let Column::Bytes(bytes) = column else {
            return Err(VindexFault::NullValue);
        };
        match self {
            Vindex::Numeric => Ok(Id::Eight(unsigned_of(bytes)?.to_be_bytes())),
            Vindex::ReverseBits => Ok(Id::Eight(unsigned_of(bytes)?.reverse_bits().to_be_bytes())),
            Vindex::Binary => Ok(Id::Slice(bytes)),
            Vindex::BinaryMd5 => Ok(Id::Sixteen(Md5::digest(bytes))),
            Vindex::Hash => {
                let id = Cipher::of_null_key().enciphered(unsigned_of(bytes)?);
                Ok(Id::Eight(id.to_be_bytes()))
            }
        }
    }
}

/// The number from 0 to 2^64 - 1 that a text writes.
fn unsigned_of(text: &[u8]) -> Result<u64, VindexFault>
    ensures { result ≡ ok_or (unsigned (number_of_text text.now)) NotANumber }
{
    let Some(number) = number_of(text) else {
        return Err(VindexFault::NotANumber);
    };
    match u64::try_from(number.value()) {
        Ok(number) => Ok(number),
        Err(_) => Err(VindexFault::NotANumber),
    }
}
