//! What a transaction adds to the position before it.

ghost use Rattle.std.specs.Prelude.{◌≡◌, ◌<◌, ◌^◌, ◌∷◌, [], IfOk};
ghost use Rattle.list_laws.specs.Outcome.{Gives};
ghost use Rattle.gtid_set.specs.Position.{IsInterval, union_of};
ghost use Rattle.log_groups.specs.Step.{gtid_value};
ghost use Rattle.log_places.specs.Added.{uuid_of, domain_uuid, span, single, added_by};

use crate::fault::PlaceFault;
use gtid_set::{GtidSet, Interval, IntervalText, printed_text_reads_back};
use log_groups::Gtid;
use std::alloc::{AllocError, Global};

/// The greatest number of a transaction.
const LAST: u64 = (1 << 63) - 2;

/// The uuid of a domain of MariaDB is this one and the domain.
const DOMAINS: u128 = 0x6d61_7269_6164_6200_8000_0000_0000_0000;

/// The uuid of 16 bytes.
pub(crate) fn uuid_of(bytes: &[u8]) -> Option<u128>
    ensures { result ≡ uuid_of bytes.now }
{
    match bytes.split_first_chunk::<16>() {
        Some((uuid, _)) => Some(u128::from_be_bytes(*uuid)),
        None => None,
    }
}

/// The uuid of a domain of MariaDB.
pub(crate) fn domain_uuid(domain: u64) -> u128
    ensures { result ≡ domain_uuid domain }
{
    DOMAINS + u128::from(domain)
}

/// The numbers of a uuid from a first to a last one, where they are numbers of transactions.
pub(crate) fn span(uuid: u128, first: u64, last: u64) -> Result<Interval, PlaceFault>
    ensures value { Gives (λ i. i) result (span uuid first last) }
    ensures right { IfOk result IsInterval }
{
    if 1 <= first && first <= last && last <= LAST {
        return Ok(Interval { uuid, first, last });
    }
    Err(PlaceFault::NoNumber)
}

/// One number of a uuid.
fn single(number: u64, uuid: Option<u128>) -> Result<Interval, PlaceFault>
    ensures value { Gives (λ i. i) result (single number uuid) }
    ensures right { IfOk result IsInterval }
{
    match uuid {
        Some(uuid) => span(uuid, number, number),
        None => Err(PlaceFault::NoNumber),
    }
}

/// The numbers that a transaction adds to the position before it. Takes no memory.
pub fn added_by(gtid: &Gtid<'_>) -> Result<Interval, PlaceFault>
    ensures value { Gives (λ i. i) result (added_by (gtid_value gtid.now)) }
    ensures right { IfOk result IsInterval }
{
    match gtid {
        Gtid::Maria(gtid) => span(domain_uuid(gtid.domain), 1, gtid.sequence),
        Gtid::Mysql(gtid) => single(gtid.transaction, uuid_of(gtid.uuid)),
    }
}

/// The set of some numbers of a uuid. What is printed of it is read as it, so want of memory is the only error.
pub(crate) fn set_of(alloc: Global, interval: &Interval) -> Result<GtidSet, AllocError>
    requires { IsInterval interval.now }
    ensures { IfOk result (λ set. set ≡ interval.now ∷ []) }
{
    printed_text_reads_back();
    let text = format!(in alloc;
        "{}",
        IntervalText {
            interval,
            before: None
        }
    )?;
    match GtidSet::parse(alloc, text.as_str()) {
        Ok(set) => Ok(set),
        Err(_) => Err(AllocError),
    }
}

/// A position and another one together.
pub(crate) fn both(alloc: Global, reached: &GtidSet, more: &GtidSet) -> Result<GtidSet, AllocError>
    ensures { IfOk result (λ set. set ≡ union_of reached.now more.now) }
{
    match reached.union(alloc, more) {
        Ok(set) => Ok(set),
        Err(_) => Err(AllocError),
    }
}

/// A position and some numbers of a uuid more.
pub(crate) fn with_span(
    alloc: Global,
    reached: &GtidSet,
    interval: &Interval,
) -> Result<GtidSet, AllocError>
    requires { IsInterval interval.now }
    ensures { IfOk result (λ set. set ≡ union_of reached.now (interval.now ∷ [])) }
{
    let one = set_of(alloc, interval)?;
    both(alloc, reached, &one)
}
