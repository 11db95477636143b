//! Positions of transactions.

ghost use Rattle.std.specs.Prelude.{◌≡◌, option_map};
ghost use Rattle.list_laws.specs.Outcome.{Gives};
ghost use Rattle.log_groups.specs.Body.{xid_value, maybe_xid, behind_commit, maria_value, maria_at, mysql_value, mysql_at};

use crate::xid::{Xid, xid_of};
use log_events::{Size, number_at};
use log_tables::{TableFault, front_of};

/// The position at which a transaction of MariaDB begins.
#[derive(Clone, Copy, Debug, PartialEq, Eq)]
pub struct MariaGtid<'b> {
    pub sequence: u64,
    pub domain: u64,
    /// whether one statement is the whole of it, without an end of its own
    pub alone: bool,
    /// the XA transaction that is prepared or ended by it
    pub xid: Option<Xid<'b>>,
}

/// The position of a transaction of MySQL.
#[derive(Clone, Copy, Debug, PartialEq, Eq)]
pub struct MysqlGtid<'b> {
    /// 16 bytes
    pub uuid: &'b [u8],
    pub transaction: u64,
}

/// The XA transaction that flags say, at the front of the bytes.
fn maybe_xid(flags: u64, bytes: &[u8]) -> Result<Option<Xid<'_>>, TableFault>
    ensures { Gives (λ x. option_map xid_value x) result (maybe_xid flags bytes.now) }
{
    if flags / 64 == 0 {
        return Ok(None);
    }
    let (xid, _) = xid_of(Size::One, 1, bytes)?;
    Ok(Some(xid))
}

/// What stands behind the number of a common commit, where flags say that there is one.
fn behind_commit(flags: u64, bytes: &[u8]) -> Result<&[u8], TableFault>
    ensures { Gives (λ x. x.now) result (behind_commit flags bytes.now) }
{
    if flags / 2 % 2 == 0 {
        return Ok(bytes);
    }
    let (_, rest) = front_of(bytes, 8)?;
    Ok(rest)
}

/// The position of a body of MariaDB's. Takes no memory.
#[tactic(auto, unfolding(crate::specs::Body::maria_at))]
pub fn maria_gtid_of(body: &[u8]) -> Result<MariaGtid<'_>, TableFault>
    ensures { Gives maria_value result (maria_at body.now) }
{
    let (head, behind) = front_of(body, 13)?;
    let flags = number_at(head, 12, Size::One);
    let rest = behind_commit(flags, behind)?;
    let xid = maybe_xid(flags, rest)?;
    Ok(MariaGtid {
        sequence: number_at(head, 0, Size::Eight),
        domain: number_at(head, 8, Size::Four),
        alone: flags % 2 == 1,
        xid,
    })
}

/// The position of a body of MySQL's. Takes no memory.
#[tactic(auto, unfolding(crate::specs::Body::mysql_at))]
pub fn mysql_gtid_of(body: &[u8]) -> Result<MysqlGtid<'_>, TableFault>
    ensures { Gives mysql_value result (mysql_at body.now) }
{
    let (_, behind) = front_of(body, 1)?;
    let (uuid, rest) = front_of(behind, 16)?;
    let (number, _) = front_of(rest, 8)?;
    Ok(MysqlGtid {
        uuid,
        transaction: number_at(number, 0, Size::Eight),
    })
}
