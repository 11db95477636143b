//! XA transactions.

ghost use Rattle.std.specs.Prelude.{◌≡◌};
ghost use Rattle.list_laws.specs.Outcome.{Gives};
ghost use Rattle.log_events.specs.Number.{size_of};
ghost use Rattle.log_groups.specs.Body.{xid_value, xid_at, prepared_value, prepared_at};

use log_events::{Size, number_at};
use log_tables::{TableFault, front_of};

/// The id of an XA transaction. Its bytes are slices of the event's body.
#[derive(Clone, Copy, Debug, PartialEq, Eq)]
pub struct Xid<'b> {
    pub format: u64,
    pub global: &'b [u8],
    pub branch: &'b [u8],
}

/// The end of the first half of an XA transaction.
#[derive(Clone, Copy, Debug, PartialEq, Eq)]
pub struct Prepared<'b> {
    /// whether it is committed at once
    pub one_phase: bool,
    pub xid: Xid<'b>,
}

/// An id whose parts' sizes are numbers of so many bytes, and what stands behind it.
#[tactic(auto, unfolding(crate::specs::Body::xid_at))]
pub(crate) fn xid_of(size: Size, width: u64, bytes: &[u8]) -> Result<(Xid<'_>, &[u8]), TableFault>
    requires { width ≡ size_of size }
    ensures { Gives (λ x. (xid_value x.0, x.1.now)) result (xid_at (size_of size) bytes.now) }
{
    let (format, behind) = front_of(bytes, 4)?;
    let (first, behind_first) = front_of(behind, width)?;
    let (second, behind_second) = front_of(behind_first, width)?;
    let (global, behind_global) = front_of(behind_second, number_at(first, 0, size))?;
    let (branch, rest) = front_of(behind_global, number_at(second, 0, size))?;
    let xid = Xid {
        format: number_at(format, 0, Size::Four),
        global,
        branch,
    };
    Ok((xid, rest))
}

/// The end of the first half of an XA transaction, of an event's body. Takes no memory.
#[tactic(auto, unfolding(crate::specs::Body::prepared_at))]
pub fn prepared_of(body: &[u8]) -> Result<Prepared<'_>, TableFault>
    ensures { Gives prepared_value result (prepared_at body.now) }
{
    let (phase, behind) = front_of(body, 1)?;
    let (xid, _) = xid_of(Size::Four, 4, behind)?;
    Ok(Prepared {
        one_phase: number_at(phase, 0, Size::One) == 1,
        xid,
    })
}
