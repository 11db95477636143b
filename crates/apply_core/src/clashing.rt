//! Why a step's touches are refused.

ghost use Rattle.std.specs.Prelude.{◌≡◌};
ghost use Rattle.apply_core.specs.Private.Changes.{refused_by};

use board_laws::Refusal;
use pk_copy::Key;
use target_tables::TableFault;

/// The refusal of a step whose touches are refused.
pub(crate) fn refusal_by(fault: TableFault<Key>) -> Refusal
    ensures { result ≡ refused_by fault }
{
    match fault {
        TableFault::OwnedByOther { key, owner } => Refusal::OwnedByOther { key, owner },
        TableFault::Memory => Refusal::Memory,
    }
}
