//! Why a filter's text is refused.

ghost use Rattle.std.specs.Prelude.{◌≡◌};
ghost use Rattle.filter_text.specs.declared.fault.FilterFault.TheVariants.{Memory};

use std::alloc::AllocFailed;
use thiserror::Error;

/// Why a filter's text is refused.
#[derive(Clone, Copy, Debug, PartialEq, Eq, Error)]
pub enum FilterFault {
    /// A text that has none of the forms of a filter, or whose vindex or key range is none.
    #[error("the filter has no lawful form")]
    BadForm,
    /// The allocator gave no memory.
    #[error("out of memory")]
    Memory,
}

impl<T: Drop> From<AllocFailed<T>> for FilterFault {
    ghost from_gives = { λ _ fault. fault ≡ Memory };

    fn from(_failed: AllocFailed<T>) -> FilterFault {
        FilterFault::Memory
    }
}
