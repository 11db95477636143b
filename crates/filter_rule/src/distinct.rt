//! That no two of a list have the same name.

ghost use Rattle.std.specs.Prelude.{◌≡◌, map};
ghost use Rattle.filter_rule.specs.Faults.{GivesOrFails};
ghost use Rattle.filter_rule.specs.Document.{distinct};

use crate::fault::PlanFault;
use std::alloc::Global;
use std::collections::BTreeSet;

/// What goes by a text that no other may have.
pub(crate) trait HasName {
    ghost use Rattle.std.specs.Prelude.{List, ℕ};

    // the text
    ghost name: { Self → List ℕ };

    fn name(&self) -> &str
        ensures { result.now ≡ name self.now };
}

/// Refuses two of the same name. The names that were seen are kept in their order, so that no choice of
/// names makes it slow.
pub(crate) fn check_distinct<T: HasName>(alloc: Global, items: &[T]) -> Result<(), PlanFault>
    ensures { GivesOrFails (λ _. map T.name items.now) result (distinct (map T.name items.now)) }
{
    let mut seen: BTreeSet<&str> = BTreeSet::new(alloc);
    for item in items {
        let is_new = seen.insert(item.name())?;
        if !is_new {
            return Err(PlanFault::Shape);
        }
    }
    Ok(())
}
