//! Equality of meaning.

ghost use Rattle.std.specs.Prelude.{◌≡◌, ◌↔◌, IsTrue};
ghost use Rattle.filter_rule.specs.Extending.{BeginsWith};

/// A comparison by what values mean.
pub(crate) trait Same {
    /// Whether both mean the same.
    fn same(&self, other: &Self) -> bool
        ensures { IsTrue result ↔ (self.now ≡ other.now) };
}

/// Whether two lists mean the same, one item after another.
pub(crate) fn all_same<T: Same>(left: &[T], right: &[T]) -> bool
    ensures { IsTrue result ↔ (left.now ≡ right.now) }
{
    if left.len() != right.len() {
        return false;
    }
    for i in 0..left.len() {
        if !left[i].same(&right[i]) {
            return false;
        }
    }
    true
}

/// Whether a list begins with another, by what their items mean.
pub(crate) fn begins_with<T: Same>(whole: &[T], front: &[T]) -> bool
    ensures { IsTrue result ↔ BeginsWith front.now whole.now }
{
    if whole.len() < front.len() {
        return false;
    }
    all_same(&whole[..front.len()], front)
}
