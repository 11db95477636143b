//! Numbers by which keys are told apart before their keys are compared.
#![tactic(auto)]

ghost use Rattle.std.specs.Prelude.{◌≡◌, ℕ};
ghost use Rattle.key_front.specs.Front.{KeepsTheOrder, number_in_order, none_in_order};

/// A key that has a front: a number, so that of two keys with different fronts the one with the lesser front is the
/// lesser one. Keys with equal fronts may stand in any order.
pub trait Fronted: Ord {
    // The key's front.
    ghost front_of: { Self → ℕ };

    /// The key's front. Takes no memory.
    fn front(&self) -> u64
        ensures { result ≡ front_of self.now };

    // A key with a lesser front is less.
    ghost in_order: { KeepsTheOrder Self.cmp front_of };
}

impl Fronted for u64 {
    ghost front_of = { λ key. key };

    ghost in_order = { number_in_order };

    fn front(&self) -> u64 {
        *self
    }
}

impl Fronted for &[u8] {
    ghost front_of = { λ _. 0 };

    ghost in_order = { none_in_order _ };

    fn front(&self) -> u64 {
        0
    }
}
