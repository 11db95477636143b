//! Laws of the definitions, each as the contract of a function that does nothing.

ghost use Rattle.std.specs.Prelude.{◌≡◌, ℕ, ◌+◌, ◌^◌, ◌<◌, ◌≤◌, List, [], ◌∷◌, ◌++◌, length};
ghost use Rattle.proto_wire.specs.Varint.{IsVarint, AreBytes, shortest};

/// A longer spelling of a varint has the same value: the last byte is continued by a byte 0, as long
/// as there is room for one more.
pub fn longer_spelling()
    ensures { (front : List ℕ) (last n : ℕ) → IsVarint (front ++ last ∷ []) n → length front ≤ 8
        → IsVarint (front ++ (last + 128) ∷ 0 ∷ []) n }
{}

/// The shortest spelling of a number of 64 bits is a varint of it, no other one is shorter, and none
/// other is as short.
pub fn shortest_spelling()
    ensures varint { (n : ℕ) → n < 2 ^ 64 → IsVarint (shortest n) n }
    ensures bytes { (n : ℕ) → n < 2 ^ 64 → AreBytes (shortest n) }
    ensures least { (n : ℕ) (other : List ℕ) → n < 2 ^ 64 → AreBytes other → IsVarint other n
        → length (shortest n) ≤ length other }
    ensures only { (n : ℕ) (other : List ℕ) → n < 2 ^ 64 → AreBytes other → IsVarint other n
        → length other ≤ length (shortest n) → other ≡ shortest n }
{}
