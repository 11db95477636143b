//! Laws of sets, each the contract of a function without a body: they hold of the values that
//! contracts see a `GtidSet` as.

ghost use Rattle.std.specs.Prelude.{◌≡◌, ◌≤◌, ◌<◌, ◌↔◌, ◌++◌, ℕ, List, length, Ok, Err, IsTrue, codes};
ghost use Rattle.std.specs.Cmp.Lexicographic.{slice_cmp};
ghost use Rattle.std.specs.List.Sorted.{IsStrictlySortedBy};
ghost use Rattle.std.specs.Ordering.{nat_cmp};
ghost use Rattle.gtid_set.specs.declared.interval.Interval.{Interval};
ghost use Rattle.gtid_set.specs.declared.fault.GtidFault.TheVariants.{TooLarge, Flavor};
ghost use Rattle.gtid_set.specs.Blank.{trimmed};
ghost use Rattle.gtid_set.specs.Position.{same_set, SamePairs, IsWithin, IsCanonical, HasBoth, union_of, within_of};
ghost use Rattle.gtid_set.specs.Printed.{printed_position, printed_uuids};
ghost use Rattle.gtid_set.specs.Text.{position_of_text, text_limit, without_flavor};

/// Sets with the same pairs are equal.
pub fn equal_members_equal_sets()
    ensures { (a b : List Interval) → IsCanonical a → IsCanonical b → SamePairs a b → a ≡ b }
{}

/// What `is_within` computes is subset.
pub fn within_is_subset()
    ensures { (a b : List Interval) → IsCanonical a → IsCanonical b → IsTrue (within_of a b) ↔ IsWithin a b }
{}

/// Subset is an order: two sets within each other are equal.
pub fn subset_is_an_order()
    ensures itself { (a : List Interval) → IsWithin a a }
    ensures transitive { (a b c : List Interval) → IsWithin a b → IsWithin b c → IsWithin a c }
    ensures both_ways { (a b : List Interval) → IsCanonical a → IsCanonical b → IsWithin a b → IsWithin b a → a ≡ b }
{}

/// The union is a set, has the pairs of both sets and no others, and is the least set that holds
/// both.
pub fn union_is_the_least_set_over_both()
    ensures canonical { (a b : List Interval) → IsCanonical a → IsCanonical b → IsCanonical (union_of a b) }
    ensures pairs { (a b : List Interval) → IsCanonical a → IsCanonical b → HasBoth a b (union_of a b) }
    ensures holds_one { (a b : List Interval) → IsCanonical a → IsCanonical b → IsWithin a (union_of a b) }
    ensures holds_other { (a b : List Interval) → IsCanonical a → IsCanonical b → IsWithin b (union_of a b) }
    ensures least { (a b all : List Interval) → IsCanonical a → IsCanonical b → IsWithin a all → IsWithin b all → IsWithin (union_of a b) all }
{}

/// The union of a set and one that holds it is the latter, either way round; so it is where
/// `is_within` answers that one holds the other.
pub fn union_with_a_superset_is_the_superset()
    ensures behind { (a b : List Interval) → IsCanonical a → IsCanonical b → IsWithin a b → union_of a b ≡ b }
    ensures before { (a b : List Interval) → IsCanonical a → IsCanonical b → IsWithin a b → union_of b a ≡ b }
    ensures computed_behind { (a b : List Interval) → IsCanonical a → IsCanonical b → IsTrue (within_of a b) → union_of a b ≡ b }
    ensures computed_before { (a b : List Interval) → IsCanonical a → IsCanonical b → IsTrue (within_of a b) → union_of b a ≡ b }
{}

/// A position text is `TooLarge` exactly where it is longer than the limit, and `Flavor` exactly
/// where it isn't and something else than `MySQL56` stands before its first slash.
pub fn too_large_and_flavor_are_of_the_whole_text()
    ensures too_large { (text : List ℕ) → (position_of_text text ≡ Err TooLarge) ↔ (text_limit < length text) }
    ensures flavor { (text : List ℕ) → (position_of_text text ≡ Err Flavor) ↔ ((length text ≤ text_limit) × (without_flavor (trimmed text) ≡ Err Flavor)) }
{}

/// The set that a position text means is merged and rising.
pub fn positions_are_canonical()
    ensures { (text : List ℕ) (set : List Interval) → position_of_text text ≡ Ok set → IsCanonical set }
{}

/// What `==` computes is equality.
pub fn same_set_is_equality()
    ensures { (a b : List Interval) → IsTrue (same_set a b) ↔ (a ≡ b) }
{}

/// A printed set is read as the set, where its text is within the limit.
pub fn printed_text_reads_back()
    ensures plain { (set : List Interval) → IsCanonical set → length (printed_position set) ≤ text_limit → position_of_text (printed_position set) ≡ Ok set }
    ensures with_flavor { (set : List Interval) → IsCanonical set → length (codes "MySQL56/" ++ printed_position set) ≤ text_limit
        → position_of_text (codes "MySQL56/" ++ printed_position set) ≡ Ok set }
{}

/// The uuids of a printed set rise as texts, so each stands once.
pub fn printed_uuids_rise()
    ensures { (set : List Interval) → IsCanonical set → IsStrictlySortedBy (slice_cmp nat_cmp) (printed_uuids set) }
{}

/// Sets with the same pairs print the same text.
pub fn equal_sets_print_equal()
    ensures { (a b : List Interval) → IsCanonical a → IsCanonical b → SamePairs a b → printed_position a ≡ printed_position b }
{}

/// Different sets print different texts, of any length.
pub fn equal_texts_equal_sets()
    ensures { (a b : List Interval) → IsCanonical a → IsCanonical b → printed_position a ≡ printed_position b → a ≡ b }
{}
