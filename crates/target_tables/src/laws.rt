//! Laws of touches, each the contract of a function without a body.

ghost use Rattle.std.specs.Prelude.{◌≡◌, ℕ, List, [], ◌∷◌, ◌++◌, Option, Some, None, if◌then◌else◌};
ghost use Rattle.std.specs.Ordering.{eq_by_cmp};
ghost use Rattle.target_tables.specs.Touches.{last_at, touched, removed, IsUntouched, ComesLast};

/// The touch of a key that comes last counts, and no other key notices it. So a removal and a put
/// of one key in one group leave what came last.
pub fn what_comes_last_counts<K: Ord, R>()
    ensures last { (touches : List (K × Option R)) (k q : K) (row : Option R)
        → last_at K.cmp (touches ++ (k, row) ∷ []) q ≡ (if eq_by_cmp K.cmp q k then Some row else last_at K.cmp touches q) }
    ensures comes_last { (touches : List (K × Option R)) (k : K) (row : Option R) → ComesLast K.cmp touches k row → last_at K.cmp touches k ≡ Some row }
    ensures untouched { (touches : List (K × Option R)) (k : K) → IsUntouched K.cmp touches k → last_at K.cmp touches k ≡ None }
    ensures removed_and_put { (k : K) (row : R) (stream : ℕ) (there : Option (ℕ × R))
        → touched stream (last_at K.cmp ((k, None) ∷ (k, Some row) ∷ []) k) there ≡ Some (stream, row) }
    ensures put_and_removed { (k : K) (row : R) (stream : ℕ) (there : Option (ℕ × R))
        → touched stream (last_at K.cmp ((k, Some row) ∷ (k, None) ∷ []) k) there ≡ removed stream there }
{}
