//! Laws of keys and of marks, each the contract of a function without a body: they hold of the values that
//! contracts see them as.

ghost use Rattle.std.specs.Prelude.{◌≡◌, ◌↔◌};
ghost use Rattle.std.specs.Cmp.{IsTotalOrder};
ghost use Rattle.std.specs.declared.cmp.Ordering.TheVariants.{Equal};
ghost use Rattle.pk_copy.specs.KeyValue.{KeyValue};
ghost use Rattle.pk_copy.specs.KeyOrder.{key_cmp};
ghost use Rattle.pk_copy.specs.KeyFront.{FrontsKeepTheOrder};
ghost use Rattle.pk_copy.specs.KeyOfKept.{KeysAreKept};
ghost use Rattle.pk_copy.specs.Marks.{marks_cmp, MarksTieWhereEqual};

/// The order of keys holds two keys equal exactly where they have the same table and the same parts.
pub fn keys_tie_where_they_are_equal()
    ensures { (a b : KeyValue) → (key_cmp a b ≡ Equal) ↔ (a ≡ b) }
{}

/// A key whose front is less than another's is less, and where a key is less its front isn't greater: so two numbers
/// decide most comparisons, and only where they are equal is anything else of the keys looked at.
pub fn fronts_keep_the_order()
    ensures { FrontsKeepTheOrder }
{}

/// Of marks of as many tables the order by how far on they are is total, and holds two of them equal exactly
/// where they are.
pub fn marks_tie_where_they_are_equal()
    ensures total { IsTotalOrder marks_cmp }
    ensures ties { MarksTieWhereEqual }
{}

/// The key of a row of a plan's table is the key of its kept columns.
pub fn keys_are_those_of_kept_columns()
    ensures { KeysAreKept }
{}
