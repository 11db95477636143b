//! Laws of keys as rows, each the contract of a function that does nothing.

ghost use Rattle.pk_copy.specs.Lastpk.{LastpksAreReadAgain, KeysOfRowsAreTableKeys, KeysReadAreTableKeys};

use vindex::shortest_texts_are_read_back;

/// The key of a row, as a row, is read as this key.
pub fn lastpks_are_read_again()
    ensures { LastpksAreReadAgain }
{
    shortest_texts_are_read_back();
}

/// The key of a row of a table, and the key that a row of just a table's key columns is read as, are keys of
/// this table.
pub fn keys_read_are_table_keys()
    ensures of_rows { KeysOfRowsAreTableKeys }
    ensures of_key_columns { KeysReadAreTableKeys }
{
    shortest_texts_are_read_back();
}
