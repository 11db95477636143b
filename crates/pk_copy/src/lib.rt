//! Primary keys and copy marks: the key of a row, the order of keys, and how far a stream's tables are
//! copied.
#![tactic(auto)]

mod copy_state;
mod fault;
mod front;
mod kept;
mod kept_row;
mod key;
mod lastpk;
mod lastpk_laws;
mod laws;
mod lent;
mod lent_kept;
mod mark;
mod owned;
mod part;
mod reading;
mod small_part;
mod texts;
mod view;
mod written_key;

pub use copy_state::CopyState;
pub use fault::KeyFault;
pub use kept_row::key_of_kept;
pub use key::Key;
pub use lastpk::key_of_lastpk;
pub use lastpk_laws::{keys_read_are_table_keys, lastpks_are_read_again};
pub use laws::{
    fronts_keep_the_order, keys_are_those_of_kept_columns, keys_tie_where_they_are_equal,
    marks_tie_where_they_are_equal,
};
pub use lent::LentKey;
pub use mark::Mark;
pub use part::KeyPart;
pub use reading::{key_of, key_of_bytes};
pub use view::KeyView;
pub use written_key::lastpk_of;
