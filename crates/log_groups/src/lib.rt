//! The transactions of a server's binary log: what each event is to one, what a transaction keeps of its changes, and
//! the transactions and the groups of a log one after another.
#![tactic(auto)]

mod class;
mod done;
mod fault;
mod group;
mod gtid;
mod laws;
mod open;
mod query;
mod statement;
mod step;
mod transaction;
mod transactions;
mod waiting;
mod xid;

pub use class::{EventClass, class_of};
pub use done::Done;
pub use fault::{GroupError, GroupFault};
pub use group::{Group, Groups};
pub use gtid::{MariaGtid, MysqlGtid, maria_gtid_of, mysql_gtid_of};
pub use laws::{events_go_on, groups_stand, places_are_one, transactions_stand};
pub use query::{Query, query_of};
pub use statement::{Statement, statement_of};
pub use step::{Ending, Gtid};
pub use transaction::Transaction;
pub use transactions::Transactions;
pub use waiting::{Waiting, any_waits, settle};
pub use xid::{Prepared, Xid, prepared_of};
