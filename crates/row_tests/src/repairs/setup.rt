//! A plan of one table of whole numbers, a price and a text, by two columns, and two dumps of it.

use filter_rule::Plan;
use std::alloc::Global;
use std::sync::Arc;

/// The key is of `k` and `name`; `pri``ce` has a decimal type.
const WORKFLOW: &[u8] =
    br#"{"keyspace":"ks","tables":[{"name":"t`s","columns":[["k","INT64"],["name","VARBINARY"],["pri`ce",18],["note","TEXT"]],"key":["k","name"]}],"streams":[{"shard":"-","filter":{"rules":[{"match":"/.*","filter":""}]}}]}"#;

/// Rows 1 `a`, which is the target's too, 2 `b` with other columns, and 3 `c` of the source alone.
pub const SOURCE: &[u8] =
    b"table t`s\nx31\tx61\tN\tx\nx32\tx62\tx312e3530\tx416e6e\nx33\tx63\tx27\tx6127\n";

/// And `-4` `|` of the target alone.
pub const TARGET: &[u8] = b"table t`s\nx2d34\tx7c\tN\tN\nx31\tx61\tN\tx\nx32\tx62\tN\tx416e6120\n";

/// The workflow's one plan.
pub fn plan(alloc: Global) -> Option<Arc<Plan>> {
    match Plan::read_all(alloc, WORKFLOW) {
        Ok(mut plans) => plans.pop(),
        Err(_) => None,
    }
}
