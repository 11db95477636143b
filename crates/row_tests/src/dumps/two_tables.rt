//! A plan of two tables: `t` of `id` (INT64) and `v` (VARCHAR), and `u` of `id` alone, each by its `id`.

use filter_rule::Plan;
use std::alloc::Global;
use std::sync::Arc;

const WORKFLOW: &[u8] =
    br#"{"keyspace":"ks","tables":[{"name":"t","columns":[["id","INT64"],["v","VARCHAR"]],"key":["id"]},{"name":"u","columns":[["id","INT64"]],"key":["id"]}],"streams":[{"shard":"-80","filter":{"rules":[{"match":"/.*","filter":""}]}}]}"#;

/// The workflow's one plan.
pub fn plan(alloc: Global) -> Option<Arc<Plan>> {
    match Plan::read_all(alloc, WORKFLOW) {
        Ok(mut plans) => plans.pop(),
        Err(_) => None,
    }
}
