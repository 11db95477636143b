//! A workflow and a feed over one table `t` of a number `id`, its key, and a text `v`.

/// One stream, every row.
pub const ONE: &[u8] =
    br#"{"keyspace":"ks","tables":[{"name":"t","columns":[["id","INT64"],["v","VARCHAR"]],"key":["id"],"vindex":["id","numeric"]}],"streams":[{"shard":"-80","filter":{"rules":[{"match":"/.*","filter":""}]}}]}"#;

/// Two groups, 108 bytes with (1, a) and 110 with (2, b); then a message of which four bytes have come, with no event in it.
pub const FEED: &str = "\
    6b0a0208020a18080d32140a017412070a02696410890212060a01761095300a13080c2a0f0a0174120a1208\
    0a020202120231610a3208011a2e4d7953514c35362f33653131666134372d373163612d313165312d396533\
    332d6338306161393432393536323a310a0208036d0a0208020a18080d32140a017412070a02696410890212\
    060a01761095300a13080c2a0f0a0174120a12080a020202120232620a3408011a304d7953514c35362f3365\
    3131666134372d373163612d313165312d396533332d6338306161393432393536323a312d320a020803\
    030a0208";
