//! Workflows, and feeds in hexadecimal text, over one table `t` of a number `id`, its key, and a text `v`.
//! A feed's group k has position 1-k of its source, and each row stands in one change.

use std::alloc::{AllocError, Global};
use vrepl_choices::FeedForm;
use vrepl_main::Inputs;

/// One stream, every row.
pub const ONE: &str =
    r#"{"keyspace":"ks","tables":[{"name":"t","columns":[["id","INT64"],["v","VARCHAR"]],"key":["id"],"vindex":["id","numeric"]}],"streams":[{"shard":"-80","filter":{"rules":[{"match":"/.*","filter":""}]}}]}"#;

/// Two streams, every row.
pub const TWO: &str =
    r#"{"keyspace":"ks","tables":[{"name":"t","columns":[["id","INT64"],["v","VARCHAR"]],"key":["id"],"vindex":["id","numeric"]}],"streams":[{"shard":"-80","filter":{"rules":[{"match":"/.*","filter":""}]}},{"shard":"80-","filter":{"rules":[{"match":"/.*","filter":""}]}}]}"#;

/// The first source: (1, a), then (2, b).
pub const LOWER: &str = "\
    6b0a0208020a18080d32140a017412070a02696410890212060a01761095300a13080c2a0f0a0174120a1208\
    0a020202120231610a3208011a2e4d7953514c35362f33653131666134372d373163612d313165312d396533\
    332d6338306161393432393536323a310a0208036d0a0208020a18080d32140a017412070a02696410890212\
    060a01761095300a13080c2a0f0a0174120a12080a020202120232620a3408011a304d7953514c35362f3365\
    3131666134372d373163612d313165312d396533332d6338306161393432393536323a312d320a020803";

/// The second source: (11, k), then (12, l).
pub const UPPER: &str = "\
    6c0a0208020a18080d32140a017412070a02696410890212060a01761095300a14080c2a100a0174120b1209\
    0a020402120331316b0a3208011a2e4d7953514c35362f33653131666134372d373163612d313165312d3965\
    33332d6338306161393432393536333a310a0208036e0a0208020a18080d32140a017412070a026964108902\
    12060a01761095300a14080c2a100a0174120b12090a020402120331326c0a3408011a304d7953514c35362f\
    33653131666134372d373163612d313165312d396533332d6338306161393432393536333a312d320a020803";

/// The second source: (1, z).
pub const SAME_KEY: &str = "\
    6b0a0208020a18080d32140a017412070a02696410890212060a01761095300a13080c2a0f0a0174120a1208\
    0a0202021202317a0a3208011a2e4d7953514c35362f33653131666134372d373163612d313165312d396533\
    332d6338306161393432393536333a310a020803";

/// One group, which inserts (1, ab).
pub const ONE_ROW: &str = "6c 0a020802 0a18080d32140a017412070a02696410890212060a0176109530 \
    0a14080c2a100a0174120b12090a0202041203316162 \
    0a3208011a2e4d7953514c35362f33653131666134372d373163612d313165312d396533332d6338306161393432393536323a31 \
    0a020803";

/// The bytes of each text.
pub fn feeds_of(alloc: Global, texts: &[&str]) -> Result<Vec<Vec<u8>>, AllocError> {
    let mut feeds = Vec::with_capacity(alloc, texts.len())?;
    for text in texts {
        let bytes = Vec::from_slice(alloc, text.as_bytes())?;
        feeds.push(bytes)?;
    }
    Ok(feeds)
}

/// Inputs over the workflow of one stream, with a feed in hexadecimal text.
pub fn inputs_over(alloc: Global, feed: &str, script: &[u8]) -> Result<Inputs, AllocError> {
    let workflow = Vec::from_slice(alloc, ONE.as_bytes())?;
    let feeds = feeds_of(alloc, &[feed])?;
    let script = Vec::from_slice(alloc, script)?;
    Ok(Inputs {
        feed_form: FeedForm::Hex,
        workflow,
        feeds,
        script,
    })
}
