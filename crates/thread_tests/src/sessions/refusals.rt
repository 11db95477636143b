//! What is refused, and what a session does then.

use crate::sessions::coming::{answers, whole};
use std::test::Fail;

/// Requests that are refused, and the session goes on.
const REFUSED_REQUESTS_ANSWERS: &[&str] = &[
    r#"{"refused":{"number":125,"words":"the workflow has no such table"}}"#,
    r#"{"refused":{"number":126,"words":"a key isn't one of its table"}}"#,
    r#"{"refused":{"number":124,"words":"a line is no request of a session"}}"#,
    r#"{"refused":{"number":124,"words":"a line is no request of a session"}}"#,
    r#"{"refused":{"number":124,"words":"a line is no request of a session"}}"#,
    r#"{"refused":{"number":124,"words":"a line is no request of a session"}}"#,
    r#"{"ok":{"streams":[{"applied":2,"bytes":218,"copied":[{"key":null,"table":"t","what":"done"}],"groups":2,"phase":"Running","position":"MySQL56/3e11fa47-71ca-11e1-9e33-c80aa9429562:1-2","read":2,"refused":null,"stream":0,"tail":0}]}}"#,
];

const REFUSED_REQUESTS_REQUESTS: &[u8] =
    b"row\tu\tx31\nrow\tt\tx\nrows\tt\t0\nwhat\n\nmore\t0\nstate\n";

#[test]
fn refused_requests(rt: HostRuntime) -> Result<(), Fail> {
    assert!(rt;
        answers(
            &rt,
            rt.alloc(),
            218,
            &[],
            REFUSED_REQUESTS_REQUESTS,
            REFUSED_REQUESTS_ANSWERS
        )?
    );
    Ok(())
}

/// Bytes at fault stop the stream for good, and the state says so.
const REFUSED_BYTES_ANSWERS: &[&str] = &[
    r#"{"ok":{"bytes":0,"changes":2,"streams":[{"applied":2,"bytes":218,"copied":[{"key":null,"table":"t","what":"done"}],"groups":2,"phase":"Running","position":"MySQL56/3e11fa47-71ca-11e1-9e33-c80aa9429562:1-2","read":2,"refused":{"cause":1,"number":82,"words":"a feed has a bad event or message"},"stream":0,"tail":4}]}}"#,
    r#"{"ok":{"bytes":0,"changes":2,"streams":[{"applied":2,"bytes":218,"copied":[{"key":null,"table":"t","what":"done"}],"groups":2,"phase":"Running","position":"MySQL56/3e11fa47-71ca-11e1-9e33-c80aa9429562:1-2","read":2,"refused":{"cause":1,"number":82,"words":"a feed has a bad event or message"},"stream":0,"tail":4}]}}"#,
    r#"{"ok":{"streams":[{"applied":2,"bytes":218,"copied":[{"key":null,"table":"t","what":"done"}],"groups":2,"phase":"Running","position":"MySQL56/3e11fa47-71ca-11e1-9e33-c80aa9429562:1-2","read":2,"refused":{"cause":1,"number":82,"words":"a feed has a bad event or message"},"stream":0,"tail":4}]}}"#,
];

const REFUSED_BYTES_REQUESTS: &[u8] = b"more\nmore\nstate\n";

#[test]
fn refused_bytes(rt: HostRuntime) -> Result<(), Fail> {
    assert!(rt;
        answers(
            &rt,
            rt.alloc(),
            218,
            &[whole(222), whole(222)],
            REFUSED_BYTES_REQUESTS,
            REFUSED_BYTES_ANSWERS
        )?
    );
    Ok(())
}
