//! Sessions with their answers.

use crate::sessions::coming::{Look, answers, whole};
use std::test::Fail;

/// Where the streams stand, and what changed, at first and since.
const STATE_AND_CHANGES_ANSWERS: &[&str] = &[
    r#"{"ok":{"streams":[{"applied":1,"bytes":108,"copied":[{"key":null,"table":"t","what":"done"}],"groups":1,"phase":"Running","position":"MySQL56/3e11fa47-71ca-11e1-9e33-c80aa9429562:1","read":1,"refused":null,"stream":0,"tail":0}]}}"#,
    r#"{"ok":{"changes":[{"key":["x31"],"row":["x31","x61"],"stream":0,"table":"t"}],"streams":[{"applied":1,"bytes":108,"copied":[{"key":null,"table":"t","what":"done"}],"groups":1,"phase":"Running","position":"MySQL56/3e11fa47-71ca-11e1-9e33-c80aa9429562:1","read":1,"refused":null,"stream":0,"tail":0}]}}"#,
    r#"{"ok":{"changes":[],"streams":[{"applied":1,"bytes":108,"copied":[{"key":null,"table":"t","what":"done"}],"groups":1,"phase":"Running","position":"MySQL56/3e11fa47-71ca-11e1-9e33-c80aa9429562:1","read":1,"refused":null,"stream":0,"tail":0}]}}"#,
    r#"{"ok":{"bytes":110,"changes":1,"streams":[{"applied":2,"bytes":218,"copied":[{"key":null,"table":"t","what":"done"}],"groups":2,"phase":"Running","position":"MySQL56/3e11fa47-71ca-11e1-9e33-c80aa9429562:1-2","read":2,"refused":null,"stream":0,"tail":0}]}}"#,
    r#"{"ok":{"changes":[{"key":["x32"],"row":["x32","x62"],"stream":0,"table":"t"}],"streams":[{"applied":2,"bytes":218,"copied":[{"key":null,"table":"t","what":"done"}],"groups":2,"phase":"Running","position":"MySQL56/3e11fa47-71ca-11e1-9e33-c80aa9429562:1-2","read":2,"refused":null,"stream":0,"tail":0}]}}"#,
    r#"{"ok":{}}"#,
];

const STATE_AND_CHANGES_REQUESTS: &[u8] = b"state\nchanges\nchanges\nmore\nchanges\nend\n";

#[test]
fn state_and_changes(rt: HostRuntime) -> Result<(), Fail> {
    assert!(rt;
        answers(
            &rt,
            rt.alloc(),
            108,
            &[whole(218)],
            STATE_AND_CHANGES_REQUESTS,
            STATE_AND_CHANGES_ANSWERS
        )?
    );
    Ok(())
}

/// A group that hasn't come whole waits, and counts once it has.
const A_TAIL_WAITS_ANSWERS: &[&str] = &[
    r#"{"ok":{"bytes":0,"changes":1,"streams":[{"applied":1,"bytes":108,"copied":[{"key":null,"table":"t","what":"done"}],"groups":1,"phase":"Running","position":"MySQL56/3e11fa47-71ca-11e1-9e33-c80aa9429562:1","read":1,"refused":null,"stream":0,"tail":42}]}}"#,
    r#"{"ok":{"bytes":110,"changes":2,"streams":[{"applied":2,"bytes":218,"copied":[{"key":null,"table":"t","what":"done"}],"groups":2,"phase":"Running","position":"MySQL56/3e11fa47-71ca-11e1-9e33-c80aa9429562:1-2","read":2,"refused":null,"stream":0,"tail":0}]}}"#,
    r#"{"ok":{"changes":2,"streams":[{"applied":2,"bytes":218,"copied":[{"key":null,"table":"t","what":"done"}],"groups":2,"phase":"Running","position":"MySQL56/3e11fa47-71ca-11e1-9e33-c80aa9429562:1-2","read":2,"refused":null,"stream":0,"tail":0}]}}"#,
    r#"{"ok":{"changes":[],"streams":[{"applied":2,"bytes":218,"copied":[{"key":null,"table":"t","what":"done"}],"groups":2,"phase":"Running","position":"MySQL56/3e11fa47-71ca-11e1-9e33-c80aa9429562:1-2","read":2,"refused":null,"stream":0,"tail":0}]}}"#,
];

const A_TAIL_WAITS_REQUESTS: &[u8] = b"more\nmore\ntold\nchanges\n";

#[test]
fn a_tail_waits(rt: HostRuntime) -> Result<(), Fail> {
    assert!(rt;
        answers(
            &rt,
            rt.alloc(),
            108,
            &[whole(150), whole(218)],
            A_TAIL_WAITS_REQUESTS,
            A_TAIL_WAITS_ANSWERS
        )?
    );
    Ok(())
}

/// The same where its bytes aren't given until it has come whole.
#[test]
fn a_tail_waits_ungiven(rt: HostRuntime) -> Result<(), Fail> {
    let part = Look {
        given: 108,
        waiting: 42,
    };
    assert!(rt;
        answers(
            &rt,
            rt.alloc(),
            108,
            &[part, whole(218)],
            A_TAIL_WAITS_REQUESTS,
            A_TAIL_WAITS_ANSWERS
        )?
    );
    Ok(())
}

/// Rows page by page, a row, and how many there are.
const ROWS_AND_COUNTS_ANSWERS: &[&str] = &[
    r#"{"ok":{"next":["x32"],"rows":[{"key":["x31"],"row":["x31","x61"],"stream":0}]}}"#,
    r#"{"ok":{"next":null,"rows":[{"key":["x32"],"row":["x32","x62"],"stream":0}]}}"#,
    r#"{"ok":{"next":null,"rows":[{"key":["x31"],"row":["x31","x61"],"stream":0},{"key":["x32"],"row":["x32","x62"],"stream":0}]}}"#,
    r#"{"ok":{"row":["x31","x61"],"stream":0}}"#,
    r#"{"ok":{"row":null,"stream":null}}"#,
    r#"{"ok":{"tables":[{"rows":[2],"table":"t"}]}}"#,
];

const ROWS_AND_COUNTS_REQUESTS: &[u8] =
    b"rows\tt\t1\nrows\tt\t1\tx32\nrows\tt\nrow\tt\tx31\nrow\tt\tx33\ncounts\n";

#[test]
fn rows_and_counts(rt: HostRuntime) -> Result<(), Fail> {
    assert!(rt;
        answers(
            &rt,
            rt.alloc(),
            218,
            &[],
            ROWS_AND_COUNTS_REQUESTS,
            ROWS_AND_COUNTS_ANSWERS
        )?
    );
    Ok(())
}
