//! Workflow files of one table and one stream: the numbers and names of their refusals, and their plans.

use filter_rule::*;
use row_view::RowView;
use std::alloc::{AllocError, Global};
use std::sync::Arc;

/// The number of the refusal, or 0 where the file is read.
pub(crate) fn number_of(alloc: Global, text: &[u8]) -> u8 {
    match Plan::read_all(alloc, text) {
        Ok(_) => 0,
        Err(fault) => fault.number(),
    }
}

/// A file of one stream, with these columns, key, vindex and rules.
pub(crate) fn workflow(
    alloc: Global,
    columns: &str,
    key: &str,
    vindex: &str,
    rules: &str,
) -> Result<String, AllocError> {
    format!(in alloc;
        "{{\"keyspace\":\"ks\",\"tables\":[{{\"name\":\"t\",\"columns\":{columns},\"key\":{key}{vindex}}}],\"streams\":[{{\"shard\":\"-80\",\"filter\":{{\"rules\":{rules}}}}}]}}"
    )
}

const COLUMNS: &str = "[[\"id\",\"INT64\"],[\"v\",\"VARCHAR\"]]";

const KEY: &str = "[\"id\"]";

const VINDEX: &str = ",\"vindex\":[\"id\",\"numeric\"]";

pub(crate) const EVERY_ROW: &str = "[{\"match\":\"/.*\",\"filter\":\"\"}]";

/// A key column of a type that no key has.
const TEXT: &str = "[[\"id\",\"TEXT\"]]";

const BAD_RULE: &str = "[{\"match\":\"/\"}]";

const ABSENT_IN_RULE: &str =
    "[{\"match\":\"t\",\"filter\":\"select * from t where in_keyrange(x, 'numeric', '-')\"}]";

const UNFIT_IN_RULE: &str =
    "[{\"match\":\"t\",\"filter\":\"select * from t where in_keyrange(v, 'numeric', '-')\"}]";

/// Columns, key, vindex and rules of a file, and the number of its refusal, or 0.
type Row = (&'static str, &'static str, &'static str, &'static str, u8);

const NUMBERS: &[Row] = &[
    // workflow_faults_named
    (COLUMNS, KEY, ",\"vindex\":[\"id\",\"hash\"]", EVERY_ROW, 52),
    // workflow_faults_in_order: an unknown type, though there is no key column
    ("[[\"id\",\"INT\"]]", "[]", "", EVERY_ROW, 52),
    // no key column, though a rule is bad
    (COLUMNS, "[]", "", BAD_RULE, 56),
    // an absent column of the key, though an earlier one has an unfit type
    (TEXT, "[\"id\",\"x\"]", "", EVERY_ROW, 53),
    // an absent column of the vindex, though the key's type is unfit
    (TEXT, KEY, ",\"vindex\":[\"x\",\"numeric\"]", EVERY_ROW, 53),
    // an unfit type of the key, though a rule is bad
    (TEXT, KEY, "", BAD_RULE, 54),
    // a name in the key is unfit before it is absent
    (COLUMNS, "[\"\"]", "", EVERY_ROW, 52),
    // faults_of_a_rule_in_order: a filter's column, then its type
    (COLUMNS, KEY, VINDEX, ABSENT_IN_RULE, 53),
    (COLUMNS, KEY, VINDEX, UNFIT_IN_RULE, 54),
    // a key range under a table without a vindex
    (
        COLUMNS,
        KEY,
        "",
        "[{\"match\":\"t\",\"filter\":\"-80\"}]",
        55,
    ),
    // a rule that is first for no table is read for its form alone
    (
        COLUMNS,
        KEY,
        "",
        "[{\"match\":\"t\"},{\"match\":\"/.*\",\"filter\":\"-80\"}]",
        0,
    ),
    (
        COLUMNS,
        KEY,
        "",
        "[{\"match\":\"t\"},{\"match\":\"/.*\",\"filter\":\"8-\"}]",
        55,
    ),
    // names_and_kinds_of_another_shape
    (
        "[[\"id\",\"INT64\"],[\"id\",\"INT64\"]]",
        KEY,
        "",
        EVERY_ROW,
        52,
    ),
    (COLUMNS, "[\"id\",\"id\"]", "", EVERY_ROW, 52),
    (COLUMNS, KEY, ",\"vindex\":null", EVERY_ROW, 52),
    (COLUMNS, KEY, "", "[{\"match\":\"t\",\"filter\":null}]", 52),
    (COLUMNS, KEY, "", "[{}]", 52),
    (COLUMNS, KEY, "", "[{\"match\":\"\"}]", 0),
    // json_oddities: a key that is ignored, whatever it holds, if that is JSON
    (COLUMNS, KEY, ",\"unknown\":[1.5]", EVERY_ROW, 0),
    (COLUMNS, KEY, ",\"unknown\":1e999", EVERY_ROW, 51),
    // of a key that stands twice the last counts
    (
        COLUMNS,
        KEY,
        ",\"vindex\":3,\"vindex\":[\"id\",\"numeric\"]",
        EVERY_ROW,
        0,
    ),
    // name_limit
    ("[[\"n\",265]]", "[\"n\"]", "", EVERY_ROW, 0),
    ("[[\" \",265]]", "[\" \"]", "", EVERY_ROW, 0),
    ("[[\"\",265]]", "[\"\"]", "", EVERY_ROW, 52),
    ("[[\"\\u001f\",265]]", "[\"\\u001f\"]", "", EVERY_ROW, 52),
    ("[[\"\\u007f\",265]]", "[\"\\u007f\"]", "", EVERY_ROW, 52),
    // type_number_limit
    ("[[\"id\",265]]", KEY, "", EVERY_ROW, 0),
    ("[[\"id\",4294967295]]", KEY, "", EVERY_ROW, 54),
    ("[[\"id\",0]]", KEY, "", EVERY_ROW, 54),
    ("[[\"id\",4294967296]]", KEY, "", EVERY_ROW, 52),
    ("[[\"id\",-1]]", KEY, "", EVERY_ROW, 52),
    ("[[\"id\",-0]]", KEY, "", EVERY_ROW, 52),
    ("[[\"id\",265.0]]", KEY, "", EVERY_ROW, 52),
    ("[[\"id\",2.65e2]]", KEY, "", EVERY_ROW, 52),
];

/// Whether the file of each row is read, or refused by its number.
fn are_numbered(alloc: Global, rows: &[Row]) -> Result<bool, AllocError> {
    for (columns, key, vindex, rules, number) in rows {
        let text = workflow(alloc, columns, key, vindex, rules)?;
        if number_of(alloc, text.as_bytes()) != *number {
            return Ok(false);
        }
    }
    Ok(true)
}

#[test]
fn workflow_faults_in_order(rt: HostRuntime) {
    assert!(rt; matches!(are_numbered(rt.alloc(), NUMBERS), Ok(true)));
}

const OF_X: &str =
    "[{\"match\":\"t\",\"filter\":\"select * from t where in_keyrange(x, 'binary', '-')\"}]";

const TEXT_OF_V: &str = "[[\"id\",\"INT64\"],[\"v\",\"TEXT\"]]";

/// Files that name a column of `t`: `x` where it has none, and `v` where its type is unfit.
const NAMED: &[Row] = &[
    // no_such_column: a key, a vindex or a rule names a column that its table hasn't
    (COLUMNS, "[\"x\"]", VINDEX, EVERY_ROW, 53),
    (COLUMNS, "[\"id\",\"x\"]", VINDEX, EVERY_ROW, 53),
    (
        COLUMNS,
        KEY,
        ",\"vindex\":[\"x\",\"numeric\"]",
        EVERY_ROW,
        53,
    ),
    (COLUMNS, KEY, VINDEX, OF_X, 53),
    // unfit_key_type: they name a column of a type that they can't take
    (
        COLUMNS,
        KEY,
        ",\"vindex\":[\"v\",\"numeric\"]",
        EVERY_ROW,
        54,
    ),
    (TEXT_OF_V, "[\"id\",\"v\"]", VINDEX, EVERY_ROW, 54),
    (
        TEXT_OF_V,
        KEY,
        ",\"vindex\":[\"v\",\"reverse_bits\"]",
        EVERY_ROW,
        54,
    ),
    (TEXT_OF_V, KEY, VINDEX, UNFIT_IN_RULE, 54),
];

/// The fault names a column of `t`, an absent one `x` and one of an unfit type `v`.
fn names_column(fault: &PlanFault) -> bool {
    match fault {
        PlanFault::NoSuchColumn { table, column } => {
            table.as_str() == "t" && column.as_str() == "x"
        }
        PlanFault::KeyType { table, column } => table.as_str() == "t" && column.as_str() == "v",
        _ => false,
    }
}

/// The file is refused by this number with these names.
fn is_named(alloc: Global, text: &[u8], number: u8) -> bool {
    match Plan::read_all(alloc, text) {
        Ok(_) => false,
        Err(fault) => fault.number() == number && names_column(&fault),
    }
}

/// Whether the refusal of each file names its column.
fn are_named(alloc: Global, rows: &[Row]) -> Result<bool, AllocError> {
    for (columns, key, vindex, rules, number) in rows {
        let text = workflow(alloc, columns, key, vindex, rules)?;
        if !is_named(alloc, text.as_bytes(), *number) {
            return Ok(false);
        }
    }
    Ok(true)
}

/// And no_such_column, unfit_key_type.
#[test]
fn workflow_faults_named(rt: HostRuntime) {
    assert!(rt; matches!(are_named(rt.alloc(), NAMED), Ok(true)));
}

/// A rule's pattern and filter, and the number of the refusal of a file with that rule alone, or 0.
const FORMS: &[(&str, &str, u8)] = &[
    ("/.*", "", 0),
    ("/.*", "-80", 0),
    ("t", "select * from t", 0),
    ("t", " \\tSELECT*FROM`t`", 0),
    (
        "t",
        "select * from t where in_keyrange(v, 'binary_md5', '-80')",
        0,
    ),
    ("t", "Select * From t Where In_KeyRange ( '80-' )\\r\\n", 0),
    ("u", "select * from u where in_keyrange('-80')", 0),
    ("where", "select * from where where in_keyrange('-')", 0),
    ("/x", "", 55),
    ("/.*", "select * from t", 55),
    ("t", "`select` * from t", 55),
    ("t", "select * from ``", 55),
    ("t", "select * from t `where` in_keyrange('-80')", 55),
    ("t", "select * from t where", 55),
    ("t", "select * from t where in_keyrange('-80') x", 55),
    ("t", "select * from t where in_keyrange('-80'", 55),
    (
        "t",
        "select * from t where in_keyrange(v, 'hash', '-80')",
        55,
    ),
    ("t", "select * from t where in_keyrange('8-')", 55),
    ("t", "select id from t", 0),
    ("t", "select v from t", 55),
    ("t", " ", 55),
    ("t", " -80", 55),
    ("t", "exclude", 55),
];

/// The refusal's number of a file with one rule.
fn number_of_rule(alloc: Global, matches: &str, filter: &str) -> Result<u8, AllocError> {
    let rules = format!(in alloc; "[{{\"match\":\"{matches}\",\"filter\":\"{filter}\"}}]")?;
    let text = workflow(alloc, COLUMNS, KEY, VINDEX, rules.as_str())?;
    Ok(number_of(alloc, text.as_bytes()))
}

/// Whether a file with each of the rules is read, or refused by the number beside it.
fn are_rules(alloc: Global, rows: &[(&str, &str, u8)]) -> Result<bool, AllocError> {
    for (matches, filter, number) in rows {
        if number_of_rule(alloc, matches, filter)? != *number {
            return Ok(false);
        }
    }
    Ok(true)
}

#[test]
fn filter_forms(rt: HostRuntime) {
    assert!(rt; matches!(are_rules(rt.alloc(), FORMS), Ok(true)));
}

/// Types of the column `id`, rows, and what a rule on that column answers of them: 1 for yes, 0 for no, or
/// the refusal's number.
const ANSWERS: &[(&str, &[u8], u8)] = &[
    ("INT64", b"\x0a\x02\x26\x02\x12\x149223372036854775807a", 1),
    ("UINT64", b"\x0a\x02\x26\x02\x12\x149223372036854775808a", 0),
    ("INT64", b"\x0a\x02\x04\x02\x12\x03-1a", 44),
    ("INT64", b"\x0a\x02\x01\x02\x12\x01a", 43),
];

const LOWER_HALF: &str =
    "[{\"match\":\"t\",\"filter\":\"SELECT * FROM t WHERE IN_KEYRANGE('-80')\"}]";

/// What a plan answers of a row of its first table, as above.
fn answer_of(plan: &Plan, row: &RowView<'_>) -> Option<u8> {
    if plan.tables().is_empty() || row.len() != plan.columns(0).len() {
        return None;
    }
    match plan.passes(0, &row.bytes()) {
        Ok(passes) => Some(u8::from(passes)),
        Err(fault) => Some(fault.number()),
    }
}

/// The file's only plan answers so of a row.
pub(crate) fn answers(alloc: Global, text: &[u8], row: &[u8], wanted: u8) -> bool {
    let (Ok(plans), Ok(row)) = (Plan::read_all(alloc, text), RowView::read(row)) else {
        return false;
    };
    match plans.as_slice() {
        [plan] => answer_of(plan, &row) == Some(wanted),
        _ => false,
    }
}

/// Whether the rule answers of each row what stands beside it.
fn are_answers(alloc: Global, rows: &[(&str, &[u8], u8)]) -> Result<bool, AllocError> {
    for (kind, row, wanted) in rows {
        let columns = format!(in alloc; "[[\"id\",\"{kind}\"],[\"v\",\"VARCHAR\"]]")?;
        let text = workflow(alloc, columns.as_str(), KEY, VINDEX, LOWER_HALF)?;
        if !answers(alloc, text.as_bytes(), row, *wanted) {
            return Ok(false);
        }
    }
    Ok(true)
}

#[test]
fn in_keyrange_any_case(rt: HostRuntime) {
    assert!(rt; matches!(are_answers(rt.alloc(), ANSWERS), Ok(true)));
}

/// The columns `v` and `id`.
fn are_columns(columns: &[ColumnDef]) -> bool {
    match columns {
        [v, id] => v.name() == "v" && id.type_number() == 265,
        _ => false,
    }
}

/// The plan has one table, `t`, with these columns in the other order as its key.
fn is_first_plan(plan: &Plan) -> bool {
    plan.keyspace() == "ks"
        && plan.shard() == "-80"
        && plan.table("t") == Some(0)
        && plan.table("T").is_none()
        && plan.tables().len() == 1
        && plan.key_columns(0) == [1u8, 0].as_slice()
        && are_columns(plan.columns(0))
        && plan.same(plan)
        && plan.same_tables(plan)
}

fn are_first_plans(plans: &[Arc<Plan>]) -> bool {
    match plans {
        [plan] => is_first_plan(plan),
        _ => false,
    }
}

/// Whether the file of the first worked workflow has that plan.
fn is_first_file(alloc: Global) -> Result<bool, AllocError> {
    let columns = "[[\"v\",\"VARCHAR\"],[\"id\",\"INT64\"]]";
    let text = workflow(alloc, columns, "[\"id\",\"v\"]", VINDEX, EVERY_ROW)?;
    match Plan::read_all(alloc, text.as_bytes()) {
        Ok(plans) => Ok(are_first_plans(&plans)),
        Err(_) => Ok(false),
    }
}

/// What a plan of the first worked workflow answers of itself.
#[test]
fn parts_of_a_plan(rt: HostRuntime) {
    assert!(rt; matches!(is_first_file(rt.alloc()), Ok(true)));
}
