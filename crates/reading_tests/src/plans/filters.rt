//! Filters and scopes of rules as texts.

use filter_text::*;
use std::alloc::Global;
use vindex::{KeyRange, Vindex};

/// The rows that a filter is wanted to name, ranges as texts.
#[derive(Clone, Copy)]
enum Wanted<'w> {
    EveryRow,
    OwnVindex(&'w str),
    Named(&'w str, Vindex, &'w str),
}

/// Texts, and the table and the rows of the filters that they are.
const FORMS: &[(&str, Option<&str>, Wanted<'static>)] = &[
    ("", None, Wanted::EveryRow),
    ("-80", None, Wanted::OwnVindex("-80")),
    ("0", None, Wanted::OwnVindex("-")),
    ("select * from t", Some("t"), Wanted::EveryRow),
    (" SELECT*FROM`t`\r\n", Some("t"), Wanted::EveryRow),
    ("select * from `a b`", Some("a b"), Wanted::EveryRow),
    ("select * from where", Some("where"), Wanted::EveryRow),
    ("select * from `select`", Some("select"), Wanted::EveryRow),
    (
        "select * from t where in_keyrange('80-00')",
        Some("t"),
        Wanted::OwnVindex("80-"),
    ),
    (
        "select * from t where in_keyrange(v, 'binary_md5', '-80')",
        Some("t"),
        Wanted::Named("v", Vindex::BinaryMd5, "-80"),
    ),
    (
        "select\t*\nfrom t Where In_KeyRange(`\u{e9}`,'numeric','40-80')",
        Some("t"),
        Wanted::Named("\u{e9}", Vindex::Numeric, "40-80"),
    ),
    (
        "select * from t where in_keyrange(id, 'hash', '80-')",
        Some("t"),
        Wanted::Named("id", Vindex::Hash, "80-"),
    ),
];

/// The range is that of a text.
fn is_range(alloc: Global, range: &KeyRange, text: &str) -> bool {
    match KeyRange::parse(alloc, text) {
        Ok(wanted) => range.same(&wanted),
        Err(_) => false,
    }
}

fn has_rows(alloc: Global, rows: &Rows<'_>, wanted: Wanted<'_>) -> bool {
    match (rows, wanted) {
        (Rows::EveryRow, Wanted::EveryRow) => true,
        (Rows::OwnVindex { range }, Wanted::OwnVindex(text)) => is_range(alloc, range, text),
        (
            Rows::Named {
                column,
                vindex,
                range,
            },
            Wanted::Named(name, named, text),
        ) => *column == name && *vindex == named && is_range(alloc, range, text),
        _ => false,
    }
}

/// The text is read as a filter of this table and these rows.
fn is_filter(alloc: Global, text: &str, table: Option<&str>, wanted: Wanted<'_>) -> bool {
    match Filter::parse(alloc, text) {
        Ok(filter) => filter.table == table && has_rows(alloc, &filter.rows, wanted),
        Err(_) => false,
    }
}

/// Whether each text is read as the filter beside it.
fn are_filters(alloc: Global, rows: &[(&str, Option<&str>, Wanted<'_>)]) -> bool {
    for (text, table, wanted) in rows {
        if !is_filter(alloc, text, *table, *wanted) {
            return false;
        }
    }
    true
}

#[test]
fn forms_of_filters(rt: HostRuntime) {
    assert!(rt; are_filters(rt.alloc(), FORMS));
}

/// Texts, and the columns that the filters list.
const LISTS: &[(&str, &[&str])] = &[
    ("select a from t", &["a"]),
    ("select v, id from t", &["v", "id"]),
    ("SELECT`a b`,c\tFROM t", &["a b", "c"]),
    ("select `from`, a from t", &["from", "a"]),
    ("select a, `FROM` from from", &["a", "FROM"]),
    (
        "select select, where from t where in_keyrange('-80')",
        &["select", "where"],
    ),
    (
        "select a,b,c,d,e,f,g,h,i,j,k,l,m,n from t where in_keyrange(z, 'binary', '-80')",
        &[
            "a", "b", "c", "d", "e", "f", "g", "h", "i", "j", "k", "l", "m", "n",
        ],
    ),
];

/// The list has these columns, in this order.
fn has_columns(list: &ColumnList<'_>, wanted: &[&str]) -> bool {
    let mut left = list.again();
    for name in wanted {
        if left.next_column() != Some(*name) {
            return false;
        }
    }
    left.next_column().is_none()
}

/// The filter lists these columns.
fn lists(filter: &Filter<'_>, wanted: &[&str]) -> bool {
    match &filter.columns {
        Some(list) => has_columns(list, wanted),
        None => false,
    }
}

/// The text is read as a filter that lists these columns.
fn is_list(alloc: Global, text: &str, wanted: &[&str]) -> bool {
    match Filter::parse(alloc, text) {
        Ok(filter) => lists(&filter, wanted),
        Err(_) => false,
    }
}

/// Whether each text is read as a filter that lists the columns beside it.
fn are_lists(alloc: Global, rows: &[(&str, &[&str])]) -> bool {
    for (text, wanted) in rows {
        if !is_list(alloc, text, wanted) {
            return false;
        }
    }
    true
}

#[test]
fn columns_of_filters(rt: HostRuntime) {
    assert!(rt; are_lists(rt.alloc(), LISTS));
}

const NO_FILTERS: &[&str] = &[
    " ",
    "8-",
    " -80",
    "80-40",
    "select",
    "select * from",
    "select * from ``",
    "select * from `t",
    "`select` * from t",
    "select * `from` t",
    "select * from t-u",
    "select * from t u",
    "select * from t where",
    // no list of columns
    "select from t",
    "select from, a from t",
    "select a from, b from t",
    "select a, from t",
    "select a b from t",
    "select , a from t",
    "select *, a from t",
    "select a, * from t",
    "select 'a' from t",
    "select a, a from t",
    "select a, b, `a` from t",
    "select a `from` t",
    "select a, b",
    "select a from t where in_keyrange('8-')",
    "select a, b from t where in_keyrange(v, 'numeric', '-80') x",
    "select * from t where in_keyrange('-80'",
    "select * from t where in_keyrange('-80') limit",
    "select * from t where in_keyrange('8-')",
    "select * from t where in_keyrange(v, 'xxhash', '-80')",
    "select * from t where in_keyrange(v, 'Hash', '-80')",
    "select * from t where in_keyrange(v, 'numeric', '-80'",
    "select * from t where in_keyrange(v, numeric, '-80')",
    "select * from t where in_keyrange('v', 'numeric', '-80')",
    "insert * from t",
    // more tokens than any selection has
    "select * from t where in_keyrange(v, 'numeric', '-80') x",
    "select * from t where in_keyrange(v, 'numeric', '-80') x y z ''",
];

/// Whether none of the texts is a filter.
fn are_no_filters(alloc: Global, texts: &[&str]) -> bool {
    for text in texts {
        if !matches!(Filter::parse(alloc, text), Err(FilterFault::BadForm)) {
            return false;
        }
    }
    true
}

#[test]
fn texts_that_are_no_filters(rt: HostRuntime) {
    assert!(rt; are_no_filters(rt.alloc(), NO_FILTERS));
}

/// The scope is for the table `t` alone.
fn is_for_t(scope: &Scope<'_>) -> bool {
    scope.is_for("t")
        && !scope.is_for("T")
        && scope.agrees(Some("t"))
        && !scope.agrees(Some("u"))
        && scope.agrees(None)
}

/// A rule is for every table, for one, or no pattern.
fn are_scopes() -> bool {
    matches!(Scope::parse("/.*"), Some(Scope::EveryTable))
        && Scope::parse("/t").is_none()
        && matches!(Scope::parse(""), Some(Scope::OneTable("")))
}

/// A rule for every table agrees with a filter that names none.
fn is_for_every_table(scope: &Scope<'_>) -> bool {
    !scope.agrees(Some("t")) && scope.agrees(None)
}

#[test]
fn scopes_of_rules(rt: HostRuntime) {
    assert!(rt;
        are_scopes() && is_for_t(&Scope::OneTable("t")) && is_for_every_table(&Scope::EveryTable)
    );
}
