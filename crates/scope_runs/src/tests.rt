//! Expressions with what they are bound to, or with their refusal, written by hand from the rules. In a refused
//! expression `^` stands before the token at which it is refused.
use crate::expression::bind_expr;
use crate::printing::print_part;
use ooc_types::{Column, RefusalKind, Schema, SqlType, Text};
use sql_expr::Expr as Tree;
use sql_grammar::tree::{Expr, Item, Rows, Span, Statement};
use sql_lex::lex;
use sql_parse::parse;
use sql_scope::{
    BindFault, BoundPart, Scope, ScopeColumn, TableColumns, are_comparable, columns_of, is_boolean,
    name_at, same, small_letters,
};
use sqlite_items::Boxed;
use std::alloc::Global;
use std::test::Fail;
use typed_text::Printed;

/// How many bytes a text may have.
const LIMIT: usize = 4;

static COLUMNS: [(&str, &str, SqlType); 9] = [
    ("t", "a", SqlType::Integer),
    ("t", "b", SqlType::BigInt),
    ("t", "c", SqlType::Varchar),
    ("t", "d", SqlType::Decimal { width: 5, scale: 2 }),
    ("t", "e", SqlType::Boolean),
    ("t", "f", SqlType::Date),
    ("t", "h", SqlType::HugeInt),
    ("u", "a", SqlType::Integer),
    (
        "u",
        "k",
        SqlType::Decimal {
            width: 28,
            scale: 0,
        },
    ),
];

fn text(alloc: Global, bytes: &str) -> Result<Text, Fail> {
    Ok(Text::from_slice(alloc, bytes.as_bytes())?)
}

fn columns(alloc: Global) -> Result<Vec<ScopeColumn>, Fail> {
    let mut columns = Vec::new(alloc);
    for (source, name, kind) in &COLUMNS {
        columns.push(ScopeColumn {
            source: text(alloc, source)?,
            name: text(alloc, name)?,
            declared: text(alloc, name)?,
            kind: *kind,
        })?;
    }
    Ok(columns)
}

/// The last item of a script of one select.
fn last_item(alloc: Global, script: &str) -> Result<Boxed<Expr>, Fail> {
    let tokens = lex(alloc, script.as_bytes()).ok().ok_or("a bad token")?;
    let mut found = parse(alloc, &tokens).ok().ok_or("no script")?;
    let Some(Statement::Select(select)) = found.statements.pop() else {
        return Err("no select".into());
    };
    let Rows::Core { mut items, .. } = select.into_inner().rows.into_inner() else {
        return Err("no core".into());
    };
    match items.pop() {
        Some(Item::Value { value, .. }) => Ok(value),
        _ => Err("no item".into()),
    }
}

/// An item over all columns, grouped by the column `a` of `t`.
fn bound_item(alloc: Global, script: &str) -> Result<BoundPart, Fail> {
    if script.len() > 1_000 {
        return Err("a long script".into());
    }
    let item = last_item(alloc, script)?;
    let columns = columns(alloc)?;
    if columns.len() > 64 {
        return Err("many columns".into());
    }
    let mut keys = Vec::new(alloc);
    keys.push(Tree::Column {
        place: 0,
        kind: SqlType::Integer,
    })?;
    let outermost = Scope::new(script.as_bytes(), &[], LIMIT);
    let sources = outermost.over_columns(columns.as_slice());
    let shown = sources.over_keys(keys.as_slice());
    Ok(bind_expr(alloc, &shown, item.get()))
}

static BOUND: [(&str, &str); 28] = [
    ("SELECT t.a FROM t", "#0 int"),
    ("SELECT b FROM t", "#1 big bare7"),
    ("SELECT \"U\".a FROM t", "#7 int bare7"),
    ("SELECT 7 FROM t", "7 int"),
    ("SELECT 2147483648 FROM t", "2147483648 big"),
    (
        "SELECT 9223372036854775808 FROM t",
        "9223372036854775808 huge",
    ),
    ("SELECT 02.50 FROM t", "250 e-2 dec3 .2"),
    ("SELECT 'a''bc' FROM t", "'a'bc' text"),
    ("SELECT FALSE FROM t", "false bool"),
    ("SELECT DATE '1970-01-31' FROM t", "day30 date"),
    ("SELECT - - d FROM t", "(minus (minus #3)) dec5 .2 bare11"),
    ("SELECT NOT e FROM t", "(not #4) bool bare11"),
    (
        "SELECT t.a + b + h FROM t",
        "(chain #0 (+ #1 big) (+ #6 huge)) huge bare13",
    ),
    (
        "SELECT d * 2 - d FROM t",
        "(chain (chain #3 (* 2 dec15 .2)) (- #3 dec16 .2)) dec16 .2 bare7",
    ),
    ("SELECT f - f FROM t", "(chain #5 (- #5 big)) big bare7"),
    ("SELECT f + 1 FROM t", "(chain #5 (+ 1 date)) date bare7"),
    (
        "SELECT e AND t.a = 1 AND NOT e FROM t",
        "(and #4 (= #0 1) (not #4)) bool bare7",
    ),
    (
        "SELECT t.a < 1 OR t.a >= d FROM t",
        "(or (< #0 1) (>= #0 #3)) bool bare25",
    ),
    ("SELECT c IS NOT NULL FROM t", "(not-null #2) bool bare7"),
    (
        "SELECT c NOT LIKE 'x%' FROM t",
        "(not-like #2 'x%') bool bare7",
    ),
    ("SELECT t.a IN (1, -2) FROM t", "(in #0 1 (minus 2)) bool"),
    (
        "SELECT t.a BETWEEN 1 AND b FROM t",
        "(between #0 1 #1) bool bare25",
    ),
    ("SELECT count(*) FROM t", "#16 big (count-rows at7)"),
    (
        "SELECT sum(b) + MIN(t.a) FROM t",
        "(chain #16 (+ #25 huge)) huge (sum #1 at7) (min #0 at16)",
    ),
    ("SELECT \"max\"(c) FROM t", "#16 text (max #2 at7)"),
    (
        "SELECT count(DISTINCT e), sum(d) FROM t",
        "#35 dec38 .2 (sum #3 at26)",
    ),
    (
        "SELECT count(distinct c) FROM t",
        "#16 big (count-distinct #2 at7)",
    ),
    ("SELECT (t.a) FROM t", "#0 int"),
];

static REFUSED: [(&str, RefusalKind); 36] = [
    ("SELECT ^z FROM t", RefusalKind::NoColumn),
    ("SELECT ^t.z FROM t", RefusalKind::NoColumn),
    ("SELECT ^a FROM t", RefusalKind::Ambiguous),
    ("SELECT b + ^a FROM t", RefusalKind::Ambiguous),
    ("SELECT ^v.a FROM t", RefusalKind::NoTable),
    ("SELECT ^'abcde' FROM t", RefusalKind::TextTooLong),
    ("SELECT b LIKE ^'abcde' FROM t", RefusalKind::TextTooLong),
    (
        "SELECT c IN ('a', ^'abcde') FROM t",
        RefusalKind::TextTooLong,
    ),
    ("SELECT DATE ^'2021-02-29' FROM t", RefusalKind::BadDate),
    ("SELECT DATE ^'abcdefgh' FROM t", RefusalKind::BadDate),
    ("SELECT ^avg(b) FROM t", RefusalKind::NoFunction),
    ("SELECT ^min(*) FROM t", RefusalKind::NoFunction),
    ("SELECT ^sum(DISTINCT b) FROM t", RefusalKind::NoFunction),
    ("SELECT ^f(count(b)) FROM t", RefusalKind::NoFunction),
    ("SELECT f(^z) FROM t", RefusalKind::NoColumn),
    ("SELECT b ^= c FROM t", RefusalKind::TypeMismatch),
    ("SELECT b ^+ c FROM t", RefusalKind::TypeMismatch),
    ("SELECT b ^+ c + z FROM t", RefusalKind::TypeMismatch),
    ("SELECT ^- c FROM t", RefusalKind::TypeMismatch),
    ("SELECT ^NOT b FROM t", RefusalKind::TypeMismatch),
    ("SELECT b ^AND e FROM t", RefusalKind::TypeMismatch),
    (
        "SELECT e AND e ^AND b AND z FROM t",
        RefusalKind::TypeMismatch,
    ),
    ("SELECT e ^OR 1 FROM t", RefusalKind::TypeMismatch),
    ("SELECT b NOT ^LIKE 'x' FROM t", RefusalKind::TypeMismatch),
    ("SELECT c ^IN (1) FROM t", RefusalKind::TypeMismatch),
    ("SELECT c IN (^-'x') FROM t", RefusalKind::TypeMismatch),
    (
        "SELECT b ^BETWEEN 1 AND 'x' FROM t",
        RefusalKind::TypeMismatch,
    ),
    ("SELECT ^sum(c) FROM t", RefusalKind::TypeMismatch),
    ("SELECT b ^+ f FROM t", RefusalKind::TypeMismatch),
    ("SELECT h ^* d FROM t", RefusalKind::TypeMismatch),
    ("SELECT ^sum(h) FROM t", RefusalKind::SumTooWide),
    ("SELECT ^sum(k) FROM t", RefusalKind::SumTooWide),
    ("SELECT k ^* k FROM t", RefusalKind::DecimalTooWide),
    ("SELECT 1 + k ^* k FROM t", RefusalKind::DecimalTooWide),
    ("SELECT sum(^count(b)) FROM t", RefusalKind::AggregateHere),
    (
        "SELECT count(DISTINCT ^max(b)) FROM t",
        RefusalKind::AggregateHere,
    ),
];

fn refused_at(place: usize, kind: RefusalKind, bound: &BoundPart) -> bool {
    match bound {
        Err(
            BindFault::Refused {
                place: at,
                kind: why,
            },
        ) => *at == place && *why == kind,
        _ => false,
    }
}

#[test]
fn expressions_are_bound(rt: HostRuntime) -> Result<(), Fail> {
    for (script, expected) in &BOUND {
        let mut out = Printed::new(rt.alloc());
        match bound_item(rt.alloc(), script)? {
            Ok(part) => print_part(&part, &mut out),
            Err(_) => return Err((*script).into()),
        }
        assert!(rt; out.is_whole);
        assert_eq!(rt; out.text.as_str(), *expected, "at {script}");
    }
    Ok(())
}

#[test]
fn expressions_are_refused(rt: HostRuntime) -> Result<(), Fail> {
    for (marked, kind) in &REFUSED {
        let place = marked.find('^').ok_or("no mark")?;
        let script = marked.replace(rt.alloc(), '^', "")?;
        let bound = bound_item(rt.alloc(), script.as_str())?;
        assert!(rt; refused_at(place, *kind, &bound), "at {marked}");
    }
    Ok(())
}

#[test]
fn names_and_tables(rt: HostRuntime) -> Result<(), Fail> {
    let script = b"Ab \"X\"\"y\"".as_slice();
    let quoted = Span { start: 3, end: 9 };
    assert_eq!(rt;
        name_at(rt.alloc(), script, quoted)?.as_slice(),
        b"X\"y".as_slice()
    );
    assert_eq!(rt;
        small_letters(rt.alloc(), b"Ab1")?.as_slice(),
        b"ab1".as_slice()
    );
    let mut columns = Schema::new_schema(rt.alloc());
    columns.push(Column {
        name: text(rt.alloc(), "k")?,
        kind: SqlType::Date,
        nullable: false,
    })?;
    let mut tables = Vec::new(rt.alloc());
    tables.push(TableColumns {
        name: text(rt.alloc(), "t")?,
        columns,
    })?;
    assert!(rt; columns_of(tables.as_slice(), b"t").is_some());
    assert!(rt; columns_of(tables.as_slice(), b"u").is_none());
    assert!(rt; are_comparable(SqlType::Integer, SqlType::HugeInt));
    assert!(rt; !are_comparable(SqlType::Date, SqlType::Varchar));
    assert!(rt; is_boolean(SqlType::Boolean) && !is_boolean(SqlType::Date));
    let one = Tree::Column {
        place: 1,
        kind: SqlType::Date,
    };
    let other = Tree::Column {
        place: 2,
        kind: SqlType::Date,
    };
    assert!(rt; same(&one, &one) && !same(&one, &other));
    Ok(())
}
