//! Bound statements as texts: `(`, what the node is, its parts, `)`.
use bound_tree::{
    Aggregate, Bound, BoundCore, BoundRows, BoundSelect, BoundSource, Conjunct, Cut, Grouping,
    JoinKind, SetKind, SortKey, SourceRows,
};
use ooc_types::{Column, Schema, SqlType};
use typed_text::{Printed, aggregate_text, print_expr, print_exprs};

fn join_text(join: JoinKind) -> &'static str {
    match join {
        JoinKind::First => "first",
        JoinKind::Inner => "inner",
        JoinKind::Left => "left",
        JoinKind::Cross => "cross",
    }
}

fn set_text(kind: SetKind) -> &'static str {
    match kind {
        SetKind::Union => "union",
        SetKind::Except => "except",
        SetKind::Intersect => "intersect",
    }
}

fn print_aggregates(aggregates: &[Aggregate], out: &mut Printed) {
    for aggregate in aggregates {
        out.open(aggregate_text(aggregate.kind));
        if let Some(of) = &aggregate.of {
            print_expr(of.get(), out);
        }
        out.kind(aggregate.result);
        out.close();
    }
}

fn print_kinds(kinds: &[SqlType], out: &mut Printed) {
    for kind in kinds {
        out.kind(*kind);
    }
}

fn print_columns(what: &str, columns: &[Column], out: &mut Printed) {
    out.open(what);
    for column in columns {
        out.name(&column.name);
        out.kind(column.kind);
        if !column.nullable {
            out.put("!");
        }
    }
    out.close();
}

fn print_list(what: &str, list: &[sql_expr::Expr], out: &mut Printed) {
    out.open(what);
    print_exprs(list, out);
    out.close();
}

fn print_grouping(grouping: &Grouping, out: &mut Printed) {
    print_list("keys", grouping.keys.as_slice(), out);
    print_aggregates(grouping.aggregates.as_slice(), out);
    if let Some(having) = &grouping.having {
        print_list("having", having.as_slice(), out);
    }
}

fn print_keys(keys: &[SortKey], out: &mut Printed) {
    for key in keys {
        out.number("#", key.place as u128);
        if key.descending {
            out.put("-desc");
        }
    }
}

fn print_cut(cut: &Cut, out: &mut Printed) {
    out.open("order");
    print_keys(cut.keys.as_slice(), out);
    if let Some(limit) = cut.limit {
        out.number("limit", limit);
    }
    if let Some(offset) = cut.offset {
        out.number("offset", offset);
    }
    out.close();
}

#[cycle(show)]
fn print_source_rows(rows: &SourceRows, out: &mut Printed) {
    match rows {
        SourceRows::Table(name) => out.name(name),
        SourceRows::Query(select) => print_select(select.get(), out),
    }
}

#[cycle(show)]
fn print_source(source: &BoundSource, out: &mut Printed) {
    out.open(join_text(source.join));
    out.name(&source.name);
    print_source_rows(&source.rows, out);
    if !source.on.is_empty() {
        print_list("on", source.on.as_slice(), out);
    }
    out.close();
}

#[cycle(show)]
fn print_sources(sources: &[BoundSource], out: &mut Printed) {
    for source in sources {
        print_source(source, out);
    }
}

#[cycle(show)]
fn print_conjunct(conjunct: &Conjunct, out: &mut Printed) {
    match conjunct {
        Conjunct::Condition(expr) => print_expr(expr, out),
        Conjunct::Member { of, query, negated } => {
            out.open_test(*negated, "member");
            print_expr(of, out);
            print_select(query.get(), out);
            out.close();
        }
    }
}

#[cycle(show)]
fn print_conjuncts(conjuncts: &[Conjunct], out: &mut Printed) {
    if conjuncts.is_empty() {
        return;
    }
    out.open("where");
    for conjunct in conjuncts {
        print_conjunct(conjunct, out);
    }
    out.close();
}

#[cycle(show)]
fn print_core(core: &BoundCore, out: &mut Printed) {
    print_sources(core.sources.as_slice(), out);
    print_conjuncts(core.conjuncts.as_slice(), out);
    if let Some(grouping) = &core.grouping {
        print_grouping(grouping, out);
    }
    print_list(
        if core.distinct { "distinct" } else { "items" },
        core.items.as_slice(),
        out,
    );
}

#[cycle(show)]
fn print_rows(rows: &BoundRows, out: &mut Printed) {
    match rows {
        BoundRows::Core(core) => print_core(core, out),
        BoundRows::Set {
            kind,
            all,
            left,
            right,
            kinds,
        } => {
            out.open(set_text(*kind));
            if *all {
                out.put("-all");
            }
            print_rows(left.get(), out);
            print_rows(right.get(), out);
            print_kinds(kinds.as_slice(), out);
            out.close();
        }
    }
}

#[cycle(show)]
fn print_select(select: &BoundSelect, out: &mut Printed) {
    out.open("select");
    print_rows(select.rows.get(), out);
    print_columns("to", select.columns.as_slice(), out);
    if let Some(cut) = &select.cut {
        print_cut(cut, out);
    }
    out.close();
}

fn print_table(columns: &Schema, out: &mut Printed) {
    print_columns("columns", columns.as_slice(), out);
}

/// A statement.
pub(crate) fn print_bound(bound: &Bound, out: &mut Printed) {
    match bound {
        Bound::CreateTable { name, columns } => {
            out.word("create");
            out.name(name);
            print_table(columns, out);
        }
        Bound::DropTable { name } => {
            out.word("drop");
            out.name(name);
        }
        Bound::Copy {
            name,
            file,
            header,
            delimiter,
            null,
        } => {
            out.word("copy");
            out.name(name);
            out.quoted(file);
            out.word(if *header { "header" } else { "no-header" });
            out.number("delimiter", u128::from(*delimiter));
            out.quoted(null);
        }
        Bound::Explain(select) => {
            out.word("explain");
            print_select(select, out);
        }
        Bound::Select(select) => print_select(select, out),
    }
}
