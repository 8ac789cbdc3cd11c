//! Typed expressions as texts: `(`, what the node is, its parts, `)`. A column is `#` and its place.
use crate::printed::Printed;
use bound_tree::AggregateKind;
use sql_expr::{ChainSign, CompareSign, Expr, Link};

fn sign_text(sign: ChainSign) -> &'static str {
    match sign {
        ChainSign::Plus => "+",
        ChainSign::Minus => "-",
        ChainSign::Times => "*",
        ChainSign::Quotient => "//",
        ChainSign::Remainder => "%",
    }
}

fn compare_text(sign: CompareSign) -> &'static str {
    match sign {
        CompareSign::Equal => "=",
        CompareSign::Unequal => "<>",
        CompareSign::Less => "<",
        CompareSign::AtMost => "<=",
        CompareSign::Greater => ">",
        CompareSign::AtLeast => ">=",
    }
}

#[cycle(print)]
fn print_links(links: &[Link], out: &mut Printed) {
    for link in links {
        out.open(sign_text(link.sign));
        print_expr(&link.right, out);
        out.kind(link.kind);
        out.close();
    }
}

/// Puts expressions, one behind the other.
#[cycle(print)]
pub fn print_exprs(list: &[Expr], out: &mut Printed) {
    for expr in list {
        print_expr(expr, out);
    }
}

/// Puts an expression.
#[cycle(print)]
pub fn print_expr(expr: &Expr, out: &mut Printed) {
    match expr {
        Expr::Constant { value, .. } => out.constant(value),
        Expr::Column { place, .. } => out.number("#", u128::from(*place)),
        Expr::Not { of } => {
            out.open("not");
            print_expr(of.get(), out);
            out.close();
        }
        Expr::Minus { of, .. } => {
            out.open("minus");
            print_expr(of.get(), out);
            out.close();
        }
        Expr::Every { list } => {
            out.open("and");
            print_exprs(list.as_slice(), out);
            out.close();
        }
        Expr::Either { list } => {
            out.open("or");
            print_exprs(list.as_slice(), out);
            out.close();
        }
        Expr::Chain { first, links } => {
            out.open("chain");
            print_expr(first.get(), out);
            print_links(links.as_slice(), out);
            out.close();
        }
        Expr::Compare { sign, left, right } => {
            out.open(compare_text(*sign));
            print_expr(left.get(), out);
            print_expr(right.get(), out);
            out.close();
        }
        Expr::IsNull { of, negated } => {
            out.open_test(*negated, "null");
            print_expr(of.get(), out);
            out.close();
        }
        Expr::Like {
            of,
            pattern,
            negated,
        } => {
            out.open_test(*negated, "like");
            print_expr(of.get(), out);
            out.quoted(pattern);
            out.close();
        }
        Expr::OneOf { of, list, negated } => {
            out.open_test(*negated, "in");
            print_expr(of.get(), out);
            print_exprs(list.as_slice(), out);
            out.close();
        }
        Expr::Between {
            of,
            low,
            high,
            negated,
        } => {
            out.open_test(*negated, "between");
            print_expr(of.get(), out);
            print_expr(low.get(), out);
            print_expr(high.get(), out);
            out.close();
        }
    }
}

/// The word for an aggregate.
pub fn aggregate_text(kind: AggregateKind) -> &'static str {
    match kind {
        AggregateKind::CountRows => "count-rows",
        AggregateKind::Count => "count",
        AggregateKind::CountDistinct => "count-distinct",
        AggregateKind::Sum => "sum",
        AggregateKind::Min => "min",
        AggregateKind::Max => "max",
    }
}
