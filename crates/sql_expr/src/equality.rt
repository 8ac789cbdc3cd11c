//! Equality of trees.
ghost use Rattle.std.specs.Prelude.{◌≡◌, ◌↔◌, IsTrue};

use crate::tree::{Expr, Link};

#[cycle(same)]
fn same_list(left: &[Expr], right: &[Expr]) -> bool
    ensures { IsTrue result ↔ (left.now ≡ right.now) }
{
    if left.len() != right.len() {
        return false;
    }
    for i in 0..left.len() {
        if !same(&left[i], &right[i]) {
            return false;
        }
    }
    true
}

#[cycle(same)]
fn same_link(left: &Link, right: &Link) -> bool
    ensures { IsTrue result ↔ (left.now ≡ right.now) }
{
    left.sign == right.sign && left.kind == right.kind && same(&left.right, &right.right)
}

#[cycle(same)]
fn same_links(left: &[Link], right: &[Link]) -> bool
    ensures { IsTrue result ↔ (left.now ≡ right.now) }
{
    if left.len() != right.len() {
        return false;
    }
    for i in 0..left.len() {
        if !same_link(&left[i], &right[i]) {
            return false;
        }
    }
    true
}

/// Whether two trees are equal, node by node.
#[cycle(same)]
pub fn same(left: &Expr, right: &Expr) -> bool
    ensures { IsTrue result ↔ (left.now ≡ right.now) }
{
    match (left, right) {
        (Expr::Constant { value: a, kind: k }, Expr::Constant { value: b, kind: l }) => {
            *k == *l && *a == *b
        }
        (Expr::Column { place: a, kind: k }, Expr::Column { place: b, kind: l }) => {
            *a == *b && *k == *l
        }
        (Expr::Not { of: a }, Expr::Not { of: b }) => same(a.get(), b.get()),
        (Expr::Minus { of: a, kind: k }, Expr::Minus { of: b, kind: l }) => {
            *k == *l && same(a.get(), b.get())
        }
        (Expr::Every { list: a }, Expr::Every { list: b })
        | (Expr::Either { list: a }, Expr::Either { list: b }) => {
            same_list(a.as_slice(), b.as_slice())
        }
        (Expr::Chain { first: a, links: x }, Expr::Chain { first: b, links: y }) => same(
            a.get(),
            b.get(),
        ) && same_links(x.as_slice(), y.as_slice()),
        (
            Expr::Compare {
                sign: s,
                left: a,
                right: x,
            },
            Expr::Compare {
                sign: t,
                left: b,
                right: y,
            },
        ) => *s == *t && same(a.get(), b.get()) && same(x.get(), y.get()),
        (Expr::IsNull { of: a, negated: m }, Expr::IsNull { of: b, negated: n }) => {
            *m == *n && same(a.get(), b.get())
        }
        (
            Expr::Like {
                of: a,
                pattern: p,
                negated: m,
            },
            Expr::Like {
                of: b,
                pattern: q,
                negated: n,
            },
        ) => *m == *n && *p == *q && same(a.get(), b.get()),
        (
            Expr::OneOf {
                of: a,
                list: x,
                negated: m,
            },
            Expr::OneOf {
                of: b,
                list: y,
                negated: n,
            },
        ) => *m == *n && same(a.get(), b.get()) && same_list(x.as_slice(), y.as_slice()),
        (
            Expr::Between {
                of: a,
                low: v,
                high: x,
                negated: m,
            },
            Expr::Between {
                of: b,
                low: w,
                high: y,
                negated: n,
            },
        ) => {
            *m == *n && same(a.get(), b.get()) && same(v.get(), w.get()) && same(x.get(), y.get())
        }
        _ => false,
    }
}
