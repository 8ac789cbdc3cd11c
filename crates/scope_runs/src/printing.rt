//! What an expression is bound to, as a text.
use sql_expr::kind_of;
use sql_scope::{Call, Part};
use typed_text::{Printed, aggregate_text, print_expr};

fn print_calls(calls: &[Call], out: &mut Printed) {
    for call in calls {
        out.open(aggregate_text(call.aggregate.kind));
        if let Some(of) = &call.aggregate.of {
            print_expr(of.get(), out);
        }
        out.number("at", call.place as u128);
        out.close();
    }
}

/// A part: its tree, its type, its first column that no key covers, and its aggregates.
pub(crate) fn print_part(part: &Part, out: &mut Printed) {
    print_expr(part.tree.get(), out);
    out.kind(kind_of(part.tree.get()));
    if let Some(place) = part.bare {
        out.number("bare", place as u128);
    }
    print_calls(part.calls.as_slice(), out);
}
