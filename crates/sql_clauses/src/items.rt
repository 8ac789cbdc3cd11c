//! What a core shows.
ghost use Rattle.std.specs.Prelude.{◌≡◌, ◌≤◌, ◌++◌, ◌∷◌, [], true, IfOk, OnOk, Ok, Some, None, length};
ghost use Rattle.sql_scope.specs.Answer.{Gives, GoesOn, GoesOnBoth};
ghost use Rattle.sql_expr.specs.Kinds.{kind_of as of_tree};
ghost use Rattle.sql_clauses.specs.Items as rules;

use crate::names::{small_name, written_name};
use crate::pairs::both;
use ooc_types::{Column, OutOfMemory, RefusalKind, Schema, SqlType, Text};
use sql_expr::{Expr, Exprs, kind_of};
use sql_grammar::tree::Span;
use sql_scope::{BindFault, BoundPart, Call, Part, Scope, ScopeColumn, part_over};
use sqlite_items::Items;
use std::alloc::Global;

/// The outputs of a core as far as they were bound: their trees, their names and types, the columns that they show as
/// they are, and the aggregates in them as they are written.
#[derive(Drop)]
pub struct Outputs {
    pub trees: Exprs,
    pub columns: Schema,
    pub plain: Items<Option<u32>>,
    pub calls: Items<Call>,
}

/// No outputs yet.
pub fn no_outputs(alloc: Global) -> Outputs
    ensures { result ≡ rules.no_outputs }
{
    Outputs {
        trees: Items::new(alloc),
        columns: Schema::new_schema(alloc),
        plain: Items::new(alloc),
        calls: Items::new(alloc),
    }
}

/// In a grouped statement every column outside aggregates is covered by a key.
pub(crate) fn covered(grouped: bool, part: Part) -> BoundPart
    ensures { Gives (rules.covered grouped part) result }
{
    match part.bare {
        Some(place) if grouped => Err(BindFault::Refused {
            place,
            kind: RefusalKind::NotGrouped,
        }),
        _ => Ok(part),
    }
}

fn plain_column(scope: &Scope<'_>, tree: &Expr) -> Option<u32>
    ensures { result ≡ rules.plain_column scope.now tree.now }
{
    match tree {
        Expr::Column { place, .. } if (*place as usize) < scope.columns().len() => Some(*place),
        _ => None,
    }
}

fn numbered(alloc: Global, number: usize) -> Result<Text, OutOfMemory>
    ensures { IfOk result (λ name. name ≡ rules.numbered number) }
{
    let name = format!(in alloc; "col{number}")?;
    Ok(Text::from_vec(name.into_bytes()))
}

fn plain_name_of(
    alloc: Global,
    scope: &Scope<'_>,
    number: usize,
    plain: Option<u32>,
) -> Result<Text, OutOfMemory>
    ensures { IfOk result (λ name. name ≡ rules.plain_name_of scope.now number plain) }
{
    match plain {
        Some(at) => match scope.columns().get(at as usize) {
            Some(column) => Ok(column.declared.clone()?),
            None => numbered(alloc, number),
        },
        None => numbered(alloc, number),
    }
}

fn output_name(
    alloc: Global,
    scope: &Scope<'_>,
    number: usize,
    alias: Option<Span>,
    plain: Option<u32>,
) -> Result<Text, OutOfMemory>
    ensures { IfOk result (λ name. name ≡ rules.output_name scope.now number alias plain) }
{
    match alias {
        Some(alias) => written_name(alloc, scope, alias),
        None => plain_name_of(alloc, scope, number, plain),
    }
}

fn output_column(
    alloc: Global,
    scope: &Scope<'_>,
    number: usize,
    alias: Option<Span>,
    tree: &Expr,
) -> Result<Column, OutOfMemory>
    ensures { IfOk result (λ column. column ≡ record { name = rules.output_name scope.now number alias (rules.plain_column scope.now tree.now); kind = of_tree tree.now; nullable = true }) }
{
    let shown = plain_column(scope, tree);
    Ok(Column {
        name: output_name(alloc, scope, number, alias, shown)?,
        kind: kind_of(tree),
        nullable: true,
    })
}

// Through a reference: where memory runs out nothing of the outputs is dropped here.
fn add_output(
    outputs: &mut Outputs,
    column: Column,
    shown: Option<u32>,
    part: Part,
) -> Result<(), OutOfMemory>
    ensures { OnOk result (outputs.new ≡ record { trees = outputs.old.trees ++ part.tree ∷ []; columns = outputs.old.columns ++ column ∷ []; plain = outputs.old.plain ++ shown ∷ []; calls = outputs.old.calls ++ part.calls }) }
{
    outputs.columns.push(column)?;
    outputs.plain.push(shown)?;
    outputs.trees.push(part.tree.into_inner())?;
    outputs.calls.append(part.calls)?;
    Ok(())
}

fn with_output(
    alloc: Global,
    scope: &Scope<'_>,
    alias: Option<Span>,
    outputs: Outputs,
    part: Part,
) -> Result<Outputs, BindFault>
    ensures { Gives (rules.with_output scope.now alias outputs part) result }
{
    let number = outputs.trees.as_slice().len() + 1;
    let column = output_column(alloc, scope, number, alias, part.tree.get())?;
    let shown = plain_column(scope, part.tree.get());
    let mut outputs = outputs;
    add_output(&mut outputs, column, shown, part)?;
    Ok(outputs)
}

fn value_pair(
    alloc: Global,
    scope: &Scope<'_>,
    grouped: bool,
    alias: Option<Span>,
    pair: Result<(Outputs, Part), BindFault>,
) -> Result<Outputs, BindFault>
    ensures { GoesOn (λ p. rules.value_item scope.now grouped alias p.0 p.1) pair result }
{
    let (outputs, part) = pair?;
    let part = covered(grouped, part)?;
    with_output(alloc, scope, alias, outputs, part)
}

/// An expression behind the items before it.
pub fn value_item(
    alloc: Global,
    scope: &Scope<'_>,
    grouped: bool,
    alias: Option<Span>,
    outputs: Result<Outputs, BindFault>,
    part: BoundPart,
) -> Result<Outputs, BindFault>
    ensures { GoesOnBoth (rules.value_item scope.now grouped alias) outputs part result }
{
    value_pair(alloc, scope, grouped, alias, both(outputs, part))
}

fn column_item(
    alloc: Global,
    scope: &Scope<'_>,
    grouped: bool,
    place: usize,
    at: u32,
    kind: SqlType,
    outputs: Result<Outputs, BindFault>,
) -> Result<Outputs, BindFault>
    ensures { GoesOn (rules.column_item scope.now grouped place (record { place = at; kind = kind })) outputs result }
{
    let outputs = outputs?;
    let tree = Expr::Column { place: at, kind };
    let part = part_over(alloc, scope, tree, Some(place), Items::new(alloc))?;
    let part = covered(grouped, part)?;
    with_output(alloc, scope, None, outputs, part)
}

fn all_columns(
    alloc: Global,
    scope: &Scope<'_>,
    grouped: bool,
    place: usize,
    outputs: Outputs,
) -> Result<Outputs, BindFault>
    ensures { Gives (rules.star_item scope.now grouped place outputs) result }
{
    let columns = scope.columns();
    let mut shown = Ok(outputs);
    for at in 0..columns.len() {
        let column = &columns[at];
        shown = column_item(alloc, scope, grouped, place, at as u32, column.kind, shown);
    }
    shown
}

/// `*` at `place`.
pub fn star_item(
    alloc: Global,
    scope: &Scope<'_>,
    grouped: bool,
    place: usize,
    outputs: Result<Outputs, BindFault>,
) -> Result<Outputs, BindFault>
    ensures { GoesOn (rules.star_item scope.now grouped place) outputs result }
{
    all_columns(alloc, scope, grouped, place, outputs?)
}

fn is_of(column: &ScopeColumn, source: &[u8]) -> bool
    ensures { result ≡ rules.is_of_source source.now column.now }
{
    column.source.as_bytes() == source
}

fn is_source(source: &[u8], columns: &[ScopeColumn]) -> bool
    ensures { result ≡ rules.is_source source.now columns.now }
{
    for column in columns {
        if is_of(column, source) {
            return true;
        }
    }
    false
}

fn perhaps_item(
    alloc: Global,
    scope: &Scope<'_>,
    grouped: bool,
    place: usize,
    holds: bool,
    at: u32,
    kind: SqlType,
    outputs: Result<Outputs, BindFault>,
) -> Result<Outputs, BindFault>
    ensures { rules.GoesOnIf holds (rules.column_item scope.now grouped place (record { place = at; kind = kind })) outputs result }
{
    if !holds {
        return outputs;
    }
    column_item(alloc, scope, grouped, place, at, kind, outputs)
}

fn source_columns(
    alloc: Global,
    scope: &Scope<'_>,
    grouped: bool,
    place: usize,
    source: &[u8],
    outputs: Outputs,
) -> Result<Outputs, BindFault>
    ensures { Gives (rules.source_columns scope.now grouped place source.now outputs) result }
{
    let columns = scope.columns();
    let mut shown = Ok(outputs);
    for at in 0..columns.len() {
        let column = &columns[at];
        let holds = is_of(column, source);
        shown = perhaps_item(
            alloc,
            scope,
            grouped,
            place,
            holds,
            at as u32,
            column.kind,
            shown,
        );
    }
    shown
}

fn known_source(
    alloc: Global,
    scope: &Scope<'_>,
    grouped: bool,
    place: usize,
    source: &[u8],
    outputs: Outputs,
) -> Result<Outputs, BindFault>
    ensures { Gives (rules.known_source scope.now grouped place source.now outputs) result }
{
    if !is_source(source, scope.columns()) {
        return Err(BindFault::Refused {
            place,
            kind: RefusalKind::NoTable,
        });
    }
    source_columns(alloc, scope, grouped, place, source, outputs)
}

fn columns_of_source(
    alloc: Global,
    scope: &Scope<'_>,
    grouped: bool,
    source: Span,
    outputs: Outputs,
) -> Result<Outputs, BindFault>
    ensures { Gives (rules.source_item scope.now grouped source outputs) result }
{
    let name = small_name(alloc, scope, source)?;
    known_source(
        alloc,
        scope,
        grouped,
        source.start,
        name.as_bytes(),
        outputs,
    )
}

/// All columns of a source.
pub fn source_item(
    alloc: Global,
    scope: &Scope<'_>,
    grouped: bool,
    source: Span,
    outputs: Result<Outputs, BindFault>,
) -> Result<Outputs, BindFault>
    ensures { GoesOn (rules.source_item scope.now grouped source) outputs result }
{
    columns_of_source(alloc, scope, grouped, source, outputs?)
}
