//! Trees as texts: `(`, what the node is, its parts, `)`, with names and literals as the script has them.
use sql_parse::tree::{
    Argument, ChainSign, Column, ColumnName, CompareSign, Condition, Constant, CopyOption, Expr,
    Item, Join, Key, KeyColumn, Link, Literal, Operand, Rows, Script, Select, SetKind, SetOperand,
    Sizes, Source, Span, Statement,
};
use sqlite_items::Boxed;
use std::alloc::Global;
use std::fmt::Write;

/// A text that grows, and the script that names and literals are taken from.
#[derive(Drop)]
pub(crate) struct Page<'a> {
    script: &'a str,
    pub(crate) text: String,
    /// Whether nothing is missing for want of memory.
    pub(crate) is_whole: bool,
}

impl<'a> Page<'a> {
    pub(crate) fn new(alloc: Global, script: &'a str) -> Page<'a> {
        Page {
            script,
            text: String::new(alloc),
            is_whole: true,
        }
    }

    fn put(&mut self, text: &str) {
        if self.text.push_str(text).is_err() {
            self.is_whole = false;
        }
    }

    /// A word behind what is there.
    fn word(&mut self, text: &str) {
        if !self.text.is_empty() {
            self.put(" ");
        }
        self.put(text);
    }

    fn span(&mut self, span: Span) {
        match self.script.get(span.start..span.end) {
            Some(text) => self.word(text),
            None => self.word("?"),
        }
    }

    /// A place in the script.
    fn place(&mut self, place: usize) {
        self.word("@");
        if write!(self.text, "{place}").is_err() {
            self.is_whole = false;
        }
    }

    fn open(&mut self, what: &str) {
        self.word("(");
        self.put(what);
    }

    /// A test, with NOT where it is negated.
    fn open_test(&mut self, negated: bool, what: &str) {
        self.word("(");
        if negated {
            self.put("not-");
        }
        self.put(what);
    }

    fn close(&mut self) {
        self.put(")");
    }

    /// A node that begins with a name.
    fn open_named(&mut self, what: &str, name: Span) {
        self.open(what);
        self.span(name);
    }

    /// A node of one part.
    fn part(&mut self, what: &str, span: Span) {
        self.open_named(what, span);
        self.close();
    }

    fn literal(&mut self, literal: Literal) {
        match literal {
            Literal::Integer(span) => self.part("int", span),
            Literal::Decimal(span) => self.part("dec", span),
            Literal::Text(span) => self.part("text", span),
            Literal::True(_) => self.word("true"),
            Literal::False(_) => self.word("false"),
            Literal::Date(span) => self.part("date", span),
        }
    }

    fn constant(&mut self, constant: Constant) {
        if constant.minus.is_none() {
            self.literal(constant.literal);
            return;
        }
        self.open("minus");
        self.literal(constant.literal);
        self.close();
    }

    fn column_name(&mut self, name: ColumnName) {
        match name.source {
            Some(source) => {
                self.span(source);
                self.put(".");
                self.put(
                    self.script
                        .get(name.name.start..name.name.end)
                        .unwrap_or("?"),
                );
            }
            None => self.span(name.name),
        }
    }

    fn constants(&mut self, list: &[Constant]) {
        for constant in list {
            self.constant(*constant);
        }
    }

    fn column(&mut self, column: Column) {
        self.open_named("column", column.name);
        self.span(column.kind.name);
        if let Some(sizes) = column.kind.sizes {
            self.sizes(sizes);
        }
        if column.not_null {
            self.word("not-null");
        }
        self.close();
    }

    fn sizes(&mut self, sizes: Sizes) {
        self.span(sizes.first);
        if let Some(second) = sizes.second {
            self.span(second);
        }
    }

    fn option(&mut self, option: CopyOption) {
        match option {
            CopyOption::Header { value: true, .. } => self.word("header"),
            CopyOption::Header { value: false, .. } => self.word("no-header"),
            CopyOption::Delimiter { text, .. } => self.part("delimiter", text),
            CopyOption::Null { text, .. } => self.part("null", text),
        }
    }

    fn key(&mut self, key: Key) {
        if key.descending {
            self.open("desc");
        } else {
            self.open("asc");
        }
        match key.column {
            KeyColumn::Position(span) => self.part("item", span),
            KeyColumn::Name(name) => self.column_name(name),
        }
        self.close();
    }

    fn keys(&mut self, keys: &[Key]) {
        if keys.is_empty() {
            return;
        }
        self.open("order");
        for key in keys {
            self.key(*key);
        }
        self.close();
    }

    /// A node of one part, where it is there.
    fn optional(&mut self, what: &str, span: Option<Span>) {
        if let Some(span) = span {
            self.part(what, span);
        }
    }

    /// How rows are ordered and cut.
    fn window(&mut self, select: &Select) {
        self.keys(select.order.as_slice());
        self.optional("limit", select.limit);
        self.optional("offset", select.offset);
    }
}

fn link_word(sign: ChainSign) -> &'static str {
    match sign {
        ChainSign::Plus => "+",
        ChainSign::Minus => "-",
        ChainSign::Times => "*",
        ChainSign::Quotient => "//",
        ChainSign::Remainder => "%",
    }
}

fn compare_word(sign: CompareSign) -> &'static str {
    match sign {
        CompareSign::Equal => "=",
        CompareSign::Unequal => "<>",
        CompareSign::Less => "<",
        CompareSign::AtMost => "<=",
        CompareSign::Greater => ">",
        CompareSign::AtLeast => ">=",
    }
}

#[cycle(print)]
fn print_link(link: &Link, page: &mut Page<'_>) {
    page.open(link_word(link.sign));
    print_expr(link.right.get(), page);
    page.close();
}

#[cycle(print)]
fn print_operands(others: &[Operand], page: &mut Page<'_>) {
    for other in others {
        print_expr(other.right.get(), page);
    }
}

#[cycle(print)]
fn print_links(links: &[Link], page: &mut Page<'_>) {
    for link in links {
        print_link(link, page);
    }
}

#[cycle(print)]
fn print_argument(argument: &Argument, page: &mut Page<'_>) {
    match argument {
        Argument::Star => page.word("*"),
        Argument::Value(value) => print_expr(value.get(), page),
        Argument::Distinct(value) => {
            page.open("distinct");
            print_expr(value.get(), page);
            page.close();
        }
    }
}

#[cycle(print)]
fn print_expr(expr: &Expr, page: &mut Page<'_>) {
    match expr {
        Expr::Literal(literal) => page.literal(*literal),
        Expr::Column(name) => page.column_name(*name),
        Expr::Call { name, argument } => {
            page.open_named("call", *name);
            print_argument(argument, page);
            page.close();
        }
        Expr::Minus { operand, .. } => {
            page.open("minus");
            print_expr(operand.get(), page);
            page.close();
        }
        Expr::Not { operand, .. } => {
            page.open("not");
            print_expr(operand.get(), page);
            page.close();
        }
        Expr::Chain { first, links } => {
            page.open("chain");
            print_expr(first.get(), page);
            print_links(links.as_slice(), page);
            page.close();
        }
        Expr::Every { first, others } => {
            page.open("and");
            print_expr(first.get(), page);
            print_operands(others.as_slice(), page);
            page.close();
        }
        Expr::Either { first, others } => {
            page.open("or");
            print_expr(first.get(), page);
            print_operands(others.as_slice(), page);
            page.close();
        }
        Expr::Compare {
            sign,
            left,
            right,
            ..
        } => {
            page.open(compare_word(*sign));
            print_expr(left.get(), page);
            print_expr(right.get(), page);
            page.close();
        }
        Expr::IsNull {
            negated,
            operand,
            ..
        } => {
            page.open_test(*negated, "null");
            print_expr(operand.get(), page);
            page.close();
        }
        Expr::Like {
            negated,
            operand,
            pattern,
            ..
        } => {
            page.open_test(*negated, "like");
            print_expr(operand.get(), page);
            page.span(*pattern);
            page.close();
        }
        Expr::OneOf {
            negated,
            operand,
            list,
            ..
        } => {
            page.open_test(*negated, "in");
            print_expr(operand.get(), page);
            page.constants(list.as_slice());
            page.close();
        }
        Expr::Member {
            place,
            negated,
            operand,
            query,
        } => {
            page.open_test(*negated, "member");
            page.place(*place);
            print_expr(operand.get(), page);
            page.place(query.get().place);
            print_select(query.get(), page);
            page.close();
        }
        Expr::Between {
            negated,
            operand,
            low,
            high,
            ..
        } => {
            page.open_test(*negated, "between");
            print_expr(operand.get(), page);
            print_expr(low.get(), page);
            print_expr(high.get(), page);
            page.close();
        }
    }
}

#[cycle(print)]
fn print_condition(what: &str, condition: &Option<Condition>, page: &mut Page<'_>) {
    if let Some(condition) = condition {
        page.open(what);
        print_expr(condition.test.get(), page);
        page.close();
    }
}

#[cycle(print)]
fn print_grouping(group: &[Boxed<Expr>], page: &mut Page<'_>) {
    if group.is_empty() {
        return;
    }
    page.open("group");
    for key in group {
        print_expr(key.get(), page);
    }
    page.close();
}

#[cycle(print)]
fn print_item(item: &Item, page: &mut Page<'_>) {
    match item {
        Item::Star(_) => page.word("*"),
        Item::SourceStar(name) => page.part("all", *name),
        Item::Value { value, alias: None } => print_expr(value.get(), page),
        Item::Value {
            value,
            alias: Some(alias),
        } => {
            page.open_named("as", *alias);
            print_expr(value.get(), page);
            page.close();
        }
    }
}

#[cycle(print)]
fn print_items(items: &[Item], page: &mut Page<'_>) {
    page.open("items");
    for item in items {
        print_item(item, page);
    }
    page.close();
}

#[cycle(print)]
fn print_source(source: &Source, page: &mut Page<'_>) {
    match source {
        Source::Table { name, alias: None } => page.span(*name),
        Source::Table {
            name,
            alias: Some(alias),
        } => {
            page.open_named("as", *alias);
            page.span(*name);
            page.close();
        }
        Source::Query { query, alias, .. } => {
            page.open_named("as", *alias);
            print_select(query.get(), page);
            page.close();
        }
    }
}

#[cycle(print)]
fn print_join(join: &Join, page: &mut Page<'_>) {
    match join {
        Join::Cross(source) => {
            page.open("cross");
            print_source(source, page);
        }
        Join::On { outer, source, on } => {
            page.open(if *outer { "left" } else { "join" });
            print_source(source, page);
            print_expr(on.test.get(), page);
        }
    }
    page.close();
}

#[cycle(print)]
fn print_joins(joins: &[Join], page: &mut Page<'_>) {
    for join in joins {
        print_join(join, page);
    }
}

fn set_word(kind: SetKind, all: bool) -> &'static str {
    match (kind, all) {
        (SetKind::Union, false) => "union",
        (SetKind::Union, true) => "union-all",
        (SetKind::Except, false) => "except",
        (SetKind::Except, true) => "except-all",
        (SetKind::Intersect, false) => "intersect",
        (SetKind::Intersect, true) => "intersect-all",
    }
}

#[cycle(print)]
fn print_set_operands(others: &[SetOperand], page: &mut Page<'_>) {
    for other in others {
        page.open(set_word(other.kind, other.all));
        page.place(other.place);
        print_rows(other.right.get(), page);
        page.close();
        page.close();
    }
}

/// The rows of a select, whose last parenthesis is left out.
#[cycle(print)]
fn print_rows(rows: &Rows, page: &mut Page<'_>) {
    match rows {
        Rows::Core {
            distinct,
            items,
            first,
            joins,
            filter,
            group,
            having,
            ..
        } => {
            page.open(if *distinct { "distinct" } else { "select" });
            print_items(items.as_slice(), page);
            page.open("from");
            print_source(first, page);
            print_joins(joins.as_slice(), page);
            page.close();
            print_condition("where", filter, page);
            print_grouping(group.as_slice(), page);
            print_condition("having", having, page);
        }
        Rows::Sets { first, others } => {
            page.open("sets");
            print_rows(first.get(), page);
            page.close();
            print_set_operands(others.as_slice(), page);
        }
    }
}

#[cycle(print)]
fn print_select(select: &Select, page: &mut Page<'_>) {
    print_rows(select.rows.get(), page);
    page.window(select);
    page.close();
}

fn print_create(name: Span, columns: &[Column], page: &mut Page<'_>) {
    page.open_named("create", name);
    for column in columns {
        page.column(*column);
    }
    page.close();
}

fn print_copy(name: Span, file: Span, options: &[CopyOption], page: &mut Page<'_>) {
    page.open_named("copy", name);
    page.span(file);
    for option in options {
        page.option(*option);
    }
    page.close();
}

fn print_statement(statement: &Statement, page: &mut Page<'_>) {
    match statement {
        Statement::CreateTable { name, columns } => print_create(*name, columns.as_slice(), page),
        Statement::DropTable { name } => page.part("drop", *name),
        Statement::Copy {
            name,
            file,
            options,
        } => print_copy(*name, *file, options.as_slice(), page),
        Statement::Explain(select) => {
            page.open("explain");
            print_select(select.get(), page);
            page.close();
        }
        Statement::Select(select) => print_select(select.get(), page),
    }
}

/// The statements of a script, one behind another.
pub(crate) fn print_script(script: &Script, page: &mut Page<'_>) {
    for statement in script.statements.as_slice() {
        print_statement(statement, page);
    }
}
