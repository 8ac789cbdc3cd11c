//! COPY and its options.
ghost use Rattle.std.specs.Prelude.{◌≡◌, Ok};
ghost use Rattle.sql_scope.specs.Answer.{Gives, GoesOn, each};
ghost use Rattle.sql_clauses.specs.Copies as rules;

use crate::names::literal_text;
use crate::tables::known_table;
use bound_tree::Bound;
use ooc_types::{RefusalKind, Text};
use sql_grammar::tree::{CopyOption, Span};
use sql_scope::{BindFault, Scope};
use std::alloc::Global;

/// The options as far as they were written.
#[derive(Drop)]
pub struct CopyOptions {
    pub header: Option<bool>,
    pub delimiter: Option<u8>,
    pub null: Option<Text>,
}

/// The delimiter where none is written.
const DEFAULT_DELIMITER: u8 = b',';

fn no_options() -> CopyOptions
    ensures { result ≡ rules.no_options }
{
    CopyOptions {
        header: None,
        delimiter: None,
        null: None,
    }
}

fn is_delimiter(byte: u8) -> bool
    ensures { result ≡ rules.is_delimiter byte }
{
    byte < 128 && byte != b'"' && byte != b'\r' && byte != b'\n'
}

fn delimiter_of(text: &[u8]) -> Option<u8>
    ensures { result ≡ rules.delimiter_of text.now }
{
    match text {
        [byte] if is_delimiter(*byte) => Some(*byte),
        _ => None,
    }
}

fn bad_option(place: usize) -> BindFault
    ensures { result ≡ rules.bad_option_at place }
{
    BindFault::Refused {
        place,
        kind: RefusalKind::BadOption,
    }
}

fn with_header(place: usize, value: bool, options: CopyOptions) -> Result<CopyOptions, BindFault>
    ensures { Gives (rules.header_behind place value options) result }
{
    if options.header.is_some() {
        return Err(bad_option(place));
    }
    let mut options = options;
    options.header = Some(value);
    Ok(options)
}

fn with_delimiter(place: usize, text: Text, options: CopyOptions) -> Result<CopyOptions, BindFault>
    ensures { Gives (rules.delimiter_behind place text options) result }
{
    if options.delimiter.is_some() {
        return Err(bad_option(place));
    }
    match delimiter_of(text.as_bytes()) {
        Some(byte) => {
            let mut options = options;
            options.delimiter = Some(byte);
            Ok(options)
        }
        None => Err(bad_option(place)),
    }
}

fn with_null(place: usize, text: Text, options: CopyOptions) -> Result<CopyOptions, BindFault>
    ensures { Gives (rules.null_behind place text options) result }
{
    if options.null.is_some() {
        return Err(bad_option(place));
    }
    let mut options = options;
    options.null = Some(text);
    Ok(options)
}

fn option_behind(
    alloc: Global,
    scope: &Scope<'_>,
    written: CopyOption,
    options: Result<CopyOptions, BindFault>,
) -> Result<CopyOptions, BindFault>
    ensures { GoesOn (rules.option_behind scope.now written) options result }
{
    let options = options?;
    match written {
        CopyOption::Header { place, value } => with_header(place, value, options),
        CopyOption::Delimiter { place, text } => {
            let text = literal_text(alloc, scope, text)?;
            with_delimiter(place, text, options)
        }
        CopyOption::Null { place, text } => {
            let text = literal_text(alloc, scope, text)?;
            with_null(place, text, options)
        }
    }
}

fn all_options(
    alloc: Global,
    scope: &Scope<'_>,
    written: &[CopyOption],
) -> Result<CopyOptions, BindFault>
    ensures { Gives (each (rules.option_behind scope.now) (Ok rules.no_options) written.now) result }
{
    let mut options = Ok(no_options());
    for option in written {
        options = option_behind(alloc, scope, *option, options);
    }
    options
}

fn null_text(alloc: Global, null: Option<Text>) -> Text
    ensures { result ≡ rules.null_text null }
{
    match null {
        Some(text) => text,
        None => Text::from_vec(Vec::new(alloc)),
    }
}

fn copied(alloc: Global, name: Text, file: Text, options: CopyOptions) -> Bound
    ensures { result ≡ rules.copied name file options }
{
    let CopyOptions {
        header,
        delimiter,
        null,
    } = options;
    Bound::Copy {
        name,
        file,
        header: header.unwrap_or(true),
        delimiter: delimiter.unwrap_or(DEFAULT_DELIMITER),
        null: null_text(alloc, null),
    }
}

/// COPY.
pub fn copy_table(
    alloc: Global,
    scope: &Scope<'_>,
    name: Span,
    file: Span,
    options: &[CopyOption],
) -> Result<Bound, BindFault>
    ensures { Gives (rules.copy_table scope.now name file options.now) result }
{
    let table = known_table(alloc, scope, name)?;
    let options = all_options(alloc, scope, options)?;
    let file = literal_text(alloc, scope, file)?;
    Ok(copied(alloc, table, file, options))
}
