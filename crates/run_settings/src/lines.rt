//! The line that a run ends with.
ghost use Rattle.std.specs.Prelude.{◌≡◌, ◌++◌, IfOk, OnOk, OnErr, string_bytes};
ghost use Rattle.run_settings.specs.Lines.{kind_text, subject_text, place_text, refusal_line, usage_line, field_text, damage_line, line_of};

use crate::status::{Place, Refusal, Status, UsageFault};
use ooc_types::{OutOfMemory, RefusalKind};
use row_image::{Damage, DamageField};
use std::alloc::{AllocError, Global};

/// The line of want of memory, which is written without memory.
pub const OUT_OF_MEMORY_LINE: &str = "error: out of memory\n";

fn kind_text(kind: RefusalKind) -> &'static str
    ensures { result.now ≡ kind_text kind }
{
    match kind {
        RefusalKind::BadToken => "bad token",
        RefusalKind::Syntax => "syntax",
        RefusalKind::TooDeep => "too deep",
        RefusalKind::ScriptTooLong => "too long",
        RefusalKind::NoFile => "no file",
        RefusalKind::NoTable => "no table",
        RefusalKind::TableExists => "table exists",
        RefusalKind::NoColumn => "no column",
        RefusalKind::Ambiguous => "ambiguous",
        RefusalKind::DuplicateName => "duplicate name",
        RefusalKind::NoType => "no type",
        RefusalKind::NoFunction => "no function",
        RefusalKind::TypeMismatch => "type mismatch",
        RefusalKind::AggregateHere => "aggregate here",
        RefusalKind::NotGrouped => "not grouped",
        RefusalKind::SumTooWide => "sum too wide",
        RefusalKind::DecimalTooWide => "decimal too wide",
        RefusalKind::TooManyColumns => "too many columns",
        RefusalKind::TooManyTables => "too many tables",
        RefusalKind::BadOption => "bad option",
        RefusalKind::BadPosition => "bad position",
        RefusalKind::ColumnCount => "column count",
        RefusalKind::InHere => "in here",
        RefusalKind::DistinctMix => "distinct mix",
        RefusalKind::BadDate => "bad date",
        RefusalKind::NotInSession => "not in session",
        RefusalKind::TextTooLong => "text too long",
        RefusalKind::FileTooLong => "file too long",
        RefusalKind::RecordTooLong => "record too long",
        RefusalKind::OpenQuote => "open quote",
        RefusalKind::FieldCount => "field count",
        RefusalKind::NullRefused => "null refused",
        RefusalKind::BadUtf8 => "bad utf8",
        RefusalKind::BadValue => "bad value",
        RefusalKind::Overflow => "overflow",
        RefusalKind::CountOverflow => "count overflow",
        RefusalKind::ResultTooLarge => "result too large",
        RefusalKind::NotBuilt => "not built",
    }
}

fn subject_text(alloc: Global, statement: u32) -> Result<String, AllocError>
    ensures { IfOk result (λ text. string_bytes text ≡ subject_text statement) }
{
    if statement == 0 {
        format!(in alloc; "script")
    } else {
        format!(in alloc; "statement {statement}")
    }
}

fn place_text(alloc: Global, place: Place) -> Result<String, AllocError>
    ensures { IfOk result (λ text. string_bytes text ≡ place_text place) }
{
    match place {
        Place::Whole => Ok(String::new(alloc)),
        Place::Byte(at) => format!(in alloc; " at {at}"),
        Place::Record { number, column } => format!(in alloc; " record {number} column {column}"),
    }
}

fn refusal_line(alloc: Global, refusal: Refusal) -> Result<String, AllocError>
    ensures { IfOk result (λ text. string_bytes text ≡ refusal_line refusal) }
{
    let subject = subject_text(alloc, refusal.statement)?;
    let place = place_text(alloc, refusal.place)?;
    let kind = kind_text(refusal.kind);
    format!(in alloc; "error: {subject}{place}: {kind}\n")
}

fn usage_line(alloc: Global, fault: UsageFault) -> Result<String, AllocError>
    ensures { IfOk result (λ text. string_bytes text ≡ usage_line fault) }
{
    match fault {
        UsageFault::Words => format!(in alloc;
            "usage: oocsql [--threads N] [--limit BYTES] [--page BYTES] SCRIPT\n"
        ),
        UsageFault::TooFewFrames { frames } => {
            format!(in alloc; "usage: {frames} frames, 24 needed\n")
        }
        UsageFault::TooManyFrames { frames } => {
            format!(in alloc; "usage: {frames} frames, at most 16777216\n")
        }
    }
}

fn field_text(field: DamageField) -> &'static str
    ensures { result.now ≡ field_text field }
{
    match field {
        DamageField::Kind => "Kind",
        DamageField::Width => "Width",
        DamageField::Rows => "Rows",
        DamageField::Parts => "Parts",
        DamageField::PartFirst => "PartFirst",
        DamageField::PartRows => "PartRows",
        DamageField::PartBase => "PartBase",
        DamageField::CellBit => "CellBit",
        DamageField::CellLength => "CellLength",
        DamageField::CellPad => "CellPad",
        DamageField::CellAddress => "CellAddress",
        DamageField::HeapUsed => "HeapUsed",
    }
}

fn damage_line(alloc: Global, damage: Damage) -> Result<String, AllocError>
    ensures { IfOk result (λ text. string_bytes text ≡ damage_line damage) }
{
    let field = field_text(damage.field);
    let found = damage.found;
    let bound = damage.bound;
    format!(in alloc; "error: spill damaged: {field} found {found} bound {bound}\n")
}

fn line_text(alloc: Global, status: Status) -> Result<String, AllocError>
    ensures { IfOk result (λ text. string_bytes text ≡ line_of status) }
{
    match status {
        Status::Done => Ok(String::new(alloc)),
        Status::Refused(refusal) => refusal_line(alloc, refusal),
        Status::Usage(fault) => usage_line(alloc, fault),
        Status::ReadFault => format!(in alloc; "error: read fault\n"),
        Status::WriteFault => Ok(String::new(alloc)),
        Status::SpillFault => format!(in alloc; "error: spill fault\n"),
        Status::SpillDamaged(damage) => damage_line(alloc, damage),
        Status::OutOfMemory => format!(in alloc; "{OUT_OF_MEMORY_LINE}"),
    }
}

/// Appends the line of a status, with its line feed; nothing for a run that is done, or whose
/// output failed. After a refusal `into` is as before.
pub fn append_line(status: Status, into: &mut Vec<u8>) -> Result<(), OutOfMemory>
    ensures ok { OnOk result (into.new.items ≡ into.old.items ++ line_of status) }
    ensures err { OnErr result (into.new.items ≡ into.old.items) }
{
    let line = line_text(*into.allocator(), status)?;
    into.extend_from_slice(line.as_bytes())?;
    Ok(())
}
