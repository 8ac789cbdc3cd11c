//! Reading a file to its end, in pieces.
ghost use Rattle.std.specs.Prelude.{◌≡◌, ◌<◌, ◌≤◌, ◌^◌, true, IfOk, IfErr, IfSome, Err, vec_len};
ghost use Rattle.std.specs.FinMap.{get};
ghost use Rattle.ooc_io.specs.Counts.{Rose};
ghost use Rattle.script_opening.specs.Limits.{most_script};
ghost use Rattle.script_opening.specs.Reading.{IsReadUpTo, IsScriptRead, IsOfFiles, result_items};

use crate::limits::MOST_SCRIPT;
use ooc_io::{Files, FilesFailed, OpenFault};
use ooc_types::RefusalKind;
use run_settings::{Place, Refusal, Status};
use std::alloc::{AllocError, Global};

/// How many bytes are asked for at a time.
const PIECE: usize = 65536;

/// Why a file wasn't read to its end.
#[derive(Clone, Copy, Debug, PartialEq, Eq)]
pub(crate) enum ReadFailure {
    Read,
    Memory,
}

impl From<AllocError> for ReadFailure {
    ghost use Rattle.script_opening.specs.declared.reading.ReadFailure.TheVariants.{Memory};

    ghost from_gives = { λ _ e. e ≡ Memory };

    fn from(_: AllocError) -> Self {
        ReadFailure::Memory
    }
}

impl From<FilesFailed> for ReadFailure {
    ghost use Rattle.script_opening.specs.declared.reading.ReadFailure.TheVariants.{Read};

    ghost from_gives = { λ _ e. e ≡ Read };

    fn from(_: FilesFailed) -> Self {
        ReadFailure::Read
    }
}

// So many bytes.
fn zeros(alloc: Global, count: usize) -> Result<Vec<u8>, AllocError>
    ensures { IfOk result (λ piece. vec_len piece ≡ count) }
{
    vec![in alloc; 0; count]
}

// The rest of the open file; or, of one with more than `most` bytes, a front that is longer than that.
fn read_up_to<F: Files>(alloc: Global, files: &mut F, most: usize) -> Result<Vec<u8>, ReadFailure>
    requires opened { F.is_open files.old ≡ true }
    requires few { most < 2 ^ 62 }
    ensures bytes { IfOk result (λ text. IfSome (F.left files.old) (λ bytes. IsReadUpTo most bytes text.items)) }
    ensures holds { F.holds files.new ≡ F.holds files.old }
    ensures later { F.faults files.old ≤ F.faults files.new }
    ensures cause { IfErr result (λ e. e ≡ ReadFailure.Read → Rose (F.faults files.old) (F.faults files.new)) }
{
    let mut piece = zeros(alloc, PIECE)?;
    let mut text = Vec::new(alloc);
    while text.len() <= most {
        let count = files.read(piece.as_mut_slice())?;
        if count == 0 {
            return Ok(text);
        }
        text.extend_from_slice(&piece[..count])?;
    }
    Ok(text)
}

fn refuse(kind: RefusalKind) -> Status
    ensures { result ≡ Status.Refused (record { statement = 0; place = Place.Whole; kind = kind }) }
{
    Status::Refused(Refusal {
        statement: 0,
        place: Place::Whole,
        kind,
    })
}

/// The bytes of the script of that name.
pub(crate) fn read_script<F: Files>(
    alloc: Global,
    files: &mut F,
    name: &str,
) -> Result<Vec<u8>, Status>
    ensures read { IfSome (F.holds files.old) (λ held. IsScriptRead (get held name.now) (result_items result)) }
    ensures short { IfOk result (λ text. vec_len text ≤ most_script) }
    ensures holds { F.holds files.new ≡ F.holds files.old }
    ensures later { F.faults files.old ≤ F.faults files.new }
    ensures cause { result ≡ Err Status.ReadFault → Rose (F.faults files.old) (F.faults files.new) }
    ensures kinds { IfErr result IsOfFiles }
{
    match files.open(name) {
        Ok(()) => match read_up_to(alloc, files, MOST_SCRIPT) {
            Ok(bytes) if bytes.len() > MOST_SCRIPT => Err(refuse(RefusalKind::ScriptTooLong)),
            Ok(bytes) => Ok(bytes),
            Err(ReadFailure::Read) => Err(Status::ReadFault),
            Err(ReadFailure::Memory) => Err(Status::OutOfMemory),
        },
        Err(OpenFault::Missing) => Err(refuse(RefusalKind::NoFile)),
        Err(OpenFault::Failed) => Err(Status::ReadFault),
    }
}
