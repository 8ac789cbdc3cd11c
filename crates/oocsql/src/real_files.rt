//! The real files.
ghost use Rattle.std.specs.Prelude.{◌≡◌, ◌≤◌, ◌<◌, None, Err, IfOk, true, false, is_ok, is_err, length};
ghost use Rattle.std.specs.IoError.{error_kind};
ghost use Rattle.std.specs.Io.KnownBytes.{ReadConsumes};
ghost use Rattle.ooc_io.specs.Counts.{HasCause, faults_after};
ghost use Rattle.ooc_io.specs.Opens.{HasOpenCause, is_failure};
ghost use Rattle.oocsql.specs.Real.{open_fault};

use ooc_io::{Files, FilesFailed, OpenFault};
use std::fs;
use std::io::{Error, ErrorKind, Read};
use std::marker::Model;

/// The files of the system, by paths that are relative to the current folder. They tell no content.
#[derive(Drop)]
pub struct RealFiles<'a, R: std::rt::Files> {
    rt: &'a R,
    file: Option<R::File>,
    faults: u64,
}

impl<'a, R: std::rt::Files> Model for RealFiles<'a, R> {
    ghost use Rattle.std.specs.Prelude.{is_some};
    ghost use Rattle.oocsql.specs.Real.{RealState};

    ghost Value = { RealState };

    ghost view = { λ f. record { opened = is_some f.file; faults = f.faults } };
}

impl<'a, R: std::rt::Files> RealFiles<'a, R> {
    /// Files of which none is open.
    pub fn new_files(rt: &'a R) -> RealFiles<'a, R>
        ensures { result ≡ record { opened = false; faults = 0 } }
    {
        RealFiles {
            rt,
            file: None,
            faults: 0,
        }
    }

    /// How often a call failed.
    pub fn fault_count(&self) -> u64
        ensures { result ≡ self.now.faults }
    {
        self.faults
    }

    // Refuses to open, and counts it unless the file is missing.
    fn refuse(&mut self, fault: OpenFault) -> Result<(), OpenFault>
        ensures is { result ≡ Err fault }
        ensures opened { self.new.opened ≡ self.old.opened }
        ensures cause { HasOpenCause self.old.faults self.new.faults result }
        ensures faults { self.new.faults ≡ faults_after (is_failure result) self.old.faults }
    {
        match fault {
            OpenFault::Missing => Err(OpenFault::Missing),
            OpenFault::Failed => {
                self.faults = self.faults.saturating_add(1);
                Err(OpenFault::Failed)
            }
        }
    }
}

// A file is missing where the system says that it isn't found, and nowhere else.
fn open_fault(error: &Error) -> OpenFault
    ensures { result ≡ open_fault (error_kind error.now) }
{
    match error.kind() {
        ErrorKind::NotFound => OpenFault::Missing,
        _ => OpenFault::Failed,
    }
}

// Reads some bytes, again where a signal interrupts the call.
fn read_some<F: Read>(file: &mut F, piece: &mut [u8]) -> Result<usize, Error>
    ensures bound { IfOk result (λ n. n ≤ length piece.new) }
{
    for _ in 0..u64::MAX {
        match file.read(piece) {
            Err(error) if error.kind() == ErrorKind::Interrupted => {}
            result => return result,
        }
    }
    Err(Error::from(ErrorKind::TimedOut))
}

impl<'a, R: std::rt::Files> Files for RealFiles<'a, R> {
    ghost holds = { λ f. None };

    ghost is_open = { λ f. f.opened };

    ghost left = { λ f. None };

    ghost faults = { λ f. f.faults };

    // A failure raises the count, and nothing else does.
    fn open(&mut self, name: &str) -> Result<(), OpenFault>
        ensures opened { self.new.opened ≡ is_ok result }
        ensures cause { HasOpenCause self.old.faults self.new.faults result }
        ensures faults { self.new.faults ≡ faults_after (is_failure result) self.old.faults }
    {
        self.file = None;
        match fs::open(self.rt, name) {
            Ok(file) => {
                self.file = Some(file);
                Ok(())
            }
            Err(error) => self.refuse(open_fault(&error)),
        }
    }

    fn read(&mut self, piece: &mut [u8]) -> Result<usize, FilesFailed>
        requires opened { self.old.opened ≡ true }
        requires room { 0 < length piece.old }
        ensures opened { self.new.opened ≡ true }
        ensures bound { IfOk result (λ n. n ≤ length piece.new) }
        ensures bytes { ReadConsumes None None result piece.new }
        ensures cause { HasCause self.old.faults self.new.faults result }
        ensures faults { self.new.faults ≡ faults_after (is_err result) self.old.faults }
    {
        if let Some(file) = &mut self.file {
            if let Ok(count) = read_some(file, piece) {
                return Ok(count);
            }
        }
        self.faults = self.faults.saturating_add(1);
        Err(FilesFailed)
    }
}
