//! Files in memory.
ghost use Rattle.std.specs.Prelude.{◌≡◌, ◌≤◌, ◌<◌, ◌↔◌, Some, None, IfOk, OnErr, IfSome, is_err, IsErr, IsErrOf, MatchOption, map, take, length, min, true, false, is_ok};
ghost use Rattle.std.specs.FinMap.{get};
ghost use Rattle.std.specs.Io.KnownBytes.{ReadConsumes};
ghost use Rattle.ooc_io.specs.Counts.{HasCause, faults_after};
ghost use Rattle.ooc_io.specs.Opens.{Opens, HasOpenCause, is_failure};
ghost use Rattle.ooc_io.specs.Calls.{FailsNext, called};
ghost use Rattle.ooc_io.specs.MemForms.{held_in};
ghost use Rattle.ooc_io.specs.MemFiles.{entry_of, held_by, bytes_at};
ghost use Rattle.ooc_io.specs.declared.fault.OpenFault.TheVariants.{Failed};

use crate::calls::Calls;
use crate::fault::{FilesFailed, OpenFault};
use crate::files::Files;
use std::marker::Model;

/// Files by name, whose listed calls fail. Of two with one name the first counts.
#[derive(Drop)]
pub struct MemFiles {
    files: Vec<(String, Vec<u8>)>,
    opened: bool,
    file: usize,
    at: usize,
    faults: u64,
    calls: Calls,
}

impl Model for MemFiles {
    ghost use Rattle.std.specs.Prelude.{map, drop};
    ghost use Rattle.ooc_io.specs.MemForms.{FilesState};
    ghost use Rattle.ooc_io.specs.MemFiles.{entry_of, bytes_at};

    ghost Value = { FilesState };

    ghost view = { λ f. record { named = map entry_of f.files.items; opened = f.opened; left = drop f.at (bytes_at f.files.items f.file); faults = f.faults; calls = f.calls } };
}

// The place of the first file of that name.
fn place_of(files: &[(String, Vec<u8>)], name: &str) -> Option<usize>
    ensures within { IfSome result (λ i. i < length files.now) }
    ensures first { MatchOption result (get (held_by files.now) name.now ≡ None)
        (λ i. get (held_by files.now) name.now ≡ Some (bytes_at files.now i)) }
{
    for (i, file) in files.iter().enumerate() {
        if name == file.0.as_str() {
            return Some(i);
        }
    }
    None
}

// The bytes of the file at a place.
fn bytes_of(files: &[(String, Vec<u8>)], file: usize) -> &[u8]
    ensures { result.now ≡ bytes_at files.now file }
{
    match files.get(file) {
        Some(file) => file.1.as_slice(),
        None => &[],
    }
}

// Copies as many of the bytes as fit, and answers their number.
fn copy_some(from: &[u8], into: &mut [u8]) -> usize
    ensures count { result ≡ min (length from.now) (length into.old) }
    ensures bytes { take result into.new ≡ take result from.now }
{
    let count = from.len().min(into.len());
    into[..count].copy_from_slice(&from[..count]);
    count
}

impl MemFiles {
    /// Files with these names and bytes. `failing` has the numbers, from 1, of the calls that are to fail.
    pub fn new_files(named: Vec<(String, Vec<u8>)>, failing: Vec<u64>) -> MemFiles
        ensures named { result.named ≡ map entry_of named.items }
        ensures closed { result.opened ≡ false }
        ensures faults { result.faults ≡ 0 }
        ensures calls { result.calls ≡ record { failing = failing.items; count = 0 } }
    {
        MemFiles {
            files: named,
            opened: false,
            file: 0,
            at: 0,
            faults: 0,
            calls: Calls::new_calls(failing),
        }
    }

    /// How often a call failed.
    pub fn fault_count(&self) -> u64
        ensures { result ≡ self.now.faults }
    {
        self.faults
    }
}

impl Files for MemFiles {
    ghost holds = { λ f. Some (held_in f) };

    ghost is_open = { λ f. f.opened };

    ghost left = { λ f. Some f.left };

    ghost faults = { λ f. f.faults };

    // A name that isn't held is missing, also where the call is listed. Else the listed calls fail, and no others.
    fn open(&mut self, name: &str) -> Result<(), OpenFault>
        ensures holds { Some (held_in self.new) ≡ Some (held_in self.old) }
        ensures named { self.new.named ≡ self.old.named }
        ensures opened { self.new.opened ≡ is_ok result }
        ensures told { Opens (Some (held_in self.old)) name.now result (Some self.new.left) }
        ensures cause { HasOpenCause self.old.faults self.new.faults result }
        ensures faults { self.new.faults ≡ faults_after (is_failure result) self.old.faults }
        ensures failed { IsErrOf result Failed → FailsNext self.old.calls }
        ensures listed { FailsNext self.old.calls → IsErr result }
        ensures counted { self.new.calls ≡ called self.old.calls }
    {
        let failing = self.calls.fails();
        self.opened = false;
        match place_of(&self.files, name) {
            None => Err(OpenFault::Missing),
            Some(place) => {
                if failing {
                    self.faults = self.faults.saturating_add(1);
                    return Err(OpenFault::Failed);
                }
                self.opened = true;
                self.file = place;
                self.at = 0;
                Ok(())
            }
        }
    }

    // The listed calls fail, and no others. A read gives all that is left and fits, and a failed one leaves the piece.
    fn read(&mut self, piece: &mut [u8]) -> Result<usize, FilesFailed>
        requires opened { self.old.opened ≡ true }
        requires room { 0 < length piece.old }
        ensures holds { Some (held_in self.new) ≡ Some (held_in self.old) }
        ensures named { self.new.named ≡ self.old.named }
        ensures opened { self.new.opened ≡ true }
        ensures bound { IfOk result (λ n. n ≤ length piece.new) }
        ensures bytes { ReadConsumes (Some self.old.left) (Some self.new.left) result piece.new }
        ensures cause { HasCause self.old.faults self.new.faults result }
        ensures faults { self.new.faults ≡ faults_after (is_err result) self.old.faults }
        ensures listed { IsErr result ↔ FailsNext self.old.calls }
        ensures counted { self.new.calls ≡ called self.old.calls }
        ensures most { IfOk result (λ n. n ≡ min (length self.old.left) (length piece.old)) }
        ensures refused { OnErr result (self.new.left ≡ self.old.left) }
        ensures untouched { OnErr result (piece.new ≡ piece.old) }
    {
        if self.calls.fails() {
            self.faults = self.faults.saturating_add(1);
            return Err(FilesFailed);
        }
        let bytes = bytes_of(&self.files, self.file);
        let start = self.at.min(bytes.len());
        let count = copy_some(&bytes[start..], piece);
        self.at = start + count;
        Ok(count)
    }
}
