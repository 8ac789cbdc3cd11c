//! The files of lanes, as a store of images.
ghost use Rattle.std.specs.Prelude.{◌<◌, None};

use crate::images::ImageStore;
use crate::place::Place;
use std::fs::{self, File, OpenOptions};
use std::os::unix::fs::FileExt;
use std::str;

/// How many lanes there are at most.
pub const MOST_LANES: u32 = 64;

// The file of another lane.
#[derive(Drop)]
struct OtherFile<F> {
    lane: u32,
    file: F,
}

/// The files `oocsql-spill-NN.tmp` of the current folder, with the lane's number NN. The file of the store's own lane is
/// made at its first write. Of the other lanes' files one at a time is open. Nothing is told of what the files hold.
#[derive(Drop)]
pub struct FileStore<'a, R: std::rt::Files> {
    rt: &'a R,
    lane: u32,
    own: Option<R::File>,
    other: Option<OtherFile<R::File>>,
}

impl<'a, R: std::rt::Files> FileStore<'a, R> {
    /// The store of a lane. It has no file yet.
    pub fn new_store(rt: &'a R, lane: u32) -> FileStore<'a, R>
        requires { lane < MOST_LANES }
    {
        FileStore {
            rt,
            lane,
            own: None,
            other: None,
        }
    }

    // Opens the file that another lane made, unless it is open.
    fn open_other(&mut self, lane: u32) {
        let is_open = match &self.other {
            Some(other) => other.lane == lane,
            None => false,
        };
        if !is_open {
            self.other = match other_file(self.rt, lane) {
                Some(file) => Some(OtherFile { lane, file }),
                None => None,
            };
        }
    }

    // The file of a lane, where it is open.
    fn file_of(&self, lane: u32) -> Option<&R::File> {
        if lane == self.lane {
            return self.own.as_ref();
        }
        match &self.other {
            Some(other) if other.lane == lane => Some(&other.file),
            _ => None,
        }
    }
}

impl<'a, R: std::rt::Files> ImageStore for FileStore<'a, R>
where
    R::File: FileExt,
{
    ghost images = { λ _. None };

    ghost number = { λ s. s.lane };

    fn lane(&self) -> u32 {
        self.lane
    }

    fn write(&mut self, place: Place, image: &[u8]) -> bool {
        if place.lane != self.lane {
            self.open_other(place.lane);
        } else if self.own.is_none() {
            self.own = make_file(self.rt, self.lane);
        }
        match (self.file_of(place.lane), offset_of(place, image.len())) {
            (Some(file), Some(offset)) => file.write_all_at(image, offset).is_ok(),
            _ => false,
        }
    }

    fn read(&mut self, place: Place, into: &mut [u8]) -> bool {
        if place.lane != self.lane {
            self.open_other(place.lane);
        }
        match (self.file_of(place.lane), offset_of(place, into.len())) {
            (Some(file), Some(offset)) => file.read_exact_at(into, offset).is_ok(),
            _ => false,
        }
    }

    fn remove_file(&self) {
        if self.own.is_some() {
            remove_file(self.rt, self.lane);
        }
    }
}

// Where the image at a place begins in its file.
fn offset_of(place: Place, length: usize) -> Option<u64> {
    place.number.checked_mul(length as u64)
}

// The name of a lane's file, with the lane's number in two digits.
fn file_name(lane: u32) -> Option<[u8; 19]> {
    if lane >= MOST_LANES {
        return None;
    }
    let mut name = *b"oocsql-spill-00.tmp";
    name[13] += (lane / 10) as u8;
    name[14] += (lane % 10) as u8;
    Some(name)
}

// Opens the file of a lane in this way.
fn open_file<R: std::rt::Files>(rt: &R, lane: u32, how: &OpenOptions) -> Option<R::File> {
    let name = file_name(lane)?;
    match str::from_utf8(&name) {
        Ok(name) => how.open(rt, name).ok(),
        Err(_) => None,
    }
}

// Makes the file of a lane, without bytes.
fn make_file<R: std::rt::Files>(rt: &R, lane: u32) -> Option<R::File> {
    let mut how = File::options();
    how.read(true).write(true).create(true).truncate(true);
    open_file(rt, lane, &how)
}

// Opens the file that another lane made.
fn other_file<R: std::rt::Files>(rt: &R, lane: u32) -> Option<R::File> {
    let mut how = File::options();
    how.read(true).write(true);
    open_file(rt, lane, &how)
}

// Removes the file of a lane, where there is one.
fn remove_file<R: std::rt::Files>(rt: &R, lane: u32) {
    if let Some(name) = file_name(lane) {
        if let Ok(name) = str::from_utf8(&name) {
            let _ = fs::remove_file(rt, name);
        }
    }
}
