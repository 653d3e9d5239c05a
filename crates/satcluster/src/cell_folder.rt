//! The folder of a cell: `sharing::Folder` and `weaving::CellLogs` over the operating system.

ghost use Rattle.std.specs.Prelude.{◌≤◌, length, IfOk};

use crate::drafts::not_written;
use crate::files::no_memory;
use crate::proof_file::is_same_file;
use commands::{print, refused};
use node_main::Refusal;
use shared_lines::is_name;
use sharing::{Folder, Teller};
use std::alloc::{AllocError, Global};
use std::fs::{File, OpenFile};
use std::io::{Read, Seek, SeekFrom, Write};
use std::rt::Runtime;
use std::{fs, io};
use weaving::{CellLogs, LogSource};

/// What the name of a worker's log ends with.
const LOG: &str = ".log";

/// What the name of a worker's offers ends with.
const OFFERS: &str = ".out";

/// The file that has the system's random bytes.
const RANDOM: &str = "/dev/urandom";

/// How many random bytes a name is made of.
const NAME: usize = 16;

/// The most bytes of a worker's offers that are read at a time.
const PIECE: usize = 1 << 20;

/// The hexadecimal digits.
const DIGITS: &[u8] = b"0123456789abcdef";

/// Fills a room with random bytes of the system.
pub(crate) fn fill_random<R: Runtime>(rt: &R, room: &mut [u8]) -> Result<(), Refusal> {
    let mut file = File::open(rt, RANDOM).map_err(not_written)?;
    file.read_exact(room).map_err(not_written)
}

/// A new name of a worker.
fn new_name<R: Runtime + AllocGlobal>(rt: &R) -> Result<String, Refusal> {
    let mut room = [0u8; NAME];
    fill_random(rt, &mut room)?;
    let mut name = String::new(rt.alloc());
    for byte in room {
        name.push(char::from(DIGITS[byte as usize / 16]))
            .map_err(no_memory)?;
        name.push(char::from(DIGITS[byte as usize % 16]))
            .map_err(no_memory)?;
    }
    Ok(name)
}

/// The path of a file of a cell.
fn path_in(alloc: Global, folder: &str, name: &str, ending: &str) -> Result<String, AllocError> {
    format!(in alloc; "{folder}/{name}{ending}")
}

/// The names of the files in a folder that end so, without that ending, unless they are no names of workers.
fn names_in<R: Runtime + AllocGlobal>(
    rt: &R,
    folder: &str,
    ending: &str,
) -> io::Result<Vec<String>> {
    let mut names = Vec::new(rt.alloc());
    for entry in fs::read_dir(rt, folder)? {
        let Ok(entry) = entry else {
            continue; // its name is not UTF-8, or the folder was changed meanwhile
        };
        if let Some(name) = entry.file_name().strip_suffix(ending) {
            if is_name(name.as_bytes()) {
                names.push(String::from_str(rt.alloc(), name)?)?;
            }
        }
    }
    Ok(names)
}

/// The two files of a worker, to which it appends.
#[derive(Drop)]
struct OwnFiles<F> {
    log: F,
    offers: F,
}

/// The folder of a cell, as one of its workers sees it. The worker's files are made when it writes for the first time.
pub(crate) struct CellFolder<'a, R: Runtime> {
    rt: &'a R,
    path: &'a str,
    /// The name of the worker.
    name: String,
    /// The names of the others, in the order in which they were found.
    others: Vec<String>,
    files: Option<OwnFiles<R::File>>,
}

impl<R: Runtime> Drop for CellFolder<'_, R> {
    fn drop(self) {
        let CellFolder {
            rt: _,
            path: _,
            name: _,
            others: _,
            files: _,
        } = self;
    }
}

/// Creates a file that is not there yet, to append to it.
fn create<R: Runtime + AllocGlobal>(
    rt: &R,
    folder: &str,
    name: &str,
    ending: &str,
) -> Result<R::File, Refusal> {
    let path = path_in(rt.alloc(), folder, name, ending).map_err(no_memory)?;
    File::create_new(rt, path.as_str()).map_err(not_written)
}

impl<'a, R: Runtime + AllocGlobal> CellFolder<'a, R> {
    /// The folder at a path for a new worker.
    pub(crate) fn of(rt: &'a R, path: &'a str) -> Result<CellFolder<'a, R>, Refusal> {
        Ok(CellFolder {
            rt,
            path,
            name: new_name(rt)?,
            others: Vec::new(rt.alloc()),
            files: None,
        })
    }

    /// Makes the worker's files, and the folder, if they are not there yet.
    fn make(&mut self) -> Result<(), Refusal> {
        if self.files.is_some() {
            return Ok(());
        }
        let _ = fs::create_dir(self.rt, self.path); // it may be there
        let log = create(self.rt, self.path, self.name.as_str(), LOG)?;
        let offers = create(self.rt, self.path, self.name.as_str(), OFFERS)?;
        self.files = Some(OwnFiles { log, offers });
        Ok(())
    }

    /// Whether a name is that of this worker, or of one that was found.
    fn is_known(&self, name: &str) -> bool {
        name == self.name.as_str() || self.others.iter().any(|other| other.as_str() == name)
    }

    /// Looks for workers that were not found yet. A folder that is not there has none.
    fn look(&mut self) -> Result<(), Refusal> {
        let names = match names_in(self.rt, self.path, OFFERS) {
            Ok(names) => names,
            Err(error) => {
                return match refused(error, Refusal::Writing) {
                    Refusal::NoMemory => Err(Refusal::NoMemory),
                    _ => Ok(()),
                };
            }
        };
        for name in names {
            if !self.is_known(name.as_str()) {
                self.others.push(name).map_err(no_memory)?;
            }
        }
        Ok(())
    }
}

/// Appends to `room` what a regular file has behind its first `from` bytes, `PIECE` bytes at most.
fn read_behind<R: Runtime>(rt: &R, path: &str, from: u64, room: &mut Vec<u8>) -> io::Result<()> {
    let found = fs::metadata(rt, path)?;
    let end = found.len();
    if !found.is_file() || end <= from {
        return Ok(());
    }
    let mut file = File::open(rt, path)?;
    file.seek(SeekFrom::Start(from))?;
    let len = (end - from).min(PIECE as u64) as usize;
    let begin = room.len();
    room.resize(begin.saturating_add(len), 0)?;
    let count = file.read(&mut room[begin..])?;
    room.truncate(begin.saturating_add(count));
    Ok(())
}

impl<R: Runtime + AllocGlobal> Folder for CellFolder<'_, R> {
    /// Looks into the folder, unless a worker waits that was found before.
    fn find(&mut self, known: usize, name: &mut Vec<u8>) -> Result<bool, Refusal> {
        if known >= self.others.len() {
            self.look()?;
        }
        match self.others.get(known) {
            Some(other) => {
                name.extend_from_slice(other.as_bytes()).map_err(no_memory)?;
                Ok(true)
            }
            None => Ok(false),
        }
    }

    /// Reads the offers of another worker; a file that cannot be read has none for now.
    fn read(&mut self, peer: usize, from: u64, room: &mut Vec<u8>) -> Result<(), Refusal> {
        let Some(name) = self.others.get(peer) else {
            return Ok(());
        };
        let alloc = self.rt.alloc();
        let path = path_in(alloc, self.path, name.as_str(), OFFERS).map_err(no_memory)?;
        let begin = room.len();
        match read_behind(self.rt, path.as_str(), from, room) {
            Ok(()) => Ok(()),
            Err(error) => {
                room.truncate(begin);
                match refused(error, Refusal::Writing) {
                    Refusal::NoMemory => Err(Refusal::NoMemory),
                    _ => Ok(()),
                }
            }
        }
    }

    /// Appends bytes to the worker's log. The file has no buffer: what is written is there if the program is killed.
    fn log(&mut self, bytes: &[u8]) -> Result<(), Refusal> {
        self.make()?;
        match &mut self.files {
            Some(files) => files.log.write_all(bytes).map_err(not_written),
            None => Err(Refusal::Writing),
        }
    }

    /// Appends bytes to the worker's offers.
    fn offer(&mut self, bytes: &[u8]) -> Result<(), Refusal> {
        self.make()?;
        match &mut self.files {
            Some(files) => files.offers.write_all(bytes).map_err(not_written),
            None => Err(Refusal::Writing),
        }
    }
}

/// Standard output, on which closed leaves are told.
#[derive(Drop)]
pub(crate) struct Printed<'a, R> {
    pub(crate) rt: &'a R,
}

impl<R: Runtime> Teller for Printed<'_, R> {
    /// Prints lines, and flushes.
    fn tell(&mut self, lines: &[u8]) -> Result<(), Refusal> {
        print(&mut io::writer(self.rt), lines).map_err(not_written)
    }
}

/// A log of a cell that was opened.
#[derive(Drop)]
pub(crate) struct LogFile<F> {
    file: F,
}

impl<F: Read> LogSource for LogFile<F> {
    /// Reads bytes of the file.
    fn read(&mut self, room: &mut [u8]) -> Result<usize, Refusal> {
        match self.file.read(room) {
            Ok(count) => Ok(count),
            Err(error) => Err(refused(error, Refusal::Proof)),
        }
    }
}

/// The logs of a cell in a folder, by their names.
pub(crate) struct FolderLogs<'a, R> {
    rt: &'a R,
    path: &'a str,
    names: Vec<String>,
}

impl<R> Drop for FolderLogs<'_, R> {
    fn drop(self) {
        let FolderLogs {
            rt: _,
            path: _,
            names: _,
        } = self;
    }
}

impl<'a, R: Runtime + AllocGlobal> FolderLogs<'a, R> {
    /// The logs in the folder at a path, in the order of their names.
    pub(crate) fn of(rt: &'a R, path: &'a str) -> Result<FolderLogs<'a, R>, Refusal> {
        let mut names = names_in(rt, path, LOG).map_err(|error| refused(error, Refusal::Proof))?;
        names.sort().map_err(no_memory)?;
        Ok(FolderLogs { rt, path, names })
    }

    /// The path of a log.
    fn path_of(&self, log: usize) -> Result<String, Refusal> {
        match self.names.get(log) {
            Some(name) => {
                path_in(self.rt.alloc(), self.path, name.as_str(), LOG).map_err(no_memory)
            }
            None => Err(Refusal::Proof),
        }
    }

    /// Whether a path leads to one of the logs.
    pub(crate) fn has(&self, path: &str) -> Result<bool, Refusal> {
        for log in 0..self.names.len() {
            if is_same_file(self.rt, path, self.path_of(log)?.as_str()) {
                return Ok(true);
            }
        }
        Ok(false)
    }
}

impl<R: Runtime + AllocGlobal> CellLogs for FolderLogs<'_, R> {
    type Source = LogFile<R::File>;

    /// How many logs there are.
    fn count(&self) -> usize {
        self.names.len()
    }

    /// The name of a log.
    fn name(&self, log: usize) -> &[u8] {
        match self.names.get(log) {
            Some(name) => name.as_bytes(),
            None => b"",
        }
    }

    /// Opens a log.
    fn open(&self, log: usize) -> Result<LogFile<R::File>, Refusal> {
        let path = self.path_of(log)?;
        match File::open(self.rt, path.as_str()) {
            Ok(file) => Ok(LogFile { file }),
            Err(error) => Err(refused(error, Refusal::Proof)),
        }
    }
}
