//! Files in memory.

ghost use Rattle.std.specs.Prelude.{◌≡◌, ℕ, ◌+◌, ◌<◌, ◌≤◌, ◌^◌, ◌↔◌, ◌++◌, ◌∷◌, [], length, find, position, Contains, Some, None, IsTrue, IsOk, IfOk, OnOk, OnErr};
ghost use Rattle.std.specs.Option.{option_copied};
ghost use Rattle.std.specs.Result.{IsErrOf};
ghost use Rattle.ac_io.specs.Contents.{SameContents};
ghost use Rattle.ac_io.specs.StoredFile.{has_name, bytes_of, room_of};
ghost use Rattle.ac_io.specs.FilesInMemory.{contents_of, spare_of, SameOtherFiles, IsToFail, IsLoadAnswer, LoadLeaves, IsSaveAnswer, SaveCounts};
ghost use Rattle.ac_io.specs.StoredFiles.{SameOthers, SameBytes};

use crate::files::{Files, LoadFault, SaveFault};
use crate::stored_file::StoredFile;
use std::alloc::{AllocError, Global};
use std::marker::Model;

/// Files in memory, which tell their contents and fail where they are asked to.
#[derive(Drop)]
pub struct MemFiles {
    alloc: Global,
    files: Vec<StoredFile>,
    failing: Vec<u64>,
    calls: u64,
    failed_loads: u64,
    failed_saves: u64,
}

impl Model for MemFiles {
    ghost use Rattle.ac_io.specs.FilesInMemory.{FilesInMemory};

    ghost Value = { FilesInMemory };

    ghost view = { λ m. record { files = m.files.items; failing = m.failing.items; calls = m.calls; failed_loads = m.failed_loads; failed_saves = m.failed_saves } };
}

impl MemFiles {
    /// No names and no faults.
    pub fn new(alloc: Global) -> MemFiles
        ensures files { result.files ≡ [] }
        ensures failing { result.failing ≡ [] }
        ensures calls { result.calls ≡ 0 }
        ensures failed_loads { result.failed_loads ≡ 0 }
        ensures failed_saves { result.failed_saves ≡ 0 }
    {
        MemFiles {
            alloc,
            files: Vec::new(alloc),
            failing: Vec::new(alloc),
            calls: 0,
            failed_loads: 0,
            failed_saves: 0,
        }
    }

    /// Gives a name these bytes. It is no call of a load or a save, and never fails but for want of memory.
    pub fn add(&mut self, name: &str, bytes: &[u8]) -> Result<(), AllocError>
        ensures ok { OnOk result (contents_of self.new name.now ≡ Some bytes.now) }
        ensures others { SameOtherFiles name.now self.old self.new }
        ensures err { OnErr result (SameContents (contents_of self.old) (contents_of self.new)) }
        ensures rest { self.new ≡ record self.old { files = self.new.files } }
    {
        store(self.alloc, &mut self.files, name, bytes)
    }

    /// Makes the load or save with this number fail, counted from 0 over both. A call that is refused memory isn't counted.
    pub fn fail(&mut self, call: u64) -> Result<(), AllocError>
        ensures ok { OnOk result (self.new ≡ record self.old { failing = self.old.failing ++ call ∷ [] }) }
        ensures err { OnErr result (self.new ≡ self.old) }
    {
        self.failing.push(call)?;
        Ok(())
    }

    /// Makes room: one save of at most so many bytes under the name then needs no memory.
    pub fn reserve(&mut self, name: &str, bytes: u64) -> Result<(), AllocError>
        ensures ok { OnOk result (bytes + 1 ≤ spare_of self.new name.now) }
        ensures others { SameOtherFiles name.now self.old self.new }
        ensures contents { SameContents (contents_of self.old) (contents_of self.new) }
        ensures rest { self.new ≡ record self.old { files = self.new.files } }
    {
        make_room(self.alloc, &mut self.files, name, bytes)
    }

    /// The contents of a name; none where it has none.
    pub fn get(&self, name: &str) -> Option<&[u8]>
        ensures { option_copied result ≡ contents_of self.now name.now }
    {
        match file_of(self.files.as_slice(), name) {
            None => None,
            Some(file) => file.bytes(),
        }
    }

    /// How many loads failed, of all names together: the count of every name.
    pub fn load_faults(&self) -> u64
        ensures { result ≡ self.now.failed_loads }
    {
        self.failed_loads
    }

    /// How many saves failed, of all names together: the count of every name.
    pub fn save_faults(&self) -> u64
        ensures { result ≡ self.now.failed_saves }
    {
        self.failed_saves
    }

    /// Whether the next call is to fail.
    fn is_to_fail(&self) -> bool
        ensures { IsTrue result ↔ IsToFail self.now }
    {
        self.failing.contains(&self.calls)
    }

    /// What a load of the name answers.
    fn answer(&self, alloc: Global, name: &str, limit: u64) -> Result<Vec<u8>, LoadFault>
        ensures { IsLoadAnswer self.now name.now limit result }
    {
        if self.is_to_fail() {
            return Err(LoadFault::Failed);
        }
        let Some(bytes) = self.get(name) else {
            return Err(LoadFault::Failed);
        };
        if bytes.len() as u64 > limit {
            return Err(LoadFault::Long);
        }
        match Vec::from_slice(alloc, bytes) {
            Ok(found) => Ok(found),
            Err(_) => Err(LoadFault::OutOfMemory),
        }
    }
}

impl Files for MemFiles {
    ghost contents = { λ held name. contents_of held name };

    ghost load_faults = { λ held _. held.failed_loads };

    ghost save_faults = { λ held _. held.failed_saves };

    fn load(&mut self, alloc: Global, name: &str, limit: u64) -> Result<Vec<u8>, LoadFault>
        requires { limit < 2 ^ 63 }
        ensures answer { IsLoadAnswer self.old name.now limit result }
        ensures left { LoadLeaves result self.old self.new }
        ensures faults { self.old.failed_loads ≤ self.new.failed_loads }
    {
        match self.answer(alloc, name, limit) {
            Ok(found) => {
                self.calls = self.calls.saturating_add(1);
                Ok(found)
            }
            Err(LoadFault::Failed) => {
                self.calls = self.calls.saturating_add(1);
                self.failed_loads = self.failed_loads.saturating_add(1);
                Err(LoadFault::Failed)
            }
            Err(LoadFault::Long) => {
                self.calls = self.calls.saturating_add(1);
                Err(LoadFault::Long)
            }
            Err(LoadFault::OutOfMemory) => Err(LoadFault::OutOfMemory),
        }
    }

    fn save(&mut self, name: &str, bytes: &[u8]) -> Result<(), SaveFault>
        ensures answer { IsSaveAnswer self.old name.now bytes.now result }
        ensures saved { OnOk result (contents_of self.new name.now ≡ Some bytes.now) }
        ensures others { SameOtherFiles name.now self.old self.new }
        ensures out_of_memory { IsErrOf result SaveFault.OutOfMemory → SameContents (contents_of self.old) (contents_of self.new) }
        ensures counts { SaveCounts result self.old self.new }
        ensures faults { self.old.failed_saves ≤ self.new.failed_saves }
    {
        if self.is_to_fail() {
            self.calls = self.calls.saturating_add(1);
            self.failed_saves = self.failed_saves.saturating_add(1);
            return Err(SaveFault::Failed);
        }
        match store(self.alloc, &mut self.files, name, bytes) {
            Ok(()) => {
                self.calls = self.calls.saturating_add(1);
                Ok(())
            }
            Err(_) => Err(SaveFault::OutOfMemory),
        }
    }
}

fn file_of<'a>(files: &'a [StoredFile], name: &str) -> Option<&'a StoredFile>
    ensures { option_copied result ≡ find (has_name name.now) files.now }
{
    files.iter().find(|file| file.is_named(name))
}

fn place_of(files: &[StoredFile], name: &str) -> Option<usize>
    ensures { result ≡ position (has_name name.now) files.now }
{
    files.iter().position(|file| file.is_named(name))
}

/// Gives a name these bytes. It needs no memory where its file has room for them.
fn store(
    alloc: Global,
    files: &mut Vec<StoredFile>,
    name: &str,
    bytes: &[u8],
) -> Result<(), AllocError>
    ensures ok { OnOk result (bytes_of (find (has_name name.now) files.new.items) ≡ Some bytes.now) }
    ensures others { SameOthers name.now files.old.items files.new.items }
    ensures err { OnErr result (SameBytes files.old.items files.new.items) }
    ensures room { length bytes.now < room_of (find (has_name name.now) files.old.items) → IsOk result }
{
    match place_of(files.as_slice(), name) {
        Some(place) => {
            let file = &mut files[place];
            file.set(bytes)
        }
        None => {
            let mut file = StoredFile::new(alloc, name)?;
            file.set(bytes)?;
            files.push(file)?;
            Ok(())
        }
    }
}

/// Makes room for so many bytes under a name, which gets no contents by it.
fn make_room(
    alloc: Global,
    files: &mut Vec<StoredFile>,
    name: &str,
    bytes: u64,
) -> Result<(), AllocError>
    ensures ok { OnOk result (bytes + 1 ≤ room_of (find (has_name name.now) files.new.items)) }
    ensures others { SameOthers name.now files.old.items files.new.items }
    ensures contents { SameBytes files.old.items files.new.items }
{
    match place_of(files.as_slice(), name) {
        Some(place) => {
            let file = &mut files[place];
            file.reserve(bytes as usize)
        }
        None => {
            let mut file = StoredFile::new(alloc, name)?;
            file.reserve(bytes as usize)?;
            files.push(file)?;
            Ok(())
        }
    }
}
