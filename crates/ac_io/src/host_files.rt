//! The files of the host: a trusted edge.

ghost use Rattle.std.specs.Prelude.{◌≡◌, ℕ, None};

use crate::files::{Files, LoadFault, SaveFault};
use crate::transfer::{Stopped, read_within, write_whole};
use std::alloc::Global;
use std::fs;
use std::marker::Model;

/// The files of the host, whose names are its paths.
///
/// Nothing is told of their contents. There is one count of failed loads and one of failed saves, and each is the count
/// of every name.
#[derive(Drop)]
pub struct HostFiles<R> {
    runtime: R,
    load_faults: u64,
    save_faults: u64,
}

impl<R> Model for HostFiles<R> {
    ghost use Rattle.ac_io.specs.Host.{FaultCounts};

    ghost Value = { FaultCounts };

    ghost view = { λ f. record { loads = f.load_faults; saves = f.save_faults } };
}

impl<R> HostFiles<R> {
    /// The files that this runtime reaches.
    pub fn new(runtime: R) -> HostFiles<R>
        ensures loads { result.loads ≡ 0 }
        ensures saves { result.saves ≡ 0 }
    {
        HostFiles {
            runtime,
            load_faults: 0,
            save_faults: 0,
        }
    }
}

impl<R: fs::Files> Files for HostFiles<R> {
    ghost contents = { λ _ _. None };

    ghost load_faults = { λ files _. files.loads };

    ghost save_faults = { λ files _. files.saves };

    fn load(&mut self, alloc: Global, name: &str, limit: u64) -> Result<Vec<u8>, LoadFault> {
        let Ok(mut file) = fs::open(&self.runtime, name) else {
            self.load_faults = self.load_faults.saturating_add(1);
            return Err(LoadFault::Failed);
        };
        let found = read_within(alloc, &mut file, limit);
        if let Err(LoadFault::Failed) = &found {
            self.load_faults = self.load_faults.saturating_add(1);
        }
        found
    }

    fn save(&mut self, name: &str, bytes: &[u8]) -> Result<(), SaveFault> {
        let saved = match fs::create(&self.runtime, name) {
            Ok(mut file) => write_whole(&mut file, bytes),
            Err(_) => Err(Stopped),
        };
        match saved {
            Ok(()) => Ok(()),
            Err(_) => {
                self.save_faults = self.save_faults.saturating_add(1);
                Err(SaveFault::Failed)
            }
        }
    }
}
