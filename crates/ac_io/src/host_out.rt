//! The standard output of the host: a trusted edge.

ghost use Rattle.std.specs.Prelude.{◌≡◌, ℕ, None};

use crate::sink::{Sink, SinkFault};
use crate::transfer::write_whole;
use std::io;
use std::marker::Model;

/// The standard output of the host. Nothing is told of what it holds.
#[derive(Drop)]
pub struct HostOut<R> {
    runtime: R,
    faults: u64,
}

impl<R> Model for HostOut<R> {
    ghost use Rattle.std.specs.Prelude.{ℕ};

    ghost Value = { ℕ };

    ghost view = { λ out. out.faults };
}

impl<R> HostOut<R> {
    /// The output that this runtime reaches.
    pub fn new(runtime: R) -> HostOut<R>
        ensures { result ≡ 0 }
    {
        HostOut { runtime, faults: 0 }
    }
}

impl<R: Print> Sink for HostOut<R> {
    ghost written = { λ _. None };

    ghost faults = { λ out. out };

    fn put(&mut self, bytes: &[u8]) -> Result<(), SinkFault> {
        match write_whole(&mut io::writer(&self.runtime), bytes) {
            Ok(()) => Ok(()),
            Err(_) => {
                self.faults = self.faults.saturating_add(1);
                Err(SinkFault::Failed)
            }
        }
    }
}
