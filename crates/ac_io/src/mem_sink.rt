//! A sink in memory.

ghost use Rattle.std.specs.Prelude.{◌≡◌, ℕ, ◌+◌, ◌≤◌, ◌++◌, ◌∷◌, [], take, Option, Some, IsErr, OnOk, OnErr};
ghost use Rattle.ac_io.specs.SinkInMemory.{kept_of, next_kept, PutLeaves, SpendsSpare};

use crate::failing_put::FailingPut;
use crate::sink::{Sink, SinkFault};
use std::alloc::{AllocError, Global};
use std::marker::Model;

/// A sink in memory, which tells its bytes and fails where it is asked to.
#[derive(Drop)]
pub struct MemSink {
    bytes: Vec<u8>,
    failing: Vec<FailingPut>,
    puts: u64,
    failed_puts: u64,
}

impl Model for MemSink {
    ghost use Rattle.std.specs.Prelude.{◌-◌, vec_len, vec_capacity};
    ghost use Rattle.ac_io.specs.SinkInMemory.{SinkInMemory};

    ghost Value = { SinkInMemory };

    ghost view = { λ m. record { bytes = m.bytes.items; failing = m.failing.items; puts = m.puts; failed_puts = m.failed_puts; spare = vec_capacity m.bytes - vec_len m.bytes } };
}

impl MemSink {
    /// Nothing written and no faults.
    pub fn new(alloc: Global) -> MemSink
        ensures bytes { result.bytes ≡ [] }
        ensures failing { result.failing ≡ [] }
        ensures puts { result.puts ≡ 0 }
        ensures failed_puts { result.failed_puts ≡ 0 }
    {
        MemSink {
            bytes: Vec::new(alloc),
            failing: Vec::new(alloc),
            puts: 0,
            failed_puts: 0,
        }
    }

    /// Makes this put, counted from 0, add the first `keep` bytes, or all where there are fewer, and then fail. Where a
    /// put is given more than once, the last `keep` counts.
    pub fn fail(&mut self, call: u64, keep: u64) -> Result<(), AllocError>
        ensures ok { OnOk result (self.new ≡ record self.old { failing = self.old.failing ++ record { call = call; keep = keep } ∷ [] }) }
        ensures err { OnErr result (self.new ≡ self.old) }
    {
        self.failing.push(FailingPut { call, keep })?;
        Ok(())
    }

    /// Makes room: puts of at most so many bytes in all then need no memory.
    pub fn reserve(&mut self, bytes: u64) -> Result<(), AllocError>
        ensures ok { OnOk result (bytes ≤ self.new.spare) }
        ensures rest { self.new ≡ record self.old { spare = self.new.spare } }
    {
        self.bytes.reserve(bytes as usize)
    }

    /// The bytes written so far.
    pub fn bytes(&self) -> &[u8]
        ensures { result.now ≡ self.now.bytes }
    {
        self.bytes.as_slice()
    }

    /// How many puts failed.
    pub fn faults(&self) -> u64
        ensures { result ≡ self.now.failed_puts }
    {
        self.failed_puts
    }

    /// How many bytes the next put keeps, where it is to fail.
    fn next_kept(&self) -> Option<u64>
        ensures { result ≡ next_kept self.now }
    {
        self.failing
            .iter()
            .rev()
            .find(|failing| failing.call == self.puts)
            .map(|failing| failing.keep)
    }
}

impl Sink for MemSink {
    ghost written = { λ sink. Some sink.bytes };

    ghost faults = { λ sink. sink.failed_puts };

    fn put(&mut self, bytes: &[u8]) -> Result<(), SinkFault>
        ensures left { PutLeaves result bytes.now self.old self.new }
        ensures spare { SpendsSpare self.old self.new }
        ensures faults { self.old.failed_puts ≤ self.new.failed_puts }
    {
        match self.next_kept() {
            None => {
                if self.bytes.extend_from_slice(bytes).is_err() {
                    return Err(SinkFault::OutOfMemory);
                }
                self.puts = self.puts.saturating_add(1);
                Ok(())
            }
            Some(keep) => {
                if self.bytes.extend_from_slice(front(bytes, keep)).is_err() {
                    return Err(SinkFault::OutOfMemory);
                }
                self.puts = self.puts.saturating_add(1);
                self.failed_puts = self.failed_puts.saturating_add(1);
                Err(SinkFault::Failed)
            }
        }
    }
}

/// The first `keep` bytes, or all where there are fewer.
fn front(bytes: &[u8], keep: u64) -> &[u8]
    ensures { result.now ≡ take keep bytes.now }
{
    if keep < bytes.len() as u64 {
        &bytes[..keep as usize]
    } else {
        bytes
    }
}
