//! One name in memory, with its contents.

ghost use Rattle.std.specs.Prelude.{◌≡◌, ◌≤◌, length, IfOk, OnOk, OnErr, IsOk, Some, None};
ghost use Rattle.std.specs.Option.{option_copied};
ghost use Rattle.ac_io.specs.StoredFile.{has_name};

use std::alloc::{AllocError, Global};
use std::marker::Model;

/// A name in memory, with room for contents that it need not have.
#[derive(Drop)]
pub struct StoredFile {
    name: String,
    bytes: Vec<u8>,
    has_contents: bool,
}

impl Model for StoredFile {
    ghost use Rattle.std.specs.Prelude.{if◌then◌else◌, Some, None, string_bytes, vec_capacity};
    ghost use Rattle.ac_io.specs.StoredFile.{StoredFile as Stored};

    ghost Value = { Stored };

    ghost view = { λ f. record { name = string_bytes f.name; bytes = if f.has_contents then Some f.bytes.items else None; room = vec_capacity f.bytes } };
}

impl StoredFile {
    /// A name without contents.
    pub fn new(alloc: Global, name: &str) -> Result<StoredFile, AllocError>
        ensures name { IfOk result (λ f. f.name ≡ name.now) }
        ensures bytes { IfOk result (λ f. f.bytes ≡ None) }
    {
        let name = String::from_str(alloc, name)?;
        Ok(StoredFile {
            name,
            bytes: Vec::new(alloc),
            has_contents: false,
        })
    }

    /// Whether this is the file of the name.
    pub fn is_named(&self, name: &str) -> bool
        ensures { result ≡ has_name name.now self.now }
    {
        self.name.as_str() == name
    }

    /// The contents, where there are any.
    pub fn bytes(&self) -> Option<&[u8]>
        ensures { option_copied result ≡ self.now.bytes }
    {
        if self.has_contents {
            Some(self.bytes.as_slice())
        } else {
            None
        }
    }

    /// Makes the bytes its contents. It needs no memory where there is room for them.
    pub fn set(&mut self, bytes: &[u8]) -> Result<(), AllocError>
        ensures ok { OnOk result (self.new.bytes ≡ Some bytes.now) }
        ensures err { OnErr result (self.new.bytes ≡ self.old.bytes) }
        ensures name { self.new.name ≡ self.old.name }
        ensures room { length bytes.now ≤ self.old.room → IsOk result }
    {
        let missing = bytes.len().saturating_sub(self.bytes.len());
        self.bytes.reserve(missing)?;
        self.bytes.clear();
        self.bytes.extend_from_slice(bytes).unwrap();
        self.has_contents = true;
        Ok(())
    }

    /// Makes room for so many bytes.
    pub fn reserve(&mut self, room: usize) -> Result<(), AllocError>
        ensures ok { OnOk result (room ≤ self.new.room) }
        ensures name { self.new.name ≡ self.old.name }
        ensures bytes { self.new.bytes ≡ self.old.bytes }
    {
        let missing = room.saturating_sub(self.bytes.len());
        self.bytes.reserve(missing)
    }
}
