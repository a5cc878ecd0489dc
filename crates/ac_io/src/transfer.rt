//! Reading to the end and writing whole, over any reader and writer.

ghost use Rattle.std.specs.Prelude.{◌≡◌, ◌≢◌, ◌+◌, ◌^◌, ◌<◌, ◌≤◌, ◌++◌, IfOk, IfSome, OnOk, OnErr, List, ℕ, length, take, vec_len};
ghost use Rattle.std.specs.Result.{IsErrOf};
ghost use Rattle.std.specs.Io.KnownBytes.{Appends, Consumes, IsAtEnd};

use crate::files::LoadFault;
use std::alloc::Global;
use std::io::{Read, Write};

/// A write failed, or took nothing.
#[derive(Drop)]
pub struct Stopped;

/// How many bytes one read asks for at most.
const LONGEST_READ: usize = 8192;

/// Reads to the end, and gives up as soon as there are more than `limit` bytes.
pub fn read_within<R: Read>(alloc: Global, from: &mut R, limit: u64) -> Result<Vec<u8>, LoadFault>
    requires { limit < 2 ^ 63 }
    ensures within { IfOk result (λ found. vec_len found ≤ limit) }
    ensures whole { IfOk result (λ found. IfSome (R.remaining from.old) (λ left. found.items ≡ left)) }
    ensures long { IsErrOf result LoadFault.Long → IfSome (R.remaining from.old) (λ left. limit < length left) }
{
    let mut found = Vec::new(alloc);
    while found.len() as u64 <= limit {
        let room = limit - found.len() as u64 + 1;
        if read_some(from, &mut found, room)? == 0 {
            return Ok(found);
        }
    }
    Err(LoadFault::Long)
}

/// One read of at most `most` bytes behind those found. It gives how many came: none at the end.
fn read_some<R: Read>(from: &mut R, found: &mut Vec<u8>, most: u64) -> Result<u64, LoadFault>
    requires { 0 < most }
    ensures grows { IfOk result (λ n. vec_len found.new ≡ vec_len found.old + n) }
    ensures within { IfOk result (λ n. n ≤ most) }
    ensures read { OnOk result ((more : List ℕ) × (found.new.items ≡ found.old.items ++ more) × Consumes (R.remaining from.old) (R.remaining from.new) more) }
    ensures end { IfOk result (λ n. n ≡ 0 → IsAtEnd (R.remaining from.new)) }
    ensures err { result ≢ Err LoadFault.Long }
{
    let mut chunk = [0u8; LONGEST_READ];
    let most = most.min(LONGEST_READ as u64) as usize;
    let Ok(n) = from.read(&mut chunk[..most]) else {
        return Err(LoadFault::Failed);
    };
    match found.extend_from_slice(&chunk[..n]) {
        Ok(()) => Ok(n as u64),
        Err(_) => Err(LoadFault::OutOfMemory),
    }
}

/// Writes all the bytes. Where it stops before the end, it has written a prefix of them.
pub fn write_whole<W: Write>(to: &mut W, bytes: &[u8]) -> Result<(), Stopped>
    ensures ok { OnOk result (Appends (W.contents to.old) (W.contents to.new) bytes.now) }
    ensures err { OnErr result ((kept : ℕ) × Appends (W.contents to.old) (W.contents to.new) (take kept bytes.now)) }
{
    let mut rest = bytes;
    while !rest.is_empty() {
        match to.write(rest) {
            Ok(0) => return Err(Stopped),
            Ok(n) => rest = &rest[n..],
            Err(_) => return Err(Stopped),
        }
    }
    Ok(())
}
