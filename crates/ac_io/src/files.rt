//! Files by name: what a caller may rely on of every implementation.

ghost use Rattle.std.specs.Prelude.{◌≡◌, ℕ, ◌<◌, ◌≤◌, ◌^◌, List, Option, IfOk, OnOk, vec_len};
ghost use Rattle.std.specs.Option.{ForSome};
ghost use Rattle.std.specs.Result.{IsErrOf};
ghost use Rattle.ac_io.specs.Contents.{SameContents, SameElsewhere};
ghost use Rattle.ac_io.specs.Counts.{Rose, NoneFell};
ghost use Rattle.ac_io.specs.Limit.{IsLongExactly};

use std::alloc::Global;
use thiserror::Error;

/// Why a load gave no bytes.
#[derive(Debug, Drop, Error)]
pub enum LoadFault {
    /// The file can't be read.
    #[error("the file can't be read")]
    Failed,
    /// The file is longer than the limit.
    #[error("the file is longer than the limit")]
    Long,
    /// Memory ran out.
    #[error("out of memory")]
    OutOfMemory,
}

/// Why a save was not done.
#[derive(Debug, Drop, Error)]
pub enum SaveFault {
    /// The file can't be written.
    #[error("the file can't be written")]
    Failed,
    /// Memory ran out.
    #[error("out of memory")]
    OutOfMemory,
}

/// Files by name.
///
/// Of each name there are three meanings: its contents, told or not told; a count of failed loads; a count of failed
/// saves. A failure is answered only where its count rose in that call, or stands at 2^64 - 1.
pub trait Files {
    ghost contents: { Self → List ℕ → Option (List ℕ) };

    ghost load_faults: { Self → List ℕ → ℕ };

    ghost save_faults: { Self → List ℕ → ℕ };

    /// The contents of a name, if they have at most `limit` bytes.
    fn load(&mut self, alloc: Global, name: &str, limit: u64) -> Result<Vec<u8>, LoadFault>
        requires { limit < 2 ^ 63 }
        ensures contents_stay { SameContents (contents self.old) (contents self.new) }
        ensures within_limit { IfOk result (λ found. vec_len found ≤ limit) }
        ensures told { IfOk result (λ found. ForSome (contents self.old name.now) (λ told. found.items ≡ told)) }
        ensures long { ForSome (contents self.old name.now) (IsLongExactly result limit) }
        ensures failed { IsErrOf result LoadFault.Failed → Rose (load_faults self.old name.now) (load_faults self.new name.now) }
        ensures load_faults_stay { NoneFell (load_faults self.old) (load_faults self.new) }
        ensures save_faults_stay { NoneFell (save_faults self.old) (save_faults self.new) };

    /// Gives a name these bytes. After `Failed` nothing is known of the name.
    fn save(&mut self, name: &str, bytes: &[u8]) -> Result<(), SaveFault>
        ensures saved { OnOk result (ForSome (contents self.new name.now) (λ told. told ≡ bytes.now)) }
        ensures elsewhere { SameElsewhere name.now (contents self.old) (contents self.new) }
        ensures out_of_memory { IsErrOf result SaveFault.OutOfMemory → SameContents (contents self.old) (contents self.new) }
        ensures failed { IsErrOf result SaveFault.Failed → Rose (save_faults self.old name.now) (save_faults self.new name.now) }
        ensures load_faults_stay { NoneFell (load_faults self.old) (load_faults self.new) }
        ensures save_faults_stay { NoneFell (save_faults self.old) (save_faults self.new) };
}
