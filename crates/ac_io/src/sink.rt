//! Where a report goes: what a caller may rely on of every implementation.

ghost use Rattle.std.specs.Prelude.{◌≡◌, ℕ, ◌≤◌, List, Option, OnOk};
ghost use Rattle.std.specs.Result.{IsErrOf};
ghost use Rattle.ac_io.specs.Counts.{Rose};
ghost use Rattle.ac_io.specs.Written.{Adds, AddsPrefix};

use thiserror::Error;

/// Why a put was not done.
#[derive(Debug, Drop, Error)]
pub enum SinkFault {
    /// The bytes can't be written.
    #[error("the bytes can't be written")]
    Failed,
    /// Memory ran out.
    #[error("out of memory")]
    OutOfMemory,
}

/// Where a report goes.
///
/// It has the bytes written so far, told or not told, and a count of faults. `Failed` is answered only where the count
/// rose in that call, or stands at 2^64 - 1.
pub trait Sink {
    ghost written: { Self → Option (List ℕ) };

    ghost faults: { Self → ℕ };

    /// Adds the bytes behind those written so far. Where it fails, it has added a prefix of them.
    fn put(&mut self, bytes: &[u8]) -> Result<(), SinkFault>
        ensures added { OnOk result (Adds (written self.old) (written self.new) bytes.now) }
        ensures prefix { IsErrOf result SinkFault.Failed → AddsPrefix (written self.old) (written self.new) bytes.now }
        ensures out_of_memory { IsErrOf result SinkFault.OutOfMemory → written self.new ≡ written self.old }
        ensures failed { IsErrOf result SinkFault.Failed → Rose (faults self.old) (faults self.new) }
        ensures faults_stay { faults self.old ≤ faults self.new };
}
