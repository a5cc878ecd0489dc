//! The numbers of new names.
ghost use Rattle.std.specs.Prelude.{◌≡◌, IfOk, OnOk};
ghost use Rattle.ac_expand.specs.Ground.{next_name, named};

use std::alloc::AllocError;

/// The next new names: outside every assumed `all`, and inside one.
#[derive(Clone, Copy)]
pub(crate) struct Names {
    pub(crate) outer: u32,
    pub(crate) inner: u32,
}

impl Names {
    /// Takes the next new name.
    pub(crate) fn take(&mut self, inside: bool) -> Result<u32, AllocError>
        ensures name { IfOk result (λ k. k ≡ next_name inside self.old) }
        ensures taken { OnOk result (self.new ≡ named inside self.old) }
    {
        if inside {
            let name = self.inner;
            self.inner = name.checked_add(1).ok_or(AllocError)?;
            Ok(name)
        } else {
            let name = self.outer;
            self.outer = name.checked_add(1).ok_or(AllocError)?;
            Ok(name)
        }
    }
}
