//! What is given up where nothing goes on, or where memory ran out.
//!
//! A call drops what it takes by the drop of its type, which is proved once; a drop at the end of a scope is unrolled there,
//! and proved, by the cases of each part.
ghost use Rattle.std.specs.Prelude.{◌≡◌, None, Ok, Err};

use std::alloc::AllocError;

/// Nothing goes on.
pub fn refuse<T: Drop, A>(held: T) -> Result<Option<A>, AllocError>
    ensures { result ≡ Ok None }
{
    drop(held);
    Ok(None)
}

/// Nothing goes on, where no memory is asked for.
pub fn dismiss<T: Drop, A>(held: T) -> Option<A>
    ensures { result ≡ None }
{
    drop(held);
    None
}

/// Memory ran out beside what is held.
pub fn give_up<T: Drop, A>(held: T, error: AllocError) -> Result<A, AllocError>
    ensures { result ≡ Err error }
{
    drop(held);
    Err(error)
}
