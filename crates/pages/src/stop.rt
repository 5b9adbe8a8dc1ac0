ghost use Rattle.std.specs.Prelude.{◌≡◌, Ok, IfOk, IfErr};
ghost use Rattle.pages.specs.Stops.{Told};
ghost use Rattle.pages.specs.declared.stop.Stop.TheVariants.{Memory, Refused};

use std::alloc::{AllocError, AllocFailed, Global};
use std::fmt::Display;

// What ends the work on a page early: memory is wanting, or the input is refused.
#[derive(Clone, Copy, PartialEq, Eq, Debug)]
pub enum Stop<R> {
    Memory,
    Refused(R),
}

impl<R: Copy> Stop<R> {
    // The refusal, if it is one.
    pub fn refusal(self) -> Result<R, AllocError>
        ensures refused { IfOk result (λ refusal. self ≡ Refused refusal) }
        ensures memory { IfErr result (λ _. self ≡ Memory) }
    {
        match self {
            Stop::Refused(refusal) => Ok(refusal),
            Stop::Memory => Err(AllocError),
        }
    }
}

impl<R> From<AllocError> for Stop<R> {
    ghost from_gives = { λ _ r. r ≡ Memory };

    fn from(_e: AllocError) -> Stop<R> {
        Stop::Memory
    }
}

impl<R, T: Drop> From<AllocFailed<T>> for Stop<R> {
    ghost from_gives = { λ _ r. r ≡ Memory };

    fn from(_e: AllocFailed<T>) -> Stop<R> {
        Stop::Memory
    }
}

// What was made, or a line on why it is refused; it fails only for want of memory.
pub fn or_line<V: Drop, R: Display + Copy>(
    made: Result<V, Stop<R>>,
    heap: Global,
) -> Result<Result<V, String>, AllocError>
    ensures handed_on { IfOk made (λ v. result ≡ Ok (Ok v)) }
    ensures told { IfOk result (Told R.Display.output made) }
{
    // no `or_else`: its closure would hold both `?`
    match made {
        Ok(page) => Ok(Ok(page)),
        Err(stop) => Ok(Err(stop.refusal()?.to_string(heap)?)),
    }
}
