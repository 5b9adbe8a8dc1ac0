ghost use Rattle.std.specs.Prelude.{◌≡◌, take, IfOk, IfSome};

use std::alloc::Global;
use std::io;
use std::io::Read;

// The most bytes that a site or a price list has.
pub const MOST_BYTES: usize = 16_384;

// What an input gives, up to a byte more than it may have, so that too many are seen.
pub fn read_input<R: Read + Drop>(input: R, heap: Global) -> io::Result<Vec<u8>>
    ensures { IfOk result (λ v. IfSome (R.Read.remaining input) (λ given. v.items ≡ take 16385 given)) }
{
    let mut bytes = Vec::new(heap);
    input.take(MOST_BYTES as u64 + 1).read_to_end(&mut bytes)?;
    Ok(bytes)
}
