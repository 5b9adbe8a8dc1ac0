ghost use Rattle.digits.specs.Splits.{SplitOnce};

// What stands before and after the first `byte`, if there is one.
pub fn split_once(bytes: &[u8], byte: u8) -> Option<(&[u8], &[u8])>
    ensures { SplitOnce byte bytes.now result }
{
    let at = bytes.iter().position(|b| *b == byte)?;
    Some((&bytes[..at], &bytes[at + 1..]))
}
