ghost use Rattle.std.specs.Prelude.{Decides};
ghost use Rattle.digits.specs.Numbers.{BaseTen, NumberRead};

// Why bytes are not read: they are not of the form, or they write a number above the most.
#[derive(Clone, Copy, PartialEq, Eq, Debug)]
pub enum ReadFault {
    Malformed,
    TooLarge,
}

// Whether the bytes are a number in base ten, of any size.
fn base_ten(bytes: &[u8]) -> bool
    ensures { Decides result (BaseTen bytes.now) }
{
    match bytes {
        [] | [b'0', _, ..] => false,
        _ => bytes.iter().all(u8::is_ascii_digit),
    }
}

// The number that the bytes write in base ten, if at most `most`.
// Added up by hand: `str::from_utf8` and `parse` go over the digits again, and a number of one digit took four times as long.
pub fn read_number(bytes: &[u8], most: u32) -> Result<u32, ReadFault>
    ensures { NumberRead most bytes.now result }
{
    if !base_ten(bytes) {
        return Err(ReadFault::Malformed);
    }
    let mut value: u32 = 0;
    for b in bytes {
        let next = value as u64 * 10 + (*b - b'0') as u64;
        if next > most as u64 {
            return Err(ReadFault::TooLarge);
        }
        value = next as u32;
    }
    Ok(value)
}
