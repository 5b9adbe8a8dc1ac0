ghost use Rattle.std.specs.Prelude.{◌≡◌, ◌≤◌, length, decimal};
ghost use Rattle.costs.specs.Texts.{Long, Wrote};

// How many digits `n` has in base ten.
pub(crate) fn decimal_len(n: u64) -> usize
    ensures value { result ≡ length (decimal n) }
    ensures bound { result ≤ 20 }
{
    itoa::Buffer::new().format(n).len()
}

// How many digits `n` has in base ten, if no more than `room`.
pub(crate) fn decimal_len_within(n: u64, room: usize) -> Option<usize>
    ensures { Long (decimal n) room result }
{
    let len = decimal_len(n);
    (len <= room).then_some(len)
}

// Writes the digits of `n` in base ten at the front of `out`, and says how many; where they do not fit, writes nothing.
pub(crate) fn write_decimal(n: u64, out: &mut [u8]) -> Option<usize>
    ensures { Wrote (decimal n) out.old out.new result }
{
    let len = decimal_len_within(n, out.len())?;
    itoa::write_digits(n, out, len);
    Some(len)
}
