ghost use Rattle.prices.specs.ZoneLines.{HexRead, zones_line, none_large};
ghost use Rattle.prices.specs.ZoneReads.{zones_lines};

use crate::priced::Priced;
use costs::Zones;
use digits::ReadFault;

// The value of a digit to the base 16, in lower case; `to_digit` takes capitals too.
fn hex_value(byte: u8) -> Option<u64>
    ensures { HexRead byte result }
{
    match byte {
        b'0'..=b'9' => Some(u64::from(byte - b'0')),
        b'a'..=b'f' => Some(u64::from(byte - b'a') + 10),
        _ => None,
    }
}

impl Priced for Zones {
    ghost line = { zones_line };

    ghost large = { none_large };

    ghost lines = { zones_lines };

    fn read_line(bytes: &[u8]) -> Result<Zones, ReadFault> {
        if bytes.len() != 16 {
            return Err(ReadFault::Malformed);
        }
        // by hand: `from_str_radix` takes a plus and capitals too, so each byte would be looked at all the same, and then read once more
        let mut bits: u64 = 0;
        for b in bytes {
            let digit = hex_value(*b).ok_or(ReadFault::Malformed)?;
            bits = bits * 16 + digit;
        }
        Ok(Zones { bits })
    }
}
