ghost use Rattle.std.specs.Prelude.{◌≡◌, ◌==◌, ◌≤◌, length, decimal};
ghost use Rattle.std.specs.Iterator.{at_most};
ghost use Rattle.std.specs.List.{AllByRecursion, position_or_len};
ghost use Rattle.sites.specs.Records.{Fitting, line_text, numbers_text};
ghost use Rattle.sites.specs.Reading.{ReadAs, ReadNumber, ReadFirst};

use crate::records::Record;
use digits::{read_number, split_once};
use floors::LaneRow;

// The number that the bytes write, if at most 65,535.
fn number(bytes: &[u8]) -> Option<u16>
    ensures { ReadAs decimal (λ n. n ≤ 65535) bytes.now result }
{
    u16::try_from(read_number(bytes, u32::MAX).ok()?).ok()
}

// Where the first space stands, or where the bytes end.
fn space_or_end(bytes: &[u8]) -> usize
    ensures within { result ≤ length bytes.now }
    ensures first { result ≡ position_or_len (λ b. b == 32) bytes.now }
{
    bytes.iter().position(|b| *b == b' ').unwrap_or(bytes.len())
}

// The number between a space and the next one or the end, and the bytes from there on.
fn next_number(bytes: &[u8]) -> Option<(u16, &[u8])>
    ensures { ReadNumber bytes.now result }
{
    let written = bytes.strip_prefix(b" ")?;
    let (digits, rest) = written.split_at(space_or_end(written));
    Some((number(digits)?, rest))
}

// N numbers, each after a space.
fn numbers<const N: usize>(bytes: &[u8]) -> Option<[u16; N]>
    ensures { ReadAs numbers_text (λ ns. (length ns ≡ N) × AllByRecursion (λ n. n ≤ 65535) ns) bytes.now result }
{
    let mut numbers = [0; N];
    let mut rest = bytes;
    for number in &mut numbers {
        let (value, below) = next_number(rest)?;
        *number = value;
        rest = below;
    }
    rest.is_empty().then_some(numbers)
}

// The record that a line holds, its newline left out.
fn read_line(line: &[u8]) -> Option<Record>
    ensures { ReadAs line_text Fitting line.now result }
{
    match line {
        [b'H', b'Z', rest @ ..] => {
            let [horizon] = numbers::<1>(rest)?;
            Some(Record::Horizon(horizon))
        }
        [b'P', b'L', rest @ ..] => {
            let [places] = numbers::<1>(rest)?;
            Some(Record::Places(places))
        }
        [b'L', b'N', rest @ ..] => {
            let [from, to, line] = numbers::<3>(rest)?;
            Some(Record::Lane(LaneRow { from, to, line }))
        }
        [b'L', b'B', rest @ ..] => {
            let [from, to, line] = numbers::<3>(rest)?;
            Some(Record::BothLanes(LaneRow { from, to, line }))
        }
        [b'T', b'F', rest @ ..] => {
            let [total, worst] = numbers::<2>(rest)?;
            Some(Record::Tariff { total, worst })
        }
        [b'C', b'T', rest @ ..] => {
            let [start, goal] = numbers::<2>(rest)?;
            Some(Record::Cart { start, goal })
        }
        _ => None,
    }
}

// The records of a text, up to the first line that holds none.
#[derive(Drop)]
pub struct Records<'a> {
    // the bytes below the records that were read
    pub rest: &'a [u8],
}

impl Iterator for Records<'_> {
    type Item = Record;

    ghost next_gives = { λ s r t. ReadFirst s.rest.now r t.rest.now };

    ghost remaining = { λ s. at_most (length s.rest.now) };

    fn next(&mut self) -> Option<Record> {
        let (line, below) = split_once(self.rest, b'\n')?;
        let record = read_line(line)?;
        self.rest = below;
        Some(record)
    }
}
