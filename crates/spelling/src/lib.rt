// One number of the problem file, read and written.
#![tactic(auto)]

ghost use Rattle.std.specs.Prelude.{◌≡◌, ◌+◌, ◌≤◌, ◌<◌, length};
ghost use Rattle.std.proofs.lemmas.List.Edits.{sets};
ghost use Rattle.model.specs.Spelling.{high_fifth, read_number, number_size, number_bytes};

use model::Misread;

// A fifth byte above 0F.
fn high_fifth(left: usize, b: u64) -> bool
    ensures { result ≡ high_fifth left b }
{
    left == 0 && 15 < b
}

// The number at a position, group by group: groups of seven bits, the lowest first. A byte below 128 ends it, also a zero: numbers may be padded.
#[tactic(auto, using(crate::proofs::Laws::group_small, crate::proofs::Laws::unit_small))]
fn read_groups(bytes: &[u8], at: usize) -> Result<(u64, usize), Misread>
    ensures { result ≡ read_number bytes.now at }
{
    let mut pos = at;
    let mut unit: u64 = 1;
    let mut value: u64 = 0;
    for left in (0..5usize).rev() {
        if bytes.len() <= pos {
            return Err(Misread::Ended);
        }
        let b = bytes[pos] as u64;
        if high_fifth(left, b) {
            return Err(Misread::Misspelt);
        }
        if b < 128 {
            return Ok((value + b * unit, pos + 1));
        }
        value += (b - 128) * unit;
        unit *= 128;
        pos += 1;
    }
    Err(Misread::Misspelt)
}

// The number at a position. Most take one byte, and are read at once.
pub fn read_number(bytes: &[u8], at: usize) -> Result<(u64, usize), Misread>
    ensures { result ≡ read_number bytes.now at }
{
    if at < bytes.len() {
        let b = bytes[at] as u64;
        if b < 128 {
            return Ok((b, at + 1));
        }
    }
    read_groups(bytes, at)
}

// How many bytes a number takes.
pub fn number_size(value: u64) -> usize
    ensures { result ≡ number_size value }
{
    if value < 128 {
        return 1;
    }
    if value < 16384 {
        return 2;
    }
    if value < 2097152 {
        return 3;
    }
    if value < 268435456 {
        return 4;
    }
    5
}

// Writes a number at a position, and answers the position after it.
#[tactic(auto, using(crate::proofs::Laws::size_pos))]
pub fn write_number(buf: &mut [u8], at: usize, value: u64) -> usize
    requires { at + number_size value ≤ length buf.old }
    ensures fact_1 { result ≡ at + number_size value }
    ensures fact_2 { buf.new ≡ sets buf.old at (number_bytes value) }
{
    let last = at + number_size(value) - 1;
    let mut rest = value;
    for pos in at..last {
        buf[pos] = (128 + rest % 128) as u8;
        rest /= 128;
    }
    buf[last] = (rest % 128) as u8;
    last + 1
}
