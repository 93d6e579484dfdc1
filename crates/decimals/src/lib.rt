// Numbers in decimal, without leading zeros, and texts, written into a lent buffer.
#![tactic(auto)]

ghost use Rattle.std.specs.Prelude.{◌≡◌, ◌++◌, ◌+◌, ◌≤◌, length};
ghost use Rattle.model.specs.Decimals.{decimal};
ghost use Rattle.decimals.specs.Digits.{most_digits};
ghost use Rattle.decimals.specs.Written.{Written};

// How many digits a number of 64 bits has at most.
pub const MOST_DIGITS: usize = 20;

// How many digits a number takes.
pub fn decimal_size(n: u64) -> usize
    ensures { result ≡ length (decimal n) }
{
    n.max(1).ilog10() as usize + 1
}

// Writes a number at a position, from its last digit on, and answers the position after it.
pub fn write_decimal(buf: &mut [u8], at: usize, n: u64) -> usize
    requires { at + length (decimal n) ≤ length buf.old }
    ensures { Written buf.old at (decimal n) buf.new result }
{
    let size = decimal_size(n);
    let mut rest = n;
    for left in (0..size).rev() {
        buf[at + left] = b'0' + (rest % 10) as u8;
        rest /= 10;
    }
    at + size
}

// Writes a text at a position, and answers the position after it.
pub fn write_text(buf: &mut [u8], at: usize, text: &[u8]) -> usize
    requires { at + length text.now ≤ length buf.old }
    ensures { Written buf.old at text.now buf.new result }
{
    let end = at + text.len();
    buf[at..end].copy_from_slice(text);
    end
}

// Writes a label at a position and a number behind it, and answers the position after them.
pub fn write_labelled(buf: &mut [u8], at: usize, label: &[u8], n: u64) -> usize
    requires { at + length label.now + most_digits ≤ length buf.old }
    ensures written { Written buf.old at (label.now ++ decimal n) buf.new result }
    ensures upper_bound { result ≤ at + length label.now + most_digits }
{
    let behind = write_text(buf, at, label);
    write_decimal(buf, behind, n)
}
