// The slip that `marksheet` prints, rendered into a lent buffer.
#![tactic(auto)]

ghost use Rattle.std.specs.Prelude.{◌+◌, ◌≤◌, ◌++◌, length};
ghost use Rattle.model.specs.Decimals.{decimal};
ghost use Rattle.model.specs.Slips.{refusal_line, result_lines, bound_slip};
ghost use Rattle.decimals.specs.Digits.{most_digits};
ghost use Rattle.decimals.specs.Written.{Written};

use model::{Bound, Refusal};

// A label has at most so many bytes.
const LABEL_ROOM: usize = 8;

// Room for four lines: a label, a number and the line's end.
pub const ROOM: usize = 4 * (LABEL_ROOM + decimals::MOST_DIGITS + 1);

// What a caller lends for a slip.
pub type Slip = [u8; ROOM];

// A label, a number and what ends the line, at a position. Answers the position after them.
fn write_line(buf: &mut [u8], at: usize, label: &[u8], n: u64, end: &[u8]) -> usize
    requires { at + length label.now + most_digits + length end.now ≤ length buf.old }
    ensures written { Written buf.old at (label.now ++ decimal n ++ end.now) buf.new result }
    ensures upper_bound { result ≤ at + length label.now + most_digits + length end.now }
{
    let behind = decimals::write_labelled(buf, at, label, n);
    decimals::write_text(buf, behind, end)
}

// As `refused 1 at 0`. Answers how many bytes the slip has.
pub fn refused(refusal: Refusal, slip: &mut Slip) -> usize
    ensures { Written slip.old 0 (refusal_line refusal) slip.new result }
{
    let number = refusal.number() as u64;
    let place = refusal.place();
    let behind = decimals::write_labelled(slip, 0, b"refused ", number);
    write_line(slip, behind, b" at ", place, b"\n")
}

// The four results in order, one a line.
fn results(b: Bound, slip: &mut Slip) -> usize
    ensures { Written slip.old 0 (result_lines b) slip.new result }
{
    let need = write_line(slip, 0, b"need ", b.need.0, b"\n");
    let charged = write_line(slip, need, b"charged ", b.contested as u64, b"\n");
    let first = write_line(slip, charged, b"first ", b.first.0, b"\n");
    write_line(slip, first, b"bound ", b.bound.0, b"\n")
}

// The slip of what Bound answers.
pub fn bounded(answer: Result<Bound, Refusal>, slip: &mut Slip) -> usize
    ensures { Written slip.old 0 (bound_slip answer) slip.new result }
{
    match answer {
        Err(refusal) => refused(refusal, slip),
        Ok(b) => results(b, slip),
    }
}
