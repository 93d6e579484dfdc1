// What the programs of the gate print: texts, and numbers behind a label.
#![tactic(auto)]

ghost use Rattle.std.specs.Prelude.{◌++◌, OnOk, codes, decimal};
ghost use Rattle.std.specs.Io.KnownBytes.{Appends};

use std::io;
use std::io::Write;

pub fn text<W: Write>(out: &mut W, words: &[u8]) -> io::Result<()>
    ensures { OnOk result (Appends (W.contents out.old) (W.contents out.new) words.now) }
{
    out.write_all(words)
}

// As `need 8`.
pub fn number<W: Write>(out: &mut W, label: &[u8], n: u64) -> io::Result<()>
    ensures { OnOk result (Appends (W.contents out.old) (W.contents out.new) (label.now ++ decimal n)) }
{
    text(out, label)?;
    write!(out, "{n}")
}

// A refusal's number and its place, as `refused 1 at 0`.
pub fn placed<W: Write>(out: &mut W, label: &[u8], refusal: u32, place: u64) -> io::Result<()>
    ensures { OnOk result (Appends (W.contents out.old) (W.contents out.new)
        (label.now ++ decimal refusal ++ codes " at " ++ decimal place)) }
{
    number(out, label, refusal as u64)?;
    number(out, b" at ", place)
}
