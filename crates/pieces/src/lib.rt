// Reading a text piece by piece: fixed words and a decimal number, each at a position.
#![tactic(auto)]

ghost use Rattle.std.specs.Prelude.{◌≡◌, ◌≤◌, length, drop};
ghost use Rattle.grammar.specs.Numerals.{opens as Numerals·opens, fits as Numerals·fits};
ghost use Rattle.pieces.specs.Pieces.{pass_words, read_value};

// Goes past fixed words, to the position after them; or tells where they stop: the first byte that differs, or the end.
pub fn pass_words(text: &[u8], at: usize, words: &[u8]) -> Result<usize, usize>
    requires { at ≤ length text.now }
    ensures { result ≡ pass_words words.now (drop at text.now) at }
{
    for (i, word) in words.iter().enumerate() {
        let pos = at + i;
        if text.len() <= pos || text[pos] != *word {
            return Err(pos);
        }
    }
    let end = at + words.len();
    Ok(end)
}

// Tests the first byte of a number from `least` to `most`.
fn opens(least: u64, most: u64, c: u8) -> bool
    ensures { result ≡ Numerals·opens least most c }
{
    if !c.is_ascii_digit() {
        return false;
    }
    let digit = (c - b'0') as u64;
    least <= digit && digit <= most
}

// Tests a byte behind digits that come to v: 0 has no further digit, and the number stays within `most`.
fn fits(v: u64, most: u64, c: u8) -> bool
    ensures { result ≡ Numerals·fits v most c }
{
    if !c.is_ascii_digit() || v == 0 {
        return false;
    }
    let digit = (c - b'0') as u64;
    digit <= most && v <= (most - digit) / 10
}

// Reads a number from `least` to `most`, without leading zeros: its value and the position after it.
#[tactic(auto, using(grammar::proofs::Numerals::opens_gives, grammar::proofs::Numerals::fits_gives))]
pub fn read_decimal(text: &[u8], at: usize, least: u64, most: u64) -> Option<(u64, usize)>
    requires { at ≤ length text.now }
    ensures { result ≡ read_value least most (drop at text.now) at }
{
    if text.len() <= at {
        return None;
    }
    let first = text[at];
    if !opens(least, most, first) {
        return None;
    }
    let mut value = (first - b'0') as u64;
    for pos in at + 1..text.len() {
        let c = text[pos];
        if !fits(value, most, c) {
            return Some((value, pos));
        }
        value = value * 10 + (c - b'0') as u64;
    }
    Some((value, text.len()))
}
