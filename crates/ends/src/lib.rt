// The vertices where loops end, as a set of two words: bit v of the low word stands for vertex v, and bit v of the high word for vertex v + 64.
#![tactic(auto)]

ghost use Rattle.std.specs.Prelude.{◌≡◌, ◌&&◌, ◌-◌, ◌≤◌, ◌<◌, leb};
ghost use Rattle.model.specs.Places.{most_vertices};
ghost use Rattle.model.specs.Search.{exists_below};
ghost use Rattle.bits.specs.Tests.{has};
ghost use Rattle.ends.specs.Sets.{half, no_ends, with_end, ends_between};

// How many vertices a word stands for.
const HALF: usize = 64;

#[derive(Clone, Copy)]
pub struct Ends {
    low: u64,
    high: u64,
}

pub fn none() -> Ends
    ensures { result ≡ no_ends }
{
    Ends { low: 0, high: 0 }
}

pub fn with_end(ends: Ends, v: usize) -> Ends
    requires { v < most_vertices }
    ensures { result ≡ with_end ends v }
{
    if v < HALF {
        return Ends {
            low: ends.low | (1u64 << v),
            high: ends.high,
        };
    }
    Ends {
        low: ends.low,
        high: ends.high | (1u64 << (v - HALF)),
    }
}

// Whether a word has a bit from `from` on, below `to`: the others are shifted out.
fn has_between(word: u64, from: usize, to: usize) -> bool
    requires { to ≤ half }
    ensures { result ≡ exists_below to (λ v. leb from v && has word v) }
{
    if to <= from {
        return false;
    }
    (word << (HALF - to)) >> (HALF - to + from) != 0
}

// The bit of the high word that stands for a vertex; 0 for a vertex of the low word.
fn in_high(v: usize) -> usize
    ensures { result ≡ v - half }
{
    if v < HALF {
        return 0;
    }
    v - HALF
}

// Whether a vertex of the set lies from `from` on, below `to`.
pub fn ends_between(ends: Ends, from: usize, to: usize) -> bool
    requires { to ≤ most_vertices }
    ensures { result ≡ ends_between ends from to }
{
    if to <= HALF {
        return has_between(ends.low, from, to);
    }
    if has_between(ends.low, from, HALF) {
        return true;
    }
    has_between(ends.high, in_high(from), to - HALF)
}
