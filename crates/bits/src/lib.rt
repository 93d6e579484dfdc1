// Words as sets, their members the bits that are set. Laws of the members after `|`, `&`, `^`, `<<` and `>>` stand in proofs/.
#![tactic(auto)]

ghost use Rattle.std.specs.Prelude.{◌≡◌, ◌⊎◌, ◌↔◌, ℕ, ◌≤◌, ◌<◌, length};
ghost use Rattle.model.specs.Results.{Member};
ghost use Rattle.bits.specs.Tests.{has};
ghost use Rattle.bits.specs.Words.{Step};

pub fn has_bit(word: u32, g: usize) -> bool
    requires { g < 32 }
    ensures { result ≡ has word g }
{
    (word >> g) % 2 == 1
}

// The members of w but g.
pub fn without(w: u32, g: usize) -> u32
    requires { g < 32 }
    ensures { (b : ℕ) → Member result b ↔ ((g ≡ b → ⊥) × Member w b) }
{
    let only = 1u32 << g;
    (w | only) ^ only
}

// What an edge from a vertex of function g brings to the interference set of f, where w is the vertex's own: the members of w, and g; none if g is f.
pub fn brought(w: u32, f: u32, g: u32) -> u32
    requires { g < 32 }
    ensures { (b : ℕ) → Member result b ↔ ((g ≡ f → ⊥) × ((b ≡ g) ⊎ Member w b)) }
{
    if f == g {
        return 0;
    }
    w | (1u32 << g)
}

// What an edge from a vertex of function g brings of what regions may hold, where w is that as a walk arrives at the vertex: the members of w but those of
// `rivals`, and g.
pub fn renewed(w: u32, rivals: u32, g: usize) -> u32
    requires { g < 32 }
    ensures { (b : ℕ) → Member result b ↔ ((b ≡ g) ⊎ ((Member rivals b → ⊥) × Member w b)) }
{
    ((w | rivals) ^ rivals) | (1u32 << g)
}

// The numbers below n.
pub fn below(n: usize) -> u32
    requires { (1 ≤ n) × (n ≤ 32) }
    ensures { (b : ℕ) → b < n → Member result b }
{
    0xFFFF_FFFF >> (32 - n)
}

// Word `at` gains the members of `add`. Whether that changed it. It is stored either way: a row's words are then gained several at a time.
pub fn gain(words: &mut [u32], at: usize, add: u32) -> bool
    requires { at < length words.old }
    ensures { Step (λ k b. (k ≡ at) × Member add b) words.old words.new result }
{
    let old = words[at];
    let new = old | add;
    words[at] = new;
    new != old
}
