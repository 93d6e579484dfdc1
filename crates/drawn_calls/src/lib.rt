// The calls of a drawing: that no graph's last vertex calls, and that no function can reach itself by calls.
#![tactic(auto)]

ghost use Rattle.std.specs.Prelude.{◌≡◌, ◌&&◌, ◌||◌, ℕ, ◌≤◌, ◌<◌, length, Some};
ghost use Rattle.model.specs.declared.Refusal.TheVariants as refusal;
ghost use Rattle.model.specs.Places as spot;
ghost use Rattle.model.specs.Graph.{broken};
ghost use Rattle.model.specs.Drawings.{drawn_functions, callee_of};
ghost use Rattle.model.specs.Inlined.{calls_the, via, calls, judge_last, judge_calls};
ghost use Rattle.bits.specs.Tests.{has};
ghost use Rattle.drawings.specs.Facts.{DrawingFacts};
ghost use Rattle.drawn_calls.specs.Counts.{Countable};
ghost use Rattle.drawn_calls.specs.Words.{told, Tells, let_through};

use model::{Drawing, Refusal, places};

// Then 20, the lowest function whose last vertex calls.
pub fn judge_last(d: &Drawing) -> Result<(), Refusal>
    requires { Countable d.now }
    ensures { result ≡ judge_last d.now }
{
    let count = drawings::function_count(d);
    for f in 0..count {
        let last = drawings::vertex_count(d, f) - 1;
        if drawings::calls_some(drawings::callee_at(d, f, last)) {
            return Err(Refusal::LastCalls(f as u64));
        }
    }
    Ok(())
}

// The functions of a word, and the callee if there is one.
fn with_callee(word: u32, callee: usize) -> u32
    requires { (g : ℕ) → callee_of callee ≡ Some g → g < spot.most_functions }
    ensures { (g : ℕ) → has result g ≡ (has word g || calls_the (callee_of callee) g) }
{
    if drawings::calls_some(callee) {
        word | (1u32 << callee)
    } else {
        word
    }
}

// The functions that f calls, as a word.
fn calls_of(d: &Drawing, f: usize) -> u32
    requires fact_1 { DrawingFacts d.now }
    requires fact_2 { f < drawn_functions d.now }
    ensures { (g : ℕ) → has result g ≡ calls d.now f g }
{
    let count = drawings::vertex_count(d, f);
    let mut word: u32 = 0;
    for v in 0..count {
        word = with_callee(word, drawings::callee_at(d, f, v));
    }
    word
}

// A word for each function.
type Words = [u32; places::MOST_FUNCTIONS];

fn call_words(d: &Drawing) -> Words
    requires { DrawingFacts d.now }
    ensures { Tells (calls d.now) (drawn_functions d.now) result }
{
    let count = drawings::function_count(d);
    let mut words: Words = [0u32; places::MOST_FUNCTIONS];
    for f in 0..count {
        words[f] = calls_of(d, f);
    }
    words
}

// A function's word, and by way of k the word of k.
fn through(word: u32, k: usize, onward: u32) -> u32
    requires { k < spot.most_functions }
    ensures { (g : ℕ) → has result g ≡ (has word g || (has word k && has onward g)) }
{
    if bits::has_bit(word, k) {
        word | onward
    } else {
        word
    }
}

// Every function's word, and by way of k the word of k, which stays as it is.
fn let_through(words: &mut Words, k: usize, count: usize)
    requires fact_1 { (k < count) × (count ≤ spot.most_functions) }
    requires fact_2 { length words.old ≡ spot.most_functions }
    ensures { Tells (let_through (told words.old) k) count words.new }
{
    for f in 0..count {
        words[f] = through(words[f], k, words[k]);
    }
}

// By way of each function in turn.
fn close(words: &mut Words, count: usize)
    requires fact_1 { count ≤ spot.most_functions }
    requires fact_2 { length words.old ≡ spot.most_functions }
    ensures { Tells (via (told words.old) count) count words.new }
{
    for k in 0..count {
        let_through(words, k, count);
    }
}

// Whether the word of f has g.
fn in_word(words: &Words, f: usize, g: usize) -> bool
    requires { (f < spot.most_functions) × (g < spot.most_functions) }
    ensures { result ≡ told words.now f g }
{
    bits::has_bit(words[f], g)
}

// The lowest function that stands in its own word.
fn judge_words(words: &Words, count: usize) -> Result<(), Refusal>
    requires { count ≤ spot.most_functions }
    ensures { result ≡ broken count (λ f. told words.now f f) refusal.Recursive }
{
    for f in 0..count {
        if in_word(words, f, f) {
            return Err(Refusal::Recursive(f as u64));
        }
    }
    Ok(())
}

// Then 18, the lowest function that can reach itself by calls.
pub fn judge_calls(d: &Drawing) -> Result<(), Refusal>
    requires { DrawingFacts d.now }
    ensures { result ≡ judge_calls d.now }
{
    let count = drawings::function_count(d);
    let mut words = call_words(d);
    close(&mut words, count);
    judge_words(&words, count)
}
