// A text read piece by piece, by what may come next in a sentence.
#![tactic(auto, using(crate::proofs::Steps::steps))]

ghost use Rattle.std.specs.Prelude.{◌-◌, ◌≤◌, ◌≡◌, length, drop};
ghost use Rattle.model.specs.declared.Refusal.TheVariants.{NoSentence};
ghost use Rattle.model.specs.Refusals.{last_refusal};
ghost use Rattle.model.specs.Places.{most_functions};
ghost use Rattle.model.specs.Sentences.{phrase, most_place};
ghost use Rattle.grammar.specs.Grammar.{value, done, texts, Stuck, read_by};
ghost use Rattle.sentences.specs.Remarks.{refusing, every_visit, after_place, after_number, after_function, answer_of};

use model::{Reason, Refusal, Remark, limits, places};

// 22, at a byte.
fn stuck(at: usize) -> Refusal
    ensures { result ≡ NoSentence at }
{
    Refusal::NoSentence(at as u64)
}

// The same, as an answer.
pub fn no_sentence(at: usize) -> Result<Remark, Refusal>
    ensures { result ≡ answer_of (Stuck at) }
{
    Err(stuck(at))
}

// The last words of a sentence, and nothing behind them.
pub fn read_end(text: &[u8], at: usize, words: &[u8], remark: Remark) -> Result<Remark, Refusal>
    requires { at ≤ length text.now }
    ensures { result ≡ answer_of (read_by (texts words.now (done remark)) (drop at text.now) at) }
{
    let end = pieces::pass_words(text, at, words).map_err(stuck)?;
    if end < text.len() {
        return no_sentence(end);
    }
    Ok(remark)
}

// A refusal's place, and the end.
fn read_place(text: &[u8], at: usize, number: u32) -> Result<Remark, Refusal>
    requires { (at ≤ length text.now) × (1 ≤ number) × (number ≤ last_refusal) }
    ensures { result ≡ answer_of (read_by (value 0 most_place (after_place number)) (drop at text.now) at) }
{
    let (place, end) = pieces::read_decimal(text, at, 0, limits::MOST_PLACE).ok_or(stuck(at))?;
    let refusal = Refusal::numbered(number, place);
    read_end(text, end, b".", Remark::Refused(refusal))
}

// A refusal's phrase, its place and the end.
fn read_phrase(text: &[u8], at: usize, number: u32) -> Result<Remark, Refusal>
    requires { (at ≤ length text.now) × (1 ≤ number) × (number ≤ last_refusal) }
    ensures { result ≡ answer_of (read_by (texts (phrase number) (value 0 most_place (after_place number))) (drop at text.now) at) }
{
    let table = phrases::phrases();
    let phrase = phrases::phrase_of(&table, number);
    let end = pieces::pass_words(text, at, phrase).map_err(stuck)?;
    read_place(text, end, number)
}

// What follows a refusal's number.
fn read_numbered(text: &[u8], at: usize, number: u32) -> Result<Remark, Refusal>
    requires { (at ≤ length text.now) × (1 ≤ number) × (number ≤ last_refusal) }
    ensures { result ≡ answer_of (read_by (after_number number) (drop at text.now) at) }
{
    let end = pieces::pass_words(text, at, b": ").map_err(stuck)?;
    read_phrase(text, end, number)
}

// A refusal's number, and what follows it.
fn read_number(text: &[u8], at: usize) -> Result<Remark, Refusal>
    requires { at ≤ length text.now }
    ensures { result ≡ answer_of (read_by (value 1 last_refusal after_number) (drop at text.now) at) }
{
    let last = limits::LAST_REFUSAL as u64;
    let (number, end) = pieces::read_decimal(text, at, 1, last).ok_or(stuck(at))?;
    read_numbered(text, end, number as u32)
}

// A text that opens as a refusal's sentence does.
pub fn read_refusal(text: &[u8]) -> Result<Remark, Refusal>
    ensures { result ≡ answer_of (read_by (texts refusing (value 1 last_refusal after_number)) (drop 0 text.now) 0) }
{
    let end = pieces::pass_words(text, 0, b"Refused ").map_err(stuck)?;
    read_number(text, end)
}

// The function that a reason names, and the end.
fn read_function(text: &[u8], at: usize) -> Result<Remark, Refusal>
    requires { at ≤ length text.now }
    ensures { result ≡ answer_of (read_by (value 0 (most_functions - 1) after_function) (drop at text.now) at) }
{
    let last = (places::MOST_FUNCTIONS - 1) as u64;
    let (function, end) = pieces::read_decimal(text, at, 0, last).ok_or(stuck(at))?;
    let reason = Reason::EveryVisit(function as usize);
    read_end(text, end, b".", Remark::Explained(reason))
}

// A text that opens as the sentence of a reason that names a function.
pub fn read_visit(text: &[u8]) -> Result<Remark, Refusal>
    ensures { result ≡ answer_of (read_by (texts every_visit (value 0 (most_functions - 1) after_function)) (drop 0 text.now) 0) }
{
    let end = pieces::pass_words(
        text,
        0,
        b"Every visit is charged the load, since its region may have been taken by function ",
    )
    .map_err(stuck)?;
    read_function(text, end)
}
