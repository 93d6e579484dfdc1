// The operation Interference: the sets, copied to the words that the caller lends.
#![tactic(auto)]

ghost use Rattle.std.specs.Prelude.{◌+◌, ◌*◌, ◌≤◌, ◌<◌, length};
ghost use Rattle.model.specs.Numbers.{problem_of};
ghost use Rattle.model.specs.Operations.{Checked};
ghost use Rattle.model.specs.Results.{InterferenceSays};
ghost use Rattle.model.specs.Outcomes.{interference_outcome, FillsWords};
ghost use Rattle.interference.specs.Copies.{RowCopied, Copied};
ghost use Rattle.model.specs.Places as places;

use model::{Numbers, Problem, Refusal, places};
use sets::SET_WORDS;

// The sets of v to their places in the buffer, count words from `at` on.
fn copy_row(table: &[u32; SET_WORDS], v: usize, count: usize, words: &mut [u32], at: usize)
    requires fact_1 { (v < places.most_vertices) × (count ≤ places.most_functions) }
    requires fact_2 { at + count ≤ length words.old }
    ensures { RowCopied table.now v count at words.old words.new }
{
    let row = places::MOST_FUNCTIONS * v;
    words[at..at + count].copy_from_slice(&table[row..row + count]);
}

fn copy_out(table: &[u32; SET_WORDS], vertices: usize, count: usize, words: &mut [u32])
    requires fact_1 { (vertices ≤ places.most_vertices) × (count ≤ places.most_functions) }
    requires fact_2 { vertices * count ≤ length words.old }
    ensures { Copied table.now vertices count words.old words.new }
{
    for v in 0..vertices {
        copy_row(table, v, count, words, v * count);
    }
}

// Interference on checked numbers: the room for the words, and the sets.
pub fn interference_checked(l: &Numbers, words: &mut [u32]) -> Result<usize, Refusal>
    requires { Checked l.now }
    ensures { InterferenceSays (problem_of l.now) words.old words.new result }
{
    let vertices = lookup::vertex_count(l);
    let count = lookup::function_count(l);
    let need = vertices * count;
    if words.len() < need {
        return Err(Refusal::BufferTooShort(need as u64));
    }
    let mut table = [0u32; SET_WORDS];
    sets::sets(l, &mut table);
    copy_out(&table, vertices, count, words);
    Ok(need)
}

// **Interference.** Word v x functions + f of the buffer becomes the interference set of v and f, or the first refusal that applies leaves the
// buffer as it is.
pub fn interference(problem: Problem, words: &mut [u32]) -> Result<usize, Refusal>
    ensures interference_says { InterferenceSays problem words.old words.new result }
    ensures fills_words { FillsWords problem words.old words.new (interference_outcome result) }
{
    let numbers = numbers::numbers_of(problem);
    checks::judge(&numbers)?;
    interference_checked(&numbers, words)
}
