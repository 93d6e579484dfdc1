// The library as its callers see it: an operation a function. Each answers 0, or the refusal's number with its place in answer[0]. C calls them through examiner_c.
#![tactic(auto)]

ghost use Rattle.std.specs.Prelude.{◌≡◌, length};
ghost use Rattle.model.specs.Operations.{written_buffer};
ghost use Rattle.outcomes.specs.Outcomes.{status, answer_after, Right};
ghost use Rattle.examiner.specs.Exports.{read_told, write_told, write_out, fields_problem, fields_told, InterferenceTold, BoundTold, run_told, run_held, inline_told, inline_out, EvictionTold, refusal_told, refusal_text, reason_told, reason_text};
ghost use Rattle.model.specs.Sentences.{worded_buffer};
ghost use Rattle.model.specs.Outcomes.{word_says, Understood};

use model::{Drawing, Reason, Refusal, Remark, limits, places};
use outcomes::Answer;

// **Read**: the numbers of functions, vertices, edges and loops.
pub fn examiner_read(file: &[u8], answer: &mut Answer) -> u32
    ensures value { result ≡ status (read_told file.now) }
    ensures answer_after { answer.new ≡ answer_after (read_told file.now) answer.old }
{
    let mut numbers = [0u64; places::END];
    if let Err(refusal) = file::read_numbers(file, &mut numbers) {
        return outcomes::refuse(refusal, answer);
    }
    outcomes::tell_counts(&numbers, answer)
}

// **Write** of the problem that the file holds: the bytes written, and the file in `out`.
pub fn examiner_write(file: &[u8], out: &mut [u8], answer: &mut Answer) -> u32
    ensures value { result ≡ status (write_told file.now (length out.old)) }
    ensures answer_after { answer.new ≡ answer_after (write_told file.now (length out.old)) answer.old }
    ensures out_after { out.new ≡ write_out file.now out.old }
{
    let mut numbers = [0u64; places::END];
    if let Err(refusal) = file::read_numbers(file, &mut numbers) {
        return outcomes::refuse(refusal, answer);
    }
    let problem = records::problem_of(&numbers);
    outcomes::tell_written(file::write(problem, out), answer)
}

// **Write** of any record, lawful or not, given as its numbers without the edition: the bytes written, and the file in `out`.
pub fn examiner_write_fields(
    fields: &[u32; places::FIELD_COUNT],
    out: &mut [u8],
    answer: &mut Answer,
) -> u32
    ensures value { result ≡ status (fields_told fields.now (length out.old)) }
    ensures answer_after { answer.new ≡ answer_after (fields_told fields.now (length out.old)) answer.old }
    ensures out_after { out.new ≡ written_buffer (fields_problem fields.now) out.old }
{
    let numbers = numbers::with_edition(*fields);
    let problem = records::problem_of(&numbers);
    outcomes::tell_written(file::write(problem, out), answer)
}

// **Interference** of the problem that the file holds: the words filled.
pub fn examiner_interference(file: &[u8], words: &mut [u32], answer: &mut Answer) -> u32
    ensures { Right (InterferenceTold file.now words.old words.new) answer.old answer.new result }
{
    let mut numbers = [0u64; places::END];
    if let Err(refusal) = file::read_numbers(file, &mut numbers) {
        return outcomes::refuse(refusal, answer);
    }
    let filled = interference::interference_checked(&numbers, words);
    outcomes::tell_filled(filled, answer)
}

// **Bound** of the problem that the file holds, with a layout: bytes needed, contested vertices, what first loads add, bound.
pub fn examiner_bound(file: &[u8], layout: &[u8], answer: &mut Answer) -> u32
    ensures { Right (BoundTold file.now layout.now) answer.old answer.new result }
{
    let mut numbers = [0u64; places::END];
    if let Err(refusal) = file::read_numbers(file, &mut numbers) {
        return outcomes::refuse(refusal, answer);
    }
    let bounded = bound::bound_checked(&numbers, layout);
    outcomes::tell_bounded(bounded, answer)
}

// **Run** of a walk in the problem that the file holds, with a layout: cycles and loads, and the function held in each region.
pub fn examiner_run(
    file: &[u8],
    layout: &[u8],
    walk: &[u32],
    held: &mut [u8; limits::MOST_REGIONS],
    answer: &mut Answer,
) -> u32
    ensures value { result ≡ status (run_told file.now layout.now walk.now) }
    ensures answer_after { answer.new ≡ answer_after (run_told file.now layout.now walk.now) answer.old }
    ensures held_after { held.new ≡ run_held file.now layout.now walk.now held.old }
{
    let mut numbers = [0u64; places::END];
    if let Err(refusal) = file::read_numbers(file, &mut numbers) {
        return outcomes::refuse(refusal, answer);
    }
    let ran = run::run_checked(&numbers, layout, walk, held);
    outcomes::tell_ran(ran, answer)
}

// **Inline** of a drawing: the bytes written, and the file of its one problem in `out`.
pub fn examiner_inline(drawing: &Drawing, out: &mut [u8], answer: &mut Answer) -> u32
    ensures value { result ≡ status (inline_told drawing.now (length out.old)) }
    ensures answer_after { answer.new ≡ answer_after (inline_told drawing.now (length out.old)) answer.old }
    ensures out_after { out.new ≡ inline_out drawing.now out.old }
{
    let mut numbers = [0u64; places::END];
    if let Err(refusal) = inline::inline_numbers(drawing, &mut numbers) {
        return outcomes::refuse(refusal, answer);
    }
    outcomes::tell_written(file::write_checked(&numbers, out), answer)
}

// **Eviction** of a vertex in the problem that the file holds, with a layout: the walk's entries, the reason's number and the function that it names, and the walk
// at the front of `walk`.
pub fn examiner_eviction(
    file: &[u8],
    layout: &[u8],
    vertex: u64,
    walk: &mut [u32],
    answer: &mut Answer,
) -> u32
    ensures { Right (EvictionTold file.now layout.now vertex walk.old walk.new) answer.old answer.new result }
{
    let mut numbers = [0u64; places::END];
    if let Err(refusal) = file::read_numbers(file, &mut numbers) {
        return outcomes::refuse(refusal, answer);
    }
    let evicted = eviction::eviction_checked(&numbers, layout, vertex, walk);
    outcomes::tell_evicted(evicted, answer)
}

// Words a remark, and tells the bytes written.
fn word_told(remark: Remark, text: &mut [u8], answer: &mut Answer) -> u32
    ensures value { result ≡ status (word_says remark (length text.old)) }
    ensures answer_after { answer.new ≡ answer_after (word_says remark (length text.old)) answer.old }
    ensures text_after { text.new ≡ worded_buffer remark text.old }
{
    outcomes::tell_worded(sentences::word(remark, text), answer)
}

// **Word** of the refusal with a number and a place: the bytes written, and the sentence in `text`. A number that is no refusal's is 3 at 0.
pub fn examiner_word_refusal(number: u32, place: u64, text: &mut [u8], answer: &mut Answer) -> u32
    ensures value { result ≡ status (refusal_told number place (length text.old)) }
    ensures answer_after { answer.new ≡ answer_after (refusal_told number place (length text.old)) answer.old }
    ensures text_after { text.new ≡ refusal_text number place text.old }
{
    if number < 1 {
        return outcomes::refuse(Refusal::OutOfRange(0), answer);
    }
    if limits::LAST_REFUSAL < number {
        return outcomes::refuse(Refusal::OutOfRange(0), answer);
    }
    let refusal = Refusal::numbered(number, place);
    word_told(Remark::Refused(refusal), text, answer)
}

// **Word** of the reason with a number, which names a function if it is 1: the bytes written, and the sentence in `text`. A number that is no reason's is 3 at 0.
pub fn examiner_word_reason(reason: u32, function: u64, text: &mut [u8], answer: &mut Answer) -> u32
    ensures value { result ≡ status (reason_told reason function (length text.old)) }
    ensures answer_after { answer.new ≡ answer_after (reason_told reason function (length text.old)) answer.old }
    ensures text_after { text.new ≡ reason_text reason function text.old }
{
    match reason {
        1 => {
            let visit = Reason::EveryVisit(function as usize);
            word_told(Remark::Explained(visit), text, answer)
        }
        2 => word_told(Remark::Explained(Reason::FirstLoad), text, answer),
        3 => word_told(Remark::Explained(Reason::Never), text, answer),
        _ => outcomes::refuse(Refusal::OutOfRange(0), answer),
    }
}

// **Read-sentence**: 0, the refusal's number and its place; or the reason's number and the function that it names.
pub fn examiner_read_sentence(text: &[u8], answer: &mut Answer) -> u32
    ensures { Right (Understood text.now) answer.old answer.new result }
{
    outcomes::tell_sentence(sentences::read_sentence(text), answer)
}
