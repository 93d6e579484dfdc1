// How an export's caller is told: the number returned is 0, and `answer` begins with the result's numbers; or it is the refusal's number, and answer[0] is
// the refusal's place.
#![tactic(auto)]

ghost use Rattle.std.specs.Prelude.{◌<◌, ◌≡◌, [], ◌∷◌};
ghost use Rattle.std.proofs.lemmas.List.Edits.{sets};
ghost use Rattle.model.specs.Numbers.{problem_of};
ghost use Rattle.model.specs.Evictions.{reason_number, reason_values};
ghost use Rattle.model.specs.Outcomes.{Results, refusal_outcome, write_outcome, interference_outcome, bound_outcome, run_outcome, eviction_outcome, word_outcome, remark_values, sentence_outcome};
ghost use Rattle.outcomes.specs.Outcomes.{status, answer_after, counts, number_outcome};

use model::{Bound, Eviction, Numbers, Reason, Refusal, Remark, Run, places};

// What a caller lends for the numbers of an answer.
pub type Answer = [u64; 4];

// Tells a refusal.
pub fn refuse(refusal: Refusal, answer: &mut Answer) -> u32
    ensures fact_1 { result ≡ status (refusal_outcome refusal) }
    ensures fact_2 { answer.new ≡ answer_after (refusal_outcome refusal) answer.old }
{
    answer[0] = refusal.place();
    refusal.number()
}

// Tells a result of four numbers.
fn tell_four(first: u64, second: u64, third: u64, fourth: u64, answer: &mut Answer) -> u32
    ensures value { result ≡ status (Results (first ∷ second ∷ third ∷ fourth ∷ [])) }
    ensures answer_after { answer.new ≡ answer_after (Results (first ∷ second ∷ third ∷ fourth ∷ [])) answer.old }
{
    answer[0] = first;
    answer[1] = second;
    answer[2] = third;
    answer[3] = fourth;
    0
}

// Tells the numbers of functions, vertices, edges and loops.
#[tactic(auto, unfolding(model::specs::Numbers::problem_of))]
pub fn tell_counts(l: &Numbers, answer: &mut Answer) -> u32
    ensures value { result ≡ status (Results (counts (problem_of l.now))) }
    ensures answer_after { answer.new ≡ answer_after (Results (counts (problem_of l.now))) answer.old }
{
    tell_four(
        l[places::FUNCTION_COUNT],
        l[places::VERTEX_COUNT],
        l[places::EDGE_COUNT],
        l[places::LOOP_COUNT],
        answer,
    )
}

// Tells a result of one number.
fn tell_number(found: Result<usize, Refusal>, answer: &mut Answer) -> u32
    ensures value { result ≡ status (number_outcome found) }
    ensures answer_after { answer.new ≡ answer_after (number_outcome found) answer.old }
{
    match found {
        Err(refusal) => refuse(refusal, answer),
        Ok(number) => {
            answer[0] = number as u64;
            0
        }
    }
}

// Tells what Write gave.
pub fn tell_written(written: Result<usize, Refusal>, answer: &mut Answer) -> u32
    ensures fact_1 { result ≡ status (write_outcome written) }
    ensures fact_2 { answer.new ≡ answer_after (write_outcome written) answer.old }
{
    tell_number(written, answer)
}

// Tells what Interference gave.
pub fn tell_filled(filled: Result<usize, Refusal>, answer: &mut Answer) -> u32
    ensures fact_1 { result ≡ status (interference_outcome filled) }
    ensures fact_2 { answer.new ≡ answer_after (interference_outcome filled) answer.old }
{
    tell_number(filled, answer)
}

// Tells what Bound gave.
pub fn tell_bounded(bounded: Result<Bound, Refusal>, answer: &mut Answer) -> u32
    ensures fact_1 { result ≡ status (bound_outcome bounded) }
    ensures fact_2 { answer.new ≡ answer_after (bound_outcome bounded) answer.old }
{
    match bounded {
        Err(refusal) => refuse(refusal, answer),
        Ok(b) => tell_four(b.need.0, b.contested as u64, b.first.0, b.bound.0, answer),
    }
}

// Tells what Run gave.
pub fn tell_ran(ran: Result<Run, Refusal>, answer: &mut Answer) -> u32
    ensures fact_1 { result ≡ status (run_outcome ran) }
    ensures fact_2 { answer.new ≡ answer_after (run_outcome ran) answer.old }
{
    match ran {
        Err(refusal) => refuse(refusal, answer),
        Ok(run) => {
            answer[0] = run.cycles.0;
            answer[1] = run.loads;
            0
        }
    }
}

// Tells a reason, from a place of `answer` on: its number, and the function that it names.
fn tell_reason(reason: Reason, at: usize, answer: &mut Answer)
    requires { at < 3 }
    ensures { answer.new ≡ sets answer.old at (reason_number reason ∷ reason_values reason) }
{
    match reason {
        Reason::EveryVisit(function) => {
            answer[at] = 1;
            answer[at + 1] = function as u64;
        }
        Reason::FirstLoad => {
            answer[at] = 2;
        }
        Reason::Never => {
            answer[at] = 3;
        }
    }
}

// Tells what Eviction gave.
pub fn tell_evicted(evicted: Result<Eviction, Refusal>, answer: &mut Answer) -> u32
    ensures fact_1 { result ≡ status (eviction_outcome evicted) }
    ensures fact_2 { answer.new ≡ answer_after (eviction_outcome evicted) answer.old }
{
    match evicted {
        Err(refusal) => refuse(refusal, answer),
        Ok(eviction) => {
            let reason = eviction.reason;
            answer[0] = eviction.count as u64;
            tell_reason(reason, 1, answer);
            0
        }
    }
}

// Tells what Word gave.
pub fn tell_worded(worded: Result<usize, Refusal>, answer: &mut Answer) -> u32
    ensures fact_1 { result ≡ status (word_outcome worded) }
    ensures fact_2 { answer.new ≡ answer_after (word_outcome worded) answer.old }
{
    tell_number(worded, answer)
}

// Tells a remark: 0, and the refusal's number and its place; or the reason's number, and the function that it names.
fn tell_remark(remark: Remark, answer: &mut Answer)
    ensures { answer.new ≡ sets answer.old 0 (remark_values remark) }
{
    match remark {
        Remark::Refused(refusal) => {
            answer[0] = 0;
            answer[1] = refusal.number() as u64;
            answer[2] = refusal.place();
        }
        Remark::Explained(reason) => tell_reason(reason, 0, answer),
    }
}

// Tells what Read-sentence gave.
pub fn tell_sentence(read: Result<Remark, Refusal>, answer: &mut Answer) -> u32
    ensures fact_1 { result ≡ status (sentence_outcome read) }
    ensures fact_2 { answer.new ≡ answer_after (sentence_outcome read) answer.old }
{
    match read {
        Err(refusal) => refuse(refusal, answer),
        Ok(remark) => {
            tell_remark(remark, answer);
            0
        }
    }
}
