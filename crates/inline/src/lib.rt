// Inline: a drawn program, one graph per function, becomes one problem.
#![tactic(auto)]

ghost use Rattle.std.specs.Prelude.{◌≡◌, replicate};
ghost use Rattle.model.specs.File.{number_count};
ghost use Rattle.model.specs.Inlined.{inline_drawing};
ghost use Rattle.model.specs.Outcomes.{inline_outcome, inline_says};
ghost use Rattle.drawings.specs.Facts.{DrawingFacts};
ghost use Rattle.inline.specs.Steps.{Built, NumbersInlined};

use model::{Drawing, Numbers, Problem, Refusal, Row, places};

// 19, or the one problem, as its numbers.
fn build(d: &Drawing, numbers: &mut Numbers) -> Result<(), Refusal>
    requires fact_1 { DrawingFacts d.now }
    requires fact_2 { numbers.old ≡ replicate number_count 0 }
    ensures { Built d.now numbers.new result }
{
    let made = rows::rows_of(d);
    let count = made.count;
    if count > places::MOST_VERTICES {
        return Err(Refusal::CountPassed(0));
    }
    let all: &[Row] = &made.rows[..count];
    let none = count as u8;
    let mut table = [none; links::SPOT_COUNT];
    links::fill_places(all, &mut table);
    copies::put_head(d, numbers);
    copies::put_vertices(d, all, numbers);
    let edges = links::put_edges(d, all, &table, numbers);
    if edges > places::MOST_EDGES {
        return Err(Refusal::CountPassed(0));
    }
    numbers[places::EDGE_COUNT] = edges as u64;
    let loops = links::put_loops(d, all, &table, numbers);
    if loops > places::MOST_LOOPS {
        return Err(Refusal::CountPassed(0));
    }
    numbers[places::LOOP_COUNT] = loops as u64;
    numbers::put_edition(numbers);
    Ok(())
}

// Builds the one problem of a drawing in places that are all zero. Where Inline accepts, they are its problem's numbers, and pass the problem's own checks:
// an operation on the problem goes on with them.
pub fn inline_numbers(d: &Drawing, numbers: &mut Numbers) -> Result<(), Refusal>
    requires { numbers.old ≡ replicate number_count 0 }
    ensures { NumbersInlined d.now numbers.new result }
{
    drawing_checks::judge_drawn(d)?;
    build(d, numbers)
}

// **Inline.** The one problem of a drawing, with every spare place zero, or the first refusal that applies.
pub fn inline(drawing: &Drawing) -> Result<Problem, Refusal>
    ensures value { result ≡ inline_drawing drawing.now }
    ensures result_value { inline_outcome result ≡ inline_says drawing.now }
{
    let mut numbers = [0u64; places::END];
    inline_numbers(drawing, &mut numbers)?;
    Ok(records::problem_of(&numbers))
}
