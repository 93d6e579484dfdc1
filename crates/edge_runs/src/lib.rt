// Runs of edges. Most of a large file is edges, so those that are sure to pass are taken at once: behind the list's first edge and before its last, in range and
// ascending. Most are a byte a number; padded ones are read one by one. What ends a run is left to the steps from field to field.
#![tactic(auto)]

ghost use Rattle.std.specs.Prelude.{◌≡◌, ◌+◌, ◌*◌, ◌≤◌, ◌<◌, true};
ghost use Rattle.model.specs.File.{number_count};
ghost use Rattle.model.specs.Places as spot;
ghost use Rattle.fields.specs.Valid.{Valid};
ghost use Rattle.edge_runs.specs.Edges.{past_pairs, Opens, second_edge, Follows, Readable, AtItem, ItemTaken, EdgesRead, EdgesChecked};

use field_rules::EDGE_SPAN;
use model::places::EDGE_WIDTH;
use model::{Field, Numbers, places, rows};

// The place where the second edge starts.
const SECOND: usize = places::FROM + EDGE_WIDTH;

const MOST_VERTICES: u64 = places::MOST_VERTICES as u64;

// The field behind a run of edges, or of other items of two numbers.
pub fn past_pairs(c: Field, run: usize) -> Field
    requires { (run ≤ c.left) × (c.place + spot.edge_width * run < number_count) }
    ensures { result ≡ past_pairs c run }
{
    Field {
        place: c.place + EDGE_WIDTH * run,
        left: c.left - run,
        ..c
    }
}

// Whether a run may start at a field. No is always a safe answer, here and below: the steps go on from there.
fn opens(field: Field, vertices: u64) -> bool
    ensures { result ≡ true → Opens field vertices }
{
    field.row == rows::FROM && SECOND <= field.place && vertices <= MOST_VERTICES
}

// Whether an edge may stand at a place: behind the edge before it, both its numbers vertices.
fn follows(numbers: &Numbers, place: usize, vertices: u64, from: u64, to: u64) -> bool
    requires { (second_edge ≤ place) × (place < number_count) }
    ensures { result ≡ true → Follows numbers.now place vertices from to }
{
    let before = place - EDGE_WIDTH;
    from < vertices
        && to < vertices
        && field_rules::edge_before(numbers[before], numbers[before + EDGE_SPAN], from, to)
}

// Reads a run of edges that are a byte a number from the field on, and answers how many it has.
pub fn read_edges(bytes: &[u8], numbers: &mut Numbers, at: usize, field: Field) -> usize
    requires { Readable bytes.now at field numbers.old }
    ensures { EdgesRead bytes.now at field numbers.old numbers.new result }
{
    let vertices = numbers[places::VERTEX_COUNT];
    if !opens(field, vertices) {
        return 0;
    }
    for run in 0..field.left {
        let pos = at + EDGE_WIDTH * run;
        let place = field.place + EDGE_WIDTH * run;
        if bytes.len() < pos + EDGE_WIDTH {
            return run;
        }
        let from = bytes[pos] as u64;
        let to = bytes[pos + EDGE_SPAN] as u64;
        if !follows(numbers, place, vertices, from, to) {
            return run;
        }
        numbers[place] = from;
        numbers[place + EDGE_SPAN] = to;
    }
    field.left
}

// Reads the edge at a field that others follow, however its numbers are spelt, and answers the position behind it; or answers 0 and reads nothing.
#[tactic(auto, using(crate::proofs::EdgesRead::edge_fits, crate::proofs::Items::none_taken))]
pub fn read_edge(bytes: &[u8], numbers: &mut Numbers, at: usize, field: Field) -> usize
    requires { AtItem bytes.now at field numbers.old }
    ensures { ItemTaken bytes.now at field numbers.old numbers.new result }
{
    let vertices = numbers[places::VERTEX_COUNT];
    if !opens(field, vertices) {
        return 0;
    }
    let first = spelling::read_number(bytes, at);
    let Ok((from, middle)) = first else {
        return 0;
    };
    let second = spelling::read_number(bytes, middle);
    let Ok((to, next)) = second else {
        return 0;
    };
    let place = field.place;
    if !follows(numbers, place, vertices, from, to) {
        return 0;
    }
    numbers[place] = from;
    numbers[place + EDGE_SPAN] = to;
    next
}

// As `read_edges`, of numbers that are there already: how many edges from the field on are sure to pass.
pub fn check_edges(numbers: &Numbers, field: Field) -> usize
    requires { Valid field }
    ensures { EdgesChecked field numbers.now result }
{
    let vertices = numbers[places::VERTEX_COUNT];
    if !opens(field, vertices) {
        return 0;
    }
    for run in 0..field.left {
        let place = field.place + EDGE_WIDTH * run;
        let from = numbers[place];
        let to = numbers[place + EDGE_SPAN];
        if !follows(numbers, place, vertices, from, to) {
            return run;
        }
    }
    field.left
}
