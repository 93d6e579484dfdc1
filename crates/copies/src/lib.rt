// An inlined drawing's functions and vertices among the numbers of its one problem: the functions as drawn, and each row's function and own cost.
#![tactic(auto)]

ghost use Rattle.std.specs.Prelude.{◌≡◌, ◌≤◌};
ghost use mathlib.Core.List.{flat_map};
ghost use Rattle.std.proofs.lemmas.List.Edits.{sets};
ghost use Rattle.model.specs.Places as spot;
ghost use Rattle.model.specs.Numbers.{function_numbers, table};
ghost use Rattle.model.specs.Drawings.{drawn_function, drawn_item};
ghost use Rattle.drawings.specs.Facts.{DrawingFacts};
ghost use Rattle.copies.specs.Parts.{head_numbers, row_numbers, Known, Copied};

use model::{Bytes, Cycles, Drawing, Function, Numbers, Row, Vertex, drawn, places};
use numbers::item::Item;

// Each function as drawn, item by item.
fn put_functions(d: &Drawing, count: usize, numbers: &mut Numbers)
    requires { count ≤ spot.most_functions }
    ensures { numbers.new ≡ sets numbers.old spot.size (flat_map function_numbers (table count (drawn_function d.now))) }
{
    for i in 0..count {
        let function = Function {
            size: Bytes(drawings::drawn_at(d, i, drawn::SIZE) as u64),
            load: Cycles(drawings::drawn_at(d, i, drawn::LOAD) as u64),
            check: Cycles(drawings::drawn_at(d, i, drawn::CHECK) as u64),
        };
        function.put(numbers, places::SIZE + places::FUNCTION_WIDTH * i);
    }
}

// The scratchpad size, and the functions as drawn: also those that no row is of.
pub fn put_head(d: &Drawing, numbers: &mut Numbers)
    requires { DrawingFacts d.now }
    ensures { numbers.new ≡ sets numbers.old spot.scratchpad (head_numbers d.now) }
{
    numbers[places::SCRATCHPAD] = drawings::scratchpad(d) as u64;
    let count = drawings::function_count(d);
    numbers[places::FUNCTION_COUNT] = count as u64;
    put_functions(d, count, numbers);
}

// The own cost of a row's vertex, in the graph that it was copied from.
fn own_cost(d: &Drawing, r: Row) -> usize
    requires { Known r }
    ensures { result ≡ drawn_item d.now r.function spot.cost spot.vertex_width r.vertex }
{
    let f = r.function;
    let v = r.vertex;
    drawings::drawn_at(d, f, drawn::COST + places::VERTEX_WIDTH * v)
}

// The number of rows, and each row's function and own cost.
pub fn put_vertices(d: &Drawing, rows: &[Row], numbers: &mut Numbers)
    requires { Copied d.now rows.now }
    ensures { numbers.new ≡ sets numbers.old spot.vertex_count (row_numbers d.now rows.now) }
{
    numbers[places::VERTEX_COUNT] = rows.len() as u64;
    for (i, r) in rows.iter().enumerate() {
        let vertex = Vertex {
            function: r.function,
            cost: Cycles(own_cost(d, *r) as u64),
        };
        vertex.put(numbers, places::FUNCTION + places::VERTEX_WIDTH * i);
    }
}
