// Runs of items of two numbers: vertices, in no order, and edges that are not a byte a number. As with edges that are, those that are sure to pass
// are taken at once, behind one another and before the list's last; what ends a run is left to the steps from field to field.
#![tactic(auto)]

ghost use Rattle.std.specs.Prelude.{◌≡◌, true};
ghost use Rattle.fields.specs.Rows.{entries};
ghost use Rattle.edge_runs.specs.Edges.{Readable, PairsRead, AtItem, ItemTaken};
ghost use Rattle.pair_runs.specs.Pairs.{Item, AtPair};

use fields::Table;
use model::{Field, Numbers, places, rows};

// How many items a run has, and the position behind it.
#[derive(Clone, Copy)]
pub struct Run {
    pub items: usize,
    pub at: usize,
}

// Whether a row is the first number of a vertex or an edge.
fn is_item(row: usize) -> bool
    ensures { result ≡ true → Item row }
{
    row == rows::FUNCTION || row == rows::FROM
}

// Reads the vertex at a field that others follow, and answers the position behind it; or answers 0 and reads nothing, which is always safe.
#[tactic(auto, using(edge_runs::proofs::Items::none_taken))]
fn read_pair(table: &Table, bytes: &[u8], numbers: &mut Numbers, at: usize, field: Field) -> usize
    requires table_value { table.now ≡ entries }
    requires at_pair { AtPair bytes.now at field numbers.old }
    ensures { ItemTaken bytes.now at field numbers.old numbers.new result }
{
    let first = spelling::read_number(bytes, at);
    let Ok((a, middle)) = first else {
        return 0;
    };
    let second = spelling::read_number(bytes, middle);
    let Ok((b, next)) = second else {
        return 0;
    };
    if !field_rules::in_range(table, numbers, field, a) {
        return 0;
    }
    let place = field.place;
    let behind = Field {
        row: field.row + 1,
        place: place + 1,
        ..field
    };
    if !field_rules::in_range(table, numbers, behind, b) {
        return 0;
    }
    numbers[place] = a;
    numbers[place + 1] = b;
    next
}

// The same of a vertex or an edge.
fn read_item(table: &Table, bytes: &[u8], numbers: &mut Numbers, at: usize, field: Field) -> usize
    requires table_value { table.now ≡ entries }
    requires at_item { AtItem bytes.now at field numbers.old × Item field.row }
    ensures { ItemTaken bytes.now at field numbers.old numbers.new result }
{
    if field.row == rows::FROM {
        return edge_runs::read_edge(bytes, numbers, at, field);
    }
    read_pair(table, bytes, numbers, at, field)
}

// Reads a run of vertices or of edges from the field on.
#[tactic(auto, using(edge_runs::proofs::Items::none_read))]
fn read_items(table: &Table, bytes: &[u8], numbers: &mut Numbers, at: usize, field: Field) -> Run
    requires table_value { table.now ≡ entries }
    requires readable { Readable bytes.now at field numbers.old }
    ensures { PairsRead bytes.now at field numbers.old numbers.new result.items result.at }
{
    if !is_item(field.row) {
        return Run { items: 0, at };
    }
    let mut pos = at;
    for items in 0..field.left {
        let here = edge_runs::past_pairs(field, items);
        let next = read_item(table, bytes, numbers, pos, here);
        if next == 0 {
            return Run { items, at: pos };
        }
        pos = next;
    }
    Run {
        items: field.left,
        at: pos,
    }
}

// Reads a run of items of two numbers from the field on. Edges are read a byte a number as long as they are so, and then however they are spelt.
pub fn read_run(table: &Table, bytes: &[u8], numbers: &mut Numbers, at: usize, field: Field) -> Run
    requires table_value { table.now ≡ entries }
    requires readable { Readable bytes.now at field numbers.old }
    ensures { PairsRead bytes.now at field numbers.old numbers.new result.items result.at }
{
    if field.row == rows::FROM {
        let edges = edge_runs::read_edges(bytes, numbers, at, field);
        let behind = edge_runs::past_pairs(field, edges);
        let rest = read_items(
            table,
            bytes,
            numbers,
            at + places::EDGE_WIDTH * edges,
            behind,
        );
        return Run {
            items: edges + rest.items,
            at: rest.at,
        };
    }
    read_items(table, bytes, numbers, at, field)
}
