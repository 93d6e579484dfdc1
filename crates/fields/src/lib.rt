// The field table of the problem file, and going through its fields in order. Reading and writing alike use these.
#![tactic(auto)]

ghost use Rattle.std.specs.Prelude.{◌≡◌, ◌+◌, ◌<◌, get_or};
ghost use Rattle.fields.specs.Valid.{Placed};
ghost use Rattle.fields.specs.Rows.{columns, entry, entries};
ghost use Rattle.model.specs.Rows;
ghost use Rattle.model.specs.File.{first_field, next_field, after_count, after_item, item_start};

use model::limits::{
    FIRST_EDITION, MOST_BYTES, MOST_CHECK, MOST_CYCLES, MOST_VISITS, SECOND_EDITION,
};
use model::places::{MOST_EDGES, MOST_FUNCTIONS, MOST_LOOPS, MOST_VERTICES};
use model::{Field, Numbers, places, rows};

// The columns of the field table. First the least and the greatest value of a row.
pub const LEAST: usize = 0;

pub const GREATEST: usize = 1;

// The place of the row's first number.
pub const BASE: usize = 2;

// What the row is, one of the kinds below.
pub const KIND: usize = 3;

// Where the count of an empty list leads, and an item's last number where another item follows.
const JUMP: usize = 4;

// The place of the count that the row's numbers stay below, or 0.
pub const UNDER: usize = 5;

const COLUMNS: usize = UNDER + 1;

// The kinds: a number by itself, the count of a list, or of an item the first number, one between or the last.
const ALONE: usize = 0;

const COUNT: usize = 1;

const FIRST: usize = 2;

const BETWEEN: usize = 3;

pub const LAST: usize = 4;

// Where the lists' counts stand.
const FUNCTIONS: usize = places::FUNCTION_COUNT;

const VERTICES: usize = places::VERTEX_COUNT;

const EDGES: usize = places::EDGE_COUNT;

const LOOPS: usize = places::LOOP_COUNT;

// The rows, in file order, and the end of the file.
pub type Table = [[usize; COLUMNS]; rows::END + 1];

const TABLE: Table = [
    // least, greatest, base, kind, jump, under
    [FIRST_EDITION, SECOND_EDITION, places::EDITION, ALONE, 0, 0],
    [1, MOST_BYTES, places::SCRATCHPAD, ALONE, 0, 0],
    [1, MOST_FUNCTIONS, FUNCTIONS, COUNT, rows::VERTEX_COUNT, 0],
    [1, MOST_BYTES, places::SIZE, FIRST, 0, 0],
    [0, MOST_CYCLES, places::LOAD, BETWEEN, 0, 0],
    [0, MOST_CHECK, places::CHECK, LAST, rows::SIZE, 0],
    [1, MOST_VERTICES, VERTICES, COUNT, rows::EDGE_COUNT, 0],
    [0, MOST_FUNCTIONS - 1, places::FUNCTION, FIRST, 0, FUNCTIONS],
    [0, MOST_CYCLES, places::COST, LAST, rows::FUNCTION, 0],
    [0, MOST_EDGES, EDGES, COUNT, rows::LOOP_COUNT, 0],
    [0, MOST_VERTICES - 1, places::FROM, FIRST, 0, VERTICES],
    [0, MOST_VERTICES - 1, places::TO, LAST, rows::FROM, VERTICES],
    [0, MOST_LOOPS, LOOPS, COUNT, rows::END, 0],
    [0, MOST_VERTICES - 1, places::HEADER, FIRST, 0, VERTICES],
    [0, MOST_VERTICES - 1, places::LAST, BETWEEN, 0, VERTICES],
    [1, MOST_VISITS, places::BOUND, LAST, rows::HEADER, 0],
    [0, 0, places::END, ALONE, 0, 0],
];

// The table in memory: who goes through the fields has it made once, and lends it to every step.
pub fn table() -> Table
    ensures { result ≡ entries }
{
    TABLE
}

// The number of a row in a column.
pub fn look_up(table: &Table, row: usize, column: usize) -> usize
    requires table_value { table.now ≡ entries }
    requires row_bound { row < Rows.end + 1 }
    requires column_lt_columns { column < columns }
    ensures { result ≡ get_or (entry row) column 0 }
{
    table[row][column]
}

// The file's first field.
pub fn first_field() -> Field
    ensures { result ≡ first_field }
{
    Field {
        row: rows::EDITION,
        place: places::EDITION,
        left: 0,
    }
}

// The field after a list's count: its first item's first number, or where an empty list leads.
fn after_count(table: &Table, c: Field, v: u64) -> Field
    requires table_value { table.now ≡ entries }
    requires placed { Placed c }
    ensures { result ≡ after_count c v }
{
    if v == 0 {
        let row = look_up(table, c.row, JUMP);
        return Field {
            row: row,
            place: look_up(table, row, BASE),
            left: 0,
        };
    }
    Field {
        row: c.row + 1,
        place: c.place + 1,
        left: (v - 1) as usize,
    }
}

// The field after an item's last number: the next item's first, or what follows the list.
fn after_item(table: &Table, c: Field) -> Field
    requires table_value { table.now ≡ entries }
    requires placed { Placed c }
    ensures { result ≡ after_item c }
{
    if c.left == 0 {
        let row = c.row + 1;
        return Field {
            row: row,
            place: look_up(table, row, BASE),
            left: 0,
        };
    }
    Field {
        row: look_up(table, c.row, JUMP),
        place: c.place + 1,
        left: c.left - 1,
    }
}

// The field after c, at which v stands.
pub fn next_field(table: &Table, c: Field, v: u64) -> Field
    requires table_value { table.now ≡ entries }
    requires placed { Placed c }
    ensures { result ≡ next_field c v }
{
    let kind = look_up(table, c.row, KIND);
    if kind == COUNT {
        return after_count(table, c, v);
    }
    if kind == LAST {
        return after_item(table, c);
    }
    Field {
        row: c.row + 1,
        place: c.place + 1,
        left: c.left,
    }
}

// Where the item that c belongs to starts, if c stands at a position and `start` was said of the field before.
pub fn item_start(table: &Table, c: Field, at: usize, start: usize) -> usize
    requires table_value { table.now ≡ entries }
    requires row_bound { c.row < Rows.end }
    ensures { result ≡ item_start c at start }
{
    if look_up(table, c.row, KIND) == FIRST {
        return at;
    }
    start
}
