// What may stand at a field of the problem file: the range of a number, and the order of a list's items.
#![tactic(auto)]

ghost use Rattle.std.specs.Prelude.{◌≡◌, ◌<◌};
ghost use Rattle.fields.specs.Valid.{Placed};
ghost use Rattle.fields.specs.Rows.{entries};
ghost use Rattle.model.specs.Rows;
ghost use Rattle.model.specs.File.{in_range, below_count, from_header, zero_unwritten, edge_before};

use fields::Table;
use model::{Field, Numbers, places, rows};

// How far behind an item's first number its last stands, and behind the first number of the item before.
pub const EDGE_SPAN: usize = places::TO - places::FROM;

const EDGE_BEFORE_SPAN: usize = places::EDGE_WIDTH + EDGE_SPAN;

const LOOP_SPAN: usize = places::BOUND - places::HEADER;

const LOOP_BEFORE_SPAN: usize = places::LOOP_WIDTH + LOOP_SPAN;

// How far behind a loop's header its last vertex stands.
const LAST_SPAN: usize = places::LAST - places::HEADER;

// Where a count read earlier narrows the row: v stays below it.
fn below_count(table: &Table, l: &Numbers, row: usize, v: u64) -> bool
    requires table_value { table.now ≡ entries }
    requires row_bound { row < Rows.end }
    ensures { result ≡ below_count l.now row v }
{
    let over = fields::look_up(table, row, fields::UNDER);
    if over == 0 {
        return true;
    }
    v < l[over]
}

// A loop's last vertex is not below its header.
fn from_header(l: &Numbers, c: Field, v: u64) -> bool
    requires { Placed c }
    ensures { result ≡ from_header l.now c v }
{
    if c.row == rows::LAST {
        let header = c.place - LAST_SPAN;
        return l[header] <= v;
    }
    true
}

// What is not written is 0.
fn zero_unwritten(l: &Numbers, c: Field, v: u64) -> bool
    ensures { result ≡ zero_unwritten l.now c v }
{
    if editions::unwritten(l[places::EDITION], c) {
        return v == 0;
    }
    true
}

// Whether v may stand at c, where l has the numbers before it.
pub fn in_range(table: &Table, l: &Numbers, c: Field, v: u64) -> bool
    requires table_value { table.now ≡ entries }
    requires placed { Placed c }
    ensures { result ≡ in_range l.now c v }
{
    if v < fields::look_up(table, c.row, fields::LEAST) as u64 {
        return false;
    }
    if (fields::look_up(table, c.row, fields::GREATEST) as u64) < v {
        return false;
    }
    if !below_count(table, l, c.row, v) {
        return false;
    }
    if !from_header(l, c, v) {
        return false;
    }
    zero_unwritten(l, c, v)
}

// Edges ascend strictly by (from, to).
pub fn edge_before(from: u64, to: u64, from2: u64, to2: u64) -> bool
    ensures { result ≡ edge_before from to from2 to2 }
{
    if from < from2 {
        return true;
    }
    if from == from2 {
        return to < to2;
    }
    false
}

// Whether the item whose last number stands at c may follow the item before it.
fn item_ascends(table: &Table, l: &Numbers, c: Field) -> bool
    requires table_value { table.now ≡ entries }
    requires placed { Placed c }
    ensures { result ≡ Rattle.model.specs.File.ascends l.now c }
{
    let k = c.place;
    if k == fields::look_up(table, c.row, fields::BASE) {
        return true;
    }
    if c.row == rows::TO {
        return edge_before(
            l[k - EDGE_BEFORE_SPAN],
            l[k - places::EDGE_WIDTH],
            l[k - EDGE_SPAN],
            l[k],
        );
    }
    if c.row == rows::BOUND {
        return l[k - LOOP_BEFORE_SPAN] < l[k - LOOP_SPAN];
    }
    true
}

// The same at any field: only an item's last number can break the order.
pub fn ascends(table: &Table, l: &Numbers, c: Field) -> bool
    requires table_value { table.now ≡ entries }
    requires placed { Placed c }
    ensures { result ≡ Rattle.model.specs.File.ascends l.now c }
{
    if fields::look_up(table, c.row, fields::KIND) != fields::LAST {
        return true;
    }
    item_ascends(table, l, c)
}
