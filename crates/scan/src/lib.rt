// The problem file read field by field into a problem's numbers.
#![tactic(auto)]

ghost use Rattle.std.specs.Prelude.{◌≡◌, length, ℕ, ◌<◌, true};
ghost use Rattle.model.specs.File.{number_count, first_field, scanned, read_from};
ghost use Rattle.model.specs.File.{next_field, item_start, read_field};
ghost use Rattle.model.specs.Rows;
ghost use Rattle.fields.specs.Rows.{entries};
ghost use Rattle.fields.specs.Valid.{Placed};
ghost use Rattle.edge_runs.specs.Edges.{Readable};
ghost use Rattle.scan.specs.Answers.{misread, or_refused};
ghost use Rattle.scan.specs.Functions.{FunctionField, Further};

use fields::Table;
use model::{Field, Misread, Numbers, Refusal, places, rows};

// 1, the bytes end before a number does; 2, a misspelt number.
fn refused(why: Misread, size: usize, at: usize) -> Refusal
    ensures { result ≡ misread why size at }
{
    match why {
        Misread::Ended => Refusal::EndsEarly(size as u64),
        Misread::Misspelt => Refusal::Misspelt(at as u64),
    }
}

// The number at a field, and the position after it; or 1 or 2.
fn read_number(edition: u64, bytes: &[u8], at: usize, field: Field) -> Result<(u64, usize), Refusal>
    ensures { result ≡ or_refused (read_field edition bytes.now at field) (length bytes.now) at }
{
    editions::read_field(edition, bytes, at, field).map_err(|why| refused(why, bytes.len(), at))
}

// How far the fields are read: the next field, its position, and where its item started.
#[derive(Clone, Copy)]
struct Far {
    field: Field,
    at: usize,
    start: usize,
}

// Whether a field is a function's, with other functions to follow.
fn in_functions(field: Field) -> bool
    ensures { result ≡ true → FunctionField field }
{
    rows::SIZE <= field.row && field.row <= rows::CHECK && 0 < field.left
}

// What the field table says of such a field, without looking it up: the field after it, and where its item starts.
fn after_function_field(c: Field) -> Field
    requires fact_1 { FunctionField c }
    requires fact_2 { Placed c }
    ensures { (v : ℕ) → result ≡ next_field c v }
{
    if c.row == rows::CHECK {
        return Field {
            row: rows::SIZE,
            place: c.place + 1,
            left: c.left - 1,
        };
    }
    Field {
        row: c.row + 1,
        place: c.place + 1,
        ..c
    }
}

fn function_start(c: Field, at: usize, start: usize) -> usize
    requires { FunctionField c }
    ensures { result ≡ item_start c at start }
{
    if c.row == rows::SIZE { at } else { start }
}

// Reads the fields of functions, up to the list's last one, as long as they are sure to pass. What ends that is left to the steps from field to field.
fn read_functions(table: &Table, bytes: &[u8], numbers: &mut Numbers, from: Far) -> Far
    requires table_value { table.now ≡ entries }
    requires readable_1 { Readable bytes.now from.at from.field numbers.old }
    requires readable_2 { from.field.row < Rows.end }
    ensures { Further bytes.now from.field from.at from.start numbers.old result.field result.at result.start numbers.new }
{
    let mut far = from;
    while in_functions(far.field) {
        let field = far.field;
        let number = editions::read_field(numbers[places::EDITION], bytes, far.at, field);
        let Ok((value, next)) = number else {
            return far;
        };
        if !field_rules::in_range(table, numbers, field, value) {
            return far;
        }
        numbers[field.place] = value;
        far = Far {
            field: after_function_field(field),
            at: next,
            start: function_start(field, far.at, far.start),
        };
    }
    far
}

// Reads the fields into `numbers`.
pub fn read_fields(bytes: &[u8], numbers: &mut Numbers) -> Result<usize, Refusal>
    requires { length numbers.old ≡ number_count }
    ensures { scanned result numbers.new ≡ read_from number_count bytes.now 0 0 first_field numbers.old }
{
    let table = fields::table();
    let mut field = fields::first_field();
    let mut at: usize = 0;
    let mut start: usize = 0;
    while field.row < rows::END {
        let far = read_functions(&table, bytes, numbers, Far { field, at, start });
        field = far.field;
        at = far.at;
        start = far.start;
        let run = pair_runs::read_run(&table, bytes, numbers, at, field);
        field = edge_runs::past_pairs(field, run.items);
        at = run.at;
        let (value, next) = read_number(numbers[places::EDITION], bytes, at, field)?;
        if !field_rules::in_range(&table, numbers, field, value) {
            return Err(Refusal::OutOfRange(at as u64));
        }
        let place = field.place;
        numbers[place] = value;
        start = fields::item_start(&table, field, at, start);
        if !field_rules::ascends(&table, numbers, field) {
            return Err(Refusal::NotAscending(start as u64));
        }
        field = fields::next_field(&table, field, value);
        at = next;
    }
    Ok(at)
}
