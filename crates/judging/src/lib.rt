// A problem's numbers judged field by field, as a file of them would be read.
#![tactic(auto)]

ghost use Rattle.std.specs.Prelude.{◌≡◌};
ghost use Rattle.model.specs.File.{check_fields};

use model::{Numbers, Refusal, places, rows};

// A refusal is placed by the bytes that the numbers would be written as.
pub fn check_fields(numbers: &Numbers) -> Result<usize, Refusal>
    ensures { result ≡ check_fields numbers.now }
{
    let table = fields::table();
    let mut field = fields::first_field();
    let mut at: usize = 0;
    let mut start: usize = 0;
    while field.row < rows::END {
        let run = edge_runs::check_edges(numbers, field);
        field = edge_runs::past_pairs(field, run);
        at += places::EDGE_WIDTH * run;
        let place = field.place;
        let value = numbers[place];
        if !field_rules::in_range(&table, numbers, field, value) {
            return Err(Refusal::OutOfRange(at as u64));
        }
        start = fields::item_start(&table, field, at, start);
        if !field_rules::ascends(&table, numbers, field) {
            return Err(Refusal::NotAscending(start as u64));
        }
        at += editions::field_size(numbers[places::EDITION], field, value);
        field = fields::next_field(&table, field, value);
    }
    Ok(at)
}
