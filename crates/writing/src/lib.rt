// The file of a problem's numbers, written field by field.
#![tactic(auto)]

ghost use Rattle.std.specs.Prelude.{◌≡◌, Ok};
ghost use Rattle.std.proofs.lemmas.List.Edits.{sets};
ghost use Rattle.model.specs.File.{check_fields, file_bytes};
ghost use Rattle.writing.specs.Fits.{Fits};

use model::{Numbers, places, rows};

// Writes the file of numbers that were judged good, and answers its length.
pub fn write_fields(buf: &mut [u8], numbers: &Numbers) -> usize
    requires { Fits numbers.now buf.old }
    ensures fact_1 { Ok result ≡ check_fields numbers.now }
    ensures fact_2 { buf.new ≡ sets buf.old 0 (file_bytes numbers.now) }
{
    let table = fields::table();
    let mut field = fields::first_field();
    let mut at: usize = 0;
    while field.row < rows::END {
        let place = field.place;
        let value = numbers[place];
        at = editions::write_field(numbers[places::EDITION], buf, at, field, value);
        field = fields::next_field(&table, field, value);
    }
    at
}
