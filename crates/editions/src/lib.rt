// A field as an edition spells it: read, measured and written. An edition 1 file has no byte for a check cost, which is 0 then.
#![tactic(auto)]

ghost use Rattle.std.specs.Prelude.{◌≡◌, ◌+◌, ◌≤◌, length};
ghost use Rattle.std.proofs.lemmas.List.Edits.{sets};
ghost use Rattle.model.specs.File.{read_field, field_size, field_bytes};

use model::{Field, Misread, limits, rows};

// Whether an edition has no byte for the number at a field.
pub fn unwritten(edition: u64, c: Field) -> bool
    ensures { result ≡ Rattle.model.specs.File.unwritten edition c }
{
    if c.row != rows::CHECK {
        return false;
    }
    edition == limits::FIRST_EDITION as u64
}

// The number at a field, read at a position, and the position after it.
pub fn read_field(edition: u64, bytes: &[u8], at: usize, c: Field) -> Result<(u64, usize), Misread>
    ensures { result ≡ read_field edition bytes.now at c }
{
    if unwritten(edition, c) {
        return Ok((0, at));
    }
    spelling::read_number(bytes, at)
}

// How many bytes the number at a field takes.
pub fn field_size(edition: u64, c: Field, value: u64) -> usize
    ensures { result ≡ field_size edition c value }
{
    if unwritten(edition, c) {
        return 0;
    }
    spelling::number_size(value)
}

// Writes the number at a field, and answers the position after it.
pub fn write_field(edition: u64, buf: &mut [u8], at: usize, c: Field, value: u64) -> usize
    requires { at + field_size edition c value ≤ length buf.old }
    ensures fact_1 { result ≡ at + field_size edition c value }
    ensures fact_2 { buf.new ≡ sets buf.old at (field_bytes edition c value) }
{
    if unwritten(edition, c) {
        return at;
    }
    spelling::write_number(buf, at, value)
}
