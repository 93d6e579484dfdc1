// Problems given as their fields, lawful or not.
use crate::round_trip::ROOM;
use crate::show;
use model::places;
use std::io;
use std::io::Write;

// A problem's numbers without the edition, so that each stands one place earlier.
type Fields = [u32; places::FIELD_COUNT];

const SCRATCHPAD: usize = places::SCRATCHPAD - 1;

const FUNCTION_COUNT: usize = places::FUNCTION_COUNT - 1;

const SIZE: usize = places::SIZE - 1;

const LOAD: usize = places::LOAD - 1;

const VERTEX_COUNT: usize = places::VERTEX_COUNT - 1;

const COST: usize = places::COST - 1;

// Writes a problem's fields, and shows the refusal or the bytes written.
fn write(out: &mut impl Write, name: &[u8], fields: &Fields) -> io::Result<()> {
    let mut room = [0u8; ROOM];
    let mut answer = [0u64; 4];
    let status = examiner::examiner_write_fields(fields, &mut room, &mut answer);
    if status != 0 {
        return show::refusal(out, name, status, answer[0]);
    }
    show::line(out, name, answer[0], b" bytes")
}

// M10 with a scratchpad size: one function of size 8 and load cost 5, one vertex of it with cost 10.
fn m10_with(scratchpad: u32) -> Fields {
    let mut fields = [0u32; places::FIELD_COUNT];
    fields[SCRATCHPAD] = scratchpad;
    fields[FUNCTION_COUNT] = 1;
    fields[SIZE] = 8;
    fields[LOAD] = 5;
    fields[VERTEX_COUNT] = 1;
    fields[COST] = 10;
    fields
}

pub fn m10(out: &mut impl Write) -> io::Result<()> {
    write(out, b"fields of M10", &m10_with(8))?;
    write(out, b"fields of M10 with scratchpad 0", &m10_with(0))
}
