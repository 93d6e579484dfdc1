// The mark sheet: what Read and Bound say of a problem file from an open input and of a layout from a file by name, in print.
#![tactic(auto)]

mod fill;
mod front;
mod show;

ghost use Rattle.sheet.specs.Fronts.{AcceptedFront};

use model::{Numbers, places};
pub use show::unreadable;
use std::io;
use std::io::Read;
use std::rt::Files;

// Room for more bytes of a problem file than Read looks at, and for more of a layout than Bound does.
const FILE_ROOM: usize = 8192;

const LAYOUT_ROOM: usize = 64;

// The layout's part, for the numbers of a problem that Read accepted.
fn mark_layout(
    rt: &(impl Files + Print + Eprint + AllocGlobal),
    file: &[u8],
    n: usize,
    numbers: &Numbers,
    path: &str,
) -> io::Result<()>
    requires { AcceptedFront file.now n numbers.now }
{
    let mut layout = [0u8; LAYOUT_ROOM];
    let filled = fill::from_file(rt, path, &mut layout)?;
    let Some(m) = filled else {
        return Ok(());
    };
    let answer = front::bound(numbers, &layout, m);
    let mut slip = [0u8; slips::ROOM];
    let size = slips::bounded(answer, &mut slip);
    show::print(rt, file, n, &layout, m, &slip, size)
}

// The problem file comes from an open input, the layout from the file at path. The problem file is judged first: where Read refuses, the layout is not
// opened. What cannot be read is told on standard error, the input by its name, and then nothing is printed.
pub fn mark(
    rt: &(impl Files + Print + Eprint + AllocGlobal),
    input: &mut impl Read,
    name: &str,
    path: &str,
) -> io::Result<()> {
    let mut file = [0u8; FILE_ROOM];
    let filled = fill::from_input(rt, input, name, &mut file)?;
    let Some(n) = filled else {
        return Ok(());
    };
    let mut numbers = [0u64; places::END];
    if let Err(refusal) = front::read(&file, n, &mut numbers) {
        let mut slip = [0u8; slips::ROOM];
        let size = slips::refused(refusal, &mut slip);
        return show::print(rt, &file, n, b"", 0, &slip, size);
    }
    mark_layout(rt, &file, n, &numbers, path)
}
