// What Inline gives of a drawing, in print, and what Bound and Run give of its one problem.
ghost use Rattle.model.specs.Operations.{Checked};
ghost use Rattle.facts.specs.Fields.{FieldFacts};

use model::{Bound, Drawing, Numbers, Refusal, Run, limits, places};
use prints::{number, text};
use std::io;
use std::io::Write;

fn refusal(out: &mut impl Write, refusal: Refusal) -> io::Result<()> {
    prints::placed(out, b" refused ", refusal.number(), refusal.place())
}

// Each vertex's function and own cost, as ` 0:10`.
fn vertices(out: &mut impl Write, l: &Numbers) -> io::Result<()>
    requires { FieldFacts l.now }
{
    let count = lookup::vertex_count(l);
    for v in 0..count {
        number(out, b" ", lookup::function_of(l, v) as u64)?;
        number(out, b":", lookup::own_cost(l, v).0)?;
    }
    Ok(())
}

// Each edge, as ` 0-1`.
fn edges(out: &mut impl Write, l: &Numbers) -> io::Result<()>
    requires { FieldFacts l.now }
{
    let count = lookup::edge_count(l);
    for i in 0..count {
        number(out, b" ", lookup::edge_from(l, i) as u64)?;
        number(out, b"-", lookup::edge_to(l, i) as u64)?;
    }
    Ok(())
}

// Each loop, as `, loop 1 to 5 bound 4`.
fn loops(out: &mut impl Write, l: &Numbers) -> io::Result<()>
    requires { FieldFacts l.now }
{
    let count = lookup::loop_count(l);
    for i in 0..count {
        number(out, b", loop ", lookup::loop_header(l, i) as u64)?;
        number(out, b" to ", lookup::loop_last(l, i) as u64)?;
        number(out, b" bound ", lookup::loop_bound(l, i))?;
    }
    Ok(())
}

fn problem(out: &mut impl Write, l: &Numbers) -> io::Result<()>
    requires { FieldFacts l.now }
{
    vertices(out, l)?;
    text(out, b", edges")?;
    edges(out, l)?;
    loops(out, l)
}

fn counts(out: &mut impl Write, l: &Numbers) -> io::Result<()> {
    number(out, b" vertices ", l[places::VERTEX_COUNT])?;
    number(out, b", edges ", l[places::EDGE_COUNT])?;
    number(out, b", loops ", l[places::LOOP_COUNT])
}

fn bounded(out: &mut impl Write, answer: Result<Bound, Refusal>) -> io::Result<()> {
    match answer {
        Ok(b) => number(out, b": bound ", b.bound.0)?,
        Err(f) => refusal(out, f)?,
    }
    Ok(())
}

fn ran(out: &mut impl Write, answer: Result<Run, Refusal>) -> io::Result<()> {
    match answer {
        Ok(run) => number(out, b", run ", run.cycles.0)?,
        Err(f) => refusal(out, f)?,
    }
    Ok(())
}

fn region(out: &mut impl Write, r: u8) -> io::Result<()> {
    number(out, b" ", r as u64)
}

// A layout's regions, as ` 0 1`.
fn regions(out: &mut impl Write, layout: &[u8]) -> io::Result<()> {
    for &r in layout {
        region(out, r)?;
    }
    Ok(())
}

// The bound under a layout, and the cycles of the walk.
fn priced(out: &mut impl Write, l: &Numbers, layout: &[u8], walk: &[u32]) -> io::Result<()>
    requires { Checked l.now }
{
    text(out, b"\nlayout")?;
    regions(out, layout)?;
    bounded(out, bound::bound_checked(l, layout))?;
    let mut held = [0u8; limits::MOST_REGIONS];
    ran(out, run::run_checked(l, layout, walk, &mut held))
}

// The same for each of some layouts, one behind the other, that list every function.
fn prices(out: &mut impl Write, l: &Numbers, layouts: &[u8], walk: &[u32]) -> io::Result<()>
    requires { Checked l.now }
{
    let width = lookup::function_count(l);
    for layout in layouts.chunks_exact(width) {
        priced(out, l, layout, walk)?;
    }
    Ok(())
}

// The one problem with its bounds under these layouts, or why there is none.
pub fn worked(
    out: &mut impl Write,
    title: &[u8],
    d: &Drawing,
    layouts: &[u8],
    walk: &[u32],
) -> io::Result<()> {
    text(out, title)?;
    let mut numbers = [0u64; places::END];
    let verdict = inline::inline_numbers(d, &mut numbers);
    match verdict {
        Ok(()) => {
            problem(out, &numbers)?;
            prices(out, &numbers, layouts, walk)?;
        }
        Err(f) => refusal(out, f)?,
    }
    text(out, b"\n")
}

// How many vertices, edges and loops the one problem has, or why there is none.
pub fn counted(out: &mut impl Write, title: &[u8], d: &Drawing) -> io::Result<()> {
    text(out, title)?;
    let mut numbers = [0u64; places::END];
    let verdict = inline::inline_numbers(d, &mut numbers);
    match verdict {
        Ok(()) => counts(out, &numbers)?,
        Err(f) => refusal(out, f)?,
    }
    text(out, b"\n")
}
