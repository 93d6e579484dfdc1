// The interference sets of P, which are Table I of document 003, and those of R, which has a loop.
ghost use Rattle.std.specs.Prelude.{◌*◌, ◌<◌, ◌≤◌, length};
ghost use Rattle.model.specs.Places;

use model::{Problem, Refusal, Vertex, places};
use prints::text;
use std::io;
use std::io::Write;

// What the lent words hold before.
const BLANK: u32 = 77;

// Function g, if it is a member, after a comma if some member came before. Whether any has come now.
fn member(out: &mut impl Write, word: u32, g: usize, some: bool) -> io::Result<bool>
    requires { g < Places.most_functions }
{
    if (word >> g) % 2 == 0 {
        return Ok(some);
    }
    if some {
        text(out, b",")?;
    }
    prints::number(out, b"", g as u64)?;
    Ok(true)
}

// A set's members as ` {0,1}`: bit g of the word is set for each member g.
fn set(out: &mut impl Write, word: u32) -> io::Result<()> {
    text(out, b" {")?;
    let mut some = false;
    for g in 0..places::MOST_FUNCTIONS {
        some = member(out, word, g, some)?;
    }
    text(out, b"}")
}

// A vertex's sets, as `v1 f1: {} {0} {0}`.
fn row(out: &mut impl Write, v: usize, function: usize, words: &[u32]) -> io::Result<()> {
    prints::number(out, b"v", v as u64)?;
    prints::number(out, b" f", function as u64)?;
    text(out, b":")?;
    for &word in words {
        set(out, word)?;
    }
    text(out, b"\n")
}

// A row for each vertex, its sets being so many words as there are functions.
fn rows(
    out: &mut impl Write,
    vertices: [Vertex; places::MOST_VERTICES],
    count: usize,
    functions: usize,
    words: &[u32],
) -> io::Result<()>
    requires { (count ≤ Places.most_vertices) × (count * functions ≤ length words.now) }
{
    for v in 0..count {
        let at = v * functions;
        row(out, v, vertices[v].function, &words[at..at + functions])?;
    }
    Ok(())
}

// Tells whether the words from place `from` on are still blank.
fn tell_kept(out: &mut impl Write, words: &[u32], from: usize) -> io::Result<()> {
    for i in from..words.len() {
        if words[i] != BLANK {
            return text(out, b" changed\n");
        }
    }
    text(out, b" kept\n")
}

// As `words filled 21, the rest kept`.
fn filled(out: &mut impl Write, count: usize, words: &[u32]) -> io::Result<()> {
    prints::number(out, b"words filled ", count as u64)?;
    text(out, b", the rest")?;
    tell_kept(out, words, count)
}

// As `refusal 10 at 21, the words kept`.
fn refused(out: &mut impl Write, refusal: Refusal, words: &[u32]) -> io::Result<()> {
    prints::placed(out, b"refusal ", refusal.number(), refusal.place())?;
    text(out, b", the words")?;
    tell_kept(out, words, 0)
}

// The sets of a problem with that many vertices and functions, from a buffer of 24 words.
fn table(
    out: &mut impl Write,
    name: &[u8],
    problem: Problem,
    count: usize,
    functions: usize,
) -> io::Result<()>
    requires { (count ≤ Places.most_vertices) × (count * functions ≤ 24) }
{
    text(out, name)?;
    let mut words = [BLANK; 24];
    let vertices = problem.vertices;
    let answer = interference::interference(problem, &mut words);
    match answer {
        Err(refusal) => refused(out, refusal, &words)?,
        Ok(words_filled) => {
            rows(out, vertices, count, functions, &words)?;
            filled(out, words_filled, &words)?;
        }
    }
    Ok(())
}

// A problem for which 20 words are too few.
fn short(out: &mut impl Write, name: &[u8], problem: Problem) -> io::Result<()> {
    text(out, name)?;
    let mut words = [BLANK; 20];
    let answer = interference::interference(problem, &mut words);
    match answer {
        Err(refusal) => refused(out, refusal, &words)?,
        Ok(words_filled) => filled(out, words_filled, &words)?,
    }
    Ok(())
}

pub fn table_one(out: &mut impl Write) -> io::Result<()> {
    table(out, b"P\n", samples::p(14), 7, 3)?;
    short(out, b"P into 20 words: ", samples::p(14))?;
    table(out, b"R\n", samples::r(4), 4, 2)
}
