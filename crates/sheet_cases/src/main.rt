// The mark sheets of stored problem files and layouts. The arguments list the cases, three a case: a title, the problem file and the layout's file. There
// are accepted ones, numbers up to the bound's limit, a refusal of each stage of Read and of Bound, files longer than there is room for (long.bin is M10 with
// zeros after it), and a folder, which opens and then cannot be read: a sheet that needs it is empty.
#![tactic(auto)]

use std::rt::Files;
use std::{env, fs, io};

// The sheet of one case, behind its title.
fn mark(
    rt: &(impl Files + Print + Eprint + AllocGlobal),
    title: &str,
    problem: &str,
    layout: &str,
) -> io::Result<()> {
    println!(rt; "{title}:")?;
    match fs::open(rt, problem) {
        Ok(mut input) => sheet::mark(rt, &mut input, problem, layout),
        Err(error) => sheet::unreadable(rt, problem, &error),
    }
}

// The first argument is the program's own name.
fn main(rt: HostRuntime) -> io::Result<()> {
    let arguments: Vec<String> = env::args(&rt)?.skip(1).collect(rt.alloc())?;
    for case in arguments.chunks_exact(3) {
        mark(&rt, case[0].as_str(), case[1].as_str(), case[2].as_str())?;
    }
    Ok(())
}
