// Runs the library on small files and problems, and prints for each what was run and what came out.
#![tactic(auto)]

mod field_cases;
mod files;
mod padded;
mod round_trip;
mod show;

use std::io;

fn main(rt: HostRuntime) -> io::Result<()> {
    let mut out = io::writer(&rt);
    files::refused_by_fields(&mut out)?;
    files::refused_by_graph(&mut out)?;
    files::m10(&mut out)?;
    field_cases::m10(&mut out)?;
    round_trip::run(&mut out, b"P", samples::p(14))?;
    round_trip::from_padding(&mut out, b"P padded", samples::p(14))?;
    round_trip::run(&mut out, b"Q", samples::q())?;
    round_trip::from_padding(&mut out, b"Q padded", samples::q())?;
    round_trip::run(&mut out, b"R", samples::r(4))?;
    round_trip::from_padding(&mut out, b"R padded", samples::r(4))?;
    round_trip::run(&mut out, b"R with bound 4,096", samples::r(4096))?;
    round_trip::run(&mut out, b"R with bound 4,097", samples::r(4097))?;
    round_trip::run(&mut out, b"R with bound 65,535", samples::r(65535))?;
    files::bounds_of_r(&mut out)
}
