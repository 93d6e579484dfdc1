// Marks the problem file on standard input with the layout in `layout.bin` of the folder that it is started in.
#![tactic(auto)]

use std::io;

fn main(rt: HostRuntime) -> io::Result<()> {
    let mut input = rt.stdin();
    sheet::mark(&rt, &mut input, "standard input", "layout.bin")
}
