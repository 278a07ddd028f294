// desk: the counts of an order. Reads standard input, and prints the line that desk_line makes of it.
#![tactic(auto)]

use std::io;

fn main(rt: HostRuntime) -> io::Result<()> {
    desk_line::serve(&mut rt.stdin(), &mut rt.stdout())
}
