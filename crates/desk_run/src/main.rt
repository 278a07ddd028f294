// Runs desk's one function on prepared orders, the files of data/. Stands on desk_line. Each line has the file's name
// and what desk prints for its bytes: the field (two bytes, high first), the shares and the size.
#![tactic(auto)]

use std::fs::File;
use std::io;
use std::rt::Files;

fn run(rt: &(impl Files + Print), name: &str) -> io::Result<()> {
    print!(rt; "{name}: ")?;
    match File::open(rt, name) {
        Ok(mut order) => desk_line::serve(&mut order, &mut io::writer(rt)),
        Err(_) => rt.println("could not be opened"),
    }
}

fn main(rt: HostRuntime) -> io::Result<()> {
    // 01's counts
    run(&rt, "f16_2_1")?; // 00 10 02 01
    run(&rt, "f16_2_2")?; // 00 10 02 02
    run(&rt, "f16_3_1")?; // 00 10 03 01
    run(&rt, "f256_2_1")?; // 01 00 02 01
    run(&rt, "f256_4_96")?; // 01 00 04 60

    // refused
    run(&rt, "field_7_shares_0")?; // 00 07 00 01
    run(&rt, "blank_shares")?; // 00 10 00 01
    run(&rt, "one_share")?; // 00 10 01 01
    run(&rt, "five_shares")?; // 00 10 05 01
    run(&rt, "size_0")?; // 00 10 02 00
    run(&rt, "size_97")?; // 00 10 02 61

    // not four bytes
    run(&rt, "no_bytes")?;
    run(&rt, "three_bytes")?; // 00 10 02
    run(&rt, "five_bytes") // 00 10 02 01 00
}
