// The list program, stored with P10: M with (2,4) of level 0 NaN.
#![tactic(auto)]

use std::io;

fn main(rt: HostRuntime) -> io::Result<()> {
    lister::run(&mut rt.stdin(), &mut rt.stdout())
}
