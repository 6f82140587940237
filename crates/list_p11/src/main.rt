// The list program, stored with P11: M with (2,2) of level 0 NaN.
#![tactic(auto)]

use std::io;

fn main(rt: HostRuntime) -> io::Result<()> {
    lister::run(&mut rt.stdin(), &mut rt.stdout())
}
