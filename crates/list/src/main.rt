// The list program, stored with P9: map M under set T.
#![tactic(auto)]

use std::io;

fn main(rt: HostRuntime) -> io::Result<()> {
    lister::run(&mut rt.stdin(), &mut rt.stdout())
}
