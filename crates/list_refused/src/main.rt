// The list program, stored with an input that 3 and 4 apply to: an octave of 6, and a set whose sigmas do not rise.
#![tactic(auto)]

use std::io;

fn main(rt: HostRuntime) -> io::Result<()> {
    lister::run(&mut rt.stdin(), &mut rt.stdout())
}
