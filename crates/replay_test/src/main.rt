// Replays the images that the Rust was asked about under the dialect TEST: what is printed is held to what the Rust said.
#![tactic(auto)]

use dialect::Dialect;
use std::io;

fn main(rt: HostRuntime) -> io::Result<()> {
    replaying::replay(&rt, Dialect::TEST)
}
