// Lists a journal of the shipped dialect.
#![tactic(auto)]

use dialect::Dialect;
use std::io;

fn main(rt: HostRuntime) -> io::Result<()> {
    dumping::dump(&rt, Dialect::SHIPPED)
}
