// What the replay programs share: images from standard input, each behind its length in four bytes, and what the library says of each, on
// standard output. The files that they are run on were made by the Rust (tests/oracle/list.sh).
// Public: replay.
#![tactic(auto)]

use dialect::Dialect;
use dumping::{print_over, read_full};
use entry::decode;
use std::io::{self, Read};

// The most bytes of an image, and room for the listing of any: the dump's own would be laid anew for each image, 32 times as long.
const LONGEST: usize = 2048;

const ROOM: usize = 4 * LONGEST + 128;

// The number of the fault of the entry at the first byte, or 0.
fn first_fault(image: &[u8], d: Dialect) -> u32 {
    match decode(image, 0, d) {
        Ok(_) => 0,
        Err(e) => e.number(),
    }
}

// The length in front of an image, or none where the input is at its end.
fn read_length(input: &mut impl Read) -> io::Result<Option<usize>> {
    let mut head = [0; 4];
    if read_full(input, &mut head)? < head.len() {
        return Ok(None);
    }
    Ok(Some(u32::from_le_bytes(head) as usize))
}

fn print_answers(rt: &impl Print, i: u64, image: &[u8], d: Dialect) -> io::Result<()> {
    let fault = first_fault(image, d);
    println!(rt; "image {i} entry {fault}")?;
    print_over(&mut io::writer(rt), image, d, &mut [0; ROOM])
}

pub fn replay(rt: &(impl Input + Print), d: Dialect) -> io::Result<()> {
    let mut input = rt.reader();
    for i in 0..1000 {
        let Some(length) = read_length(&mut input)? else {
            break;
        };
        if LONGEST < length {
            break;
        }
        let mut image = [0; LONGEST];
        let n = read_full(&mut input, &mut image[..length])?;
        print_answers(rt, i, &image[..n], d)?;
    }
    Ok(())
}
