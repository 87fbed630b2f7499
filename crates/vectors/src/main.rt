// Prints the XXH3-64 of made inputs, a line to each length: the length, the hash in one shot, and the hash streamed in pieces
// of 1, 21, 64, 256 and 1,000 bytes. The file stdout comes from libxxhash, by tests/vectors.sh.
#![tactic(auto)]

use refusal::Refusal;
use std::io;
use stream::Hasher;

// The input from which xxHash's own test vectors are made.
fn fill_made(buf: &mut [u8]) {
    let mut word: u64 = 2654435761;
    for byte in buf {
        *byte = (word >> 56) as u8;
        word = number::mul64(word, 11400714785074694797);
    }
}

// A column of a line; xxh3sum prints a line.
fn print_answer(rt: &impl Print, answer: Result<u64, Refusal>) -> io::Result<()> {
    match answer {
        Ok(sum) => print!(rt; " {sum:016x}"),
        Err(refusal) => print!(rt; " refused {refusal}"),
    }
}

fn absorb_in_pieces(s: &[u8], cut: usize) -> Hasher {
    let mut h = Hasher::new();
    for piece in s.chunks(cut.max(1)) {
        h = stream::absorb(h, piece).state;
    }
    h
}

fn print_line(rt: &impl Print, s: &[u8]) -> io::Result<()> {
    let n = s.len();
    print!(rt; "{n}")?;
    print_answer(rt, xxh3::xxh3_64(s))?;
    for cut in [1, 21, 64, 256, 1000] {
        print_answer(rt, stream::finish(absorb_in_pieces(s, cut)))?;
    }
    println!(rt; "")
}

// Every length from 0 to 300.
fn print_short(rt: &impl Print, s: &[u8]) -> io::Result<()> {
    for n in 0..=s.len().min(300) {
        print_line(rt, &s[..n])?;
    }
    Ok(())
}

// Lengths on either side of blocks and of what is held back, those of published vectors, and longer ones.
fn print_long(rt: &impl Print, s: &[u8]) -> io::Result<()> {
    let lengths = [
        403, 511, 512, 513, 1023, 1024, 1025, 2047, 2048, 2049, 2240, 2367, 4096, 10000, 65535,
        65536,
    ];
    for n in lengths {
        if n <= s.len() {
            print_line(rt, &s[..n])?;
        }
    }
    Ok(())
}

fn print_all(rt: &impl Print, s: &[u8]) -> io::Result<()> {
    print_short(rt, s)?;
    print_long(rt, s)
}

fn main(rt: HostRuntime) {
    let mut buf = [0; 65536];
    fill_made(&mut buf);
    // What cannot be written is let go: the lines are compared with libxxhash's.
    let _ = print_all(&rt, &buf);
}
