// Prints the XXH3-64 of standard input, 16 lower-case hexadecimal digits and a line feed, or `refused 21` where the input
// exceeds 4,294,967,295 bytes. Where standard input cannot be read it prints nothing but a line on standard error.
#![tactic(auto)]

ghost use Rattle.std.specs.Prelude.{◌≡◌, IfOk, IfSome};
ghost use Rattle.xxh3.specs.Hashed.{hashed};

use refusal::Refusal;
use std::io;
use std::io::Read;
use stream::Hasher;

// Reads the input to its end, or to the piece that is refused, by pieces of at most 65,536 bytes.
fn absorb_input<R: Read>(input: &mut R) -> io::Result<Result<u64, Refusal>>
    ensures { IfOk result (λ answer. IfSome (R.remaining input.old) (λ bytes. answer ≡ hashed bytes)) }
{
    let mut state = Hasher::new();
    let mut piece = [0; 65536];
    // No `for`: the input ends where it ends.
    loop {
        let n = input.read(&mut piece)?;
        if n == 0 {
            return Ok(stream::finish(state));
        }
        if let Err(refusal) = stream::absorb_into(&mut state, &piece[..n]) {
            return Ok(Err(refusal));
        }
    }
}

fn print_answer(rt: &impl Print, answer: Result<u64, Refusal>) -> io::Result<()> {
    match answer {
        Ok(sum) => println!(rt; "{sum:016x}"),
        Err(refusal) => println!(rt; "refused {refusal}"),
    }
}

fn main(rt: HostRuntime) {
    // What cannot be written is let go: whoever reads the output sees that it is not whole.
    let _ = match absorb_input(&mut rt.stdin()) {
        Ok(answer) => print_answer(&rt, answer),
        Err(_) => eprintln!(rt; "standard input cannot be read"),
    };
}
