// What the dump programs share: a journal from standard input, listed on standard output.
// Public: dump, print_listing, print_over and read_full.
#![tactic(auto)]

ghost use Rattle.std.specs.Prelude.{◌≡◌, ◌≤◌, ◌<◌, length, take, IfOk, OnOk, IfErr, IfSome};
ghost use Rattle.std.specs.Io.KnownBytes.{Appends, Consumes, IsAtEnd, Keeps};
ghost use Rattle.listing.specs.Listing.{listed};
ghost use Rattle.dumping.specs.Dumping.{refused_line, printed_over, dumped, IsUnread};

use dialect::Dialect;
use listing::{LONGEST, ROOM, list};
use refusal::Refusal;
use std::io::{self, Read, Write};

// Why a journal was not listed.
#[derive(Debug, Drop)]
enum Failure {
    Input(io::Error),
    Output(io::Error),
}

// Reads until buf is full or the input ends, and answers how many bytes came.
pub fn read_full<R: Read>(reader: &mut R, buf: &mut [u8]) -> io::Result<usize>
    ensures bound { IfOk result (λ n. n ≤ length buf.new) }
    ensures bytes { IfOk result (λ n. Consumes (R.remaining reader.old) (R.remaining reader.new) (take n buf.new)) }
    ensures end { IfOk result (λ n. n < length buf.new → IsAtEnd (R.remaining reader.new)) }
{
    let mut done = 0;
    // No `for`: a turn takes as many bytes as come.
    while done < buf.len() {
        let n = reader.read(&mut buf[done..])?;
        if n == 0 {
            break;
        }
        done += n;
    }
    Ok(done)
}

fn print_refused<W: Write>(writer: &mut W, refusal: Refusal) -> io::Result<()>
    ensures { OnOk result (Appends (W.contents writer.old) (W.contents writer.new) (refused_line refusal)) }
{
    writeln!(writer, "refused {refusal}")
}

// The listing of an image, made in a lent part, or the line of its refusal, which is 27 where that part is too short.
pub fn print_over<W: Write>(
    writer: &mut W,
    image: &[u8],
    d: Dialect,
    out: &mut [u8],
) -> io::Result<()>
    ensures text { OnOk result (Appends (W.contents writer.old) (W.contents writer.new) (printed_over d image.now (length out.old))) }
    ensures part { out.new ≡ (listed d image.now out.old).buffer }
{
    match list(image, d, out) {
        Ok(bytes) => writer.write_all(&out[..bytes]),
        Err(refusal) => print_refused(writer, refusal),
    }
}

// The same with room for any listing.
pub fn print_listing<W: Write>(writer: &mut W, image: &[u8], d: Dialect) -> io::Result<()>
    ensures { OnOk result (Appends (W.contents writer.old) (W.contents writer.new) (dumped d image.now)) }
{
    print_over(writer, image, d, &mut [0u8; ROOM])
}

// Reads up to one byte more than may be listed, so that a longer journal is refused; the buffer has room for any listing. Where a read
// fails, what came before says nothing of the journal, and least of all how much of it to keep: then nothing is written.
fn dump_input<R: Read, W: Write>(reader: &mut R, writer: &mut W, d: Dialect) -> Result<(), Failure>
    ensures ok { OnOk result (IfSome (R.remaining reader.old) (λ s. Appends (W.contents writer.old) (W.contents writer.new) (dumped d s))) }
    ensures unread { IfErr result (λ e. IsUnread e → Keeps (W.contents writer.old) (W.contents writer.new)) }
{
    let mut image = [0u8; LONGEST + 1];
    let n = read_full(reader, &mut image).map_err(Failure::Input)?;
    print_listing(writer, &image[..n], d).map_err(Failure::Output)
}

pub fn dump(rt: &(impl Input + Print + Eprint), d: Dialect) -> io::Result<()> {
    let mut input = rt.reader();
    let mut output = io::writer(rt);
    match dump_input(&mut input, &mut output, d) {
        Ok(()) => Ok(()),
        Err(Failure::Input(_)) => eprintln!(rt; "standard input cannot be read"),
        Err(Failure::Output(e)) => Err(e),
    }
}
