// The values of the other crates as what crosses to C: structs of numbers, each with its conversions. An enum becomes a number and the fields
// of all its variants, an Option or a flag 0 or not, since C reads them so (include/pierloft.h). For crate pierloft; none is a public call.
#![tactic(auto)]

ghost use Rattle.std.specs.Prelude.{◌≡◌};
ghost use Rattle.flat.specs.Flat.{type_number, flat_entry, reader_of, flat_reader, no_batch, flat_stepped, refused_count, flat_count, span_or, flat_hash, flat_absorbed, writer_of, flat_writer, refused_reply, flat_reply};

use dialect::{Dialect, ValueType};
use entry::{Decoded, NoEntry};
use reader::{NoBatch, Reader, Stepped};
use refusal::{Refusal, answer_number};
use stream::Hasher;
use view::Span;
use writer::{Reply, WriterState};

// By its C name, and first: the layouts are held to their sum in the order of the sources.
#[repr(C)]
#[derive(Clone, Copy)]
pub struct Absorbed {
    pub number: u32,
    pub state: Hasher,
}

#[repr(C)]
#[derive(Clone, Copy, Default)]
pub struct FlatEntry {
    pub number: u32,
    pub tag: u8,
    pub value_type: u8,
    pub count: u64,
    pub seqno: u64,
    pub keyspace: u64,
    pub checksum: u64,
    pub key_at: usize,
    pub value_at: usize,
    pub next: usize,
    pub key_len: usize,
    pub value_len: usize,
}

#[repr(C)]
#[derive(Clone, Copy, Default)]
pub struct FlatReader {
    pub position: usize,
    pub ended: u32,
    pub outcome: u32,
}

#[repr(C)]
#[derive(Clone, Copy, Default)]
pub struct FlatStepped {
    pub number: u32,
    pub accepted: u32,
    pub outcome: u32,
    pub seqno: u64,
    pub count: u64,
    pub body: usize,
    pub end: usize,
    pub next: usize,
    pub reader: FlatReader,
}

#[repr(C)]
#[derive(Clone, Copy)]
pub struct FlatCount {
    pub number: u32,
    pub bytes: usize,
}

#[repr(C)]
#[derive(Clone, Copy)]
pub struct FlatSpan {
    pub number: u32,
    pub at: usize,
    pub length: usize,
}

#[repr(C)]
#[derive(Clone, Copy)]
pub struct FlatHash {
    pub number: u32,
    pub hash: u64,
}

#[repr(C)]
#[derive(Clone, Copy)]
pub struct FlatWriter {
    pub position: usize,
    pub start: usize,
    pub open: u32,
    pub left: u64,
}

#[repr(C)]
#[derive(Clone, Copy)]
pub struct FlatReply {
    pub number: u32,
    pub bytes: usize,
    pub writer: FlatWriter,
}

// ---- entries

// The type's number; of a code that no type has, an indirection's.
#[tactic(auto, unfolding(crate::specs::Flat::type_number, dialect::specs::Dialect::type_of_code))]
fn type_number(d: Dialect, code: u8) -> u8
    ensures { result ≡ type_number d code }
{
    let known = d.value_type(code);
    known.unwrap_or(ValueType::Indirection).number()
}

// A function and no From: a type's code has a meaning under a dialect alone.
pub fn flat_entry(d: Dialect, answer: Result<Decoded, NoEntry>) -> FlatEntry
    ensures { result ≡ flat_entry d answer }
{
    match answer {
        Ok(Decoded::Start { count, seqno, next }) => FlatEntry {
            tag: 1,
            count,
            seqno,
            next,
            ..FlatEntry::default()
        },
        Ok(
            Decoded::Item {
                value_type,
                keyspace,
                key_at,
                key_len,
                value_at,
                value_len,
                next,
            },
        ) => FlatEntry {
            tag: 2,
            value_type: type_number(d, value_type),
            keyspace,
            key_at,
            key_len,
            value_at,
            value_len,
            next,
            ..FlatEntry::default()
        },
        Ok(Decoded::End { checksum, next }) => FlatEntry {
            tag: 3,
            checksum,
            next,
            ..FlatEntry::default()
        },
        Ok(Decoded::Clear { keyspace, next }) => FlatEntry {
            tag: 4,
            keyspace,
            next,
            ..FlatEntry::default()
        },
        Err(reason) => FlatEntry {
            number: reason.number(),
            ..FlatEntry::default()
        },
    }
}

// ---- reading

impl From<FlatReader> for Reader {
    ghost from_gives = { λ flat r. r ≡ reader_of flat };

    fn from(flat: FlatReader) -> Reader {
        let ended = flat.ended != 0;
        Reader {
            position: flat.position,
            outcome: if ended { Some(flat.outcome) } else { None },
        }
    }
}

impl From<Reader> for FlatReader {
    ghost from_gives = { λ r flat. flat ≡ flat_reader r };

    fn from(r: Reader) -> FlatReader {
        FlatReader {
            position: r.position,
            ended: u32::from(r.outcome.is_some()),
            outcome: r.outcome.unwrap_or(0),
        }
    }
}

fn no_batch(number: u32, outcome: u32, reader: FlatReader) -> FlatStepped
    ensures { result ≡ no_batch number outcome reader }
{
    FlatStepped {
        number,
        outcome,
        reader,
        ..FlatStepped::default()
    }
}

impl FlatReader {
    // What a step from here came to.
    pub fn stepped(self, s: Stepped) -> FlatStepped
        ensures { result ≡ flat_stepped self s }
    {
        let reader = FlatReader::from(s.reader);
        match s.answer {
            Ok(batch) => FlatStepped {
                accepted: 1,
                seqno: batch.seqno,
                count: batch.count,
                body: batch.body,
                end: batch.end,
                next: batch.next,
                reader,
                ..FlatStepped::default()
            },
            Err(NoBatch::Ended(outcome)) => {
                let number = outcome.number();
                no_batch(0, number, reader)
            }
            Err(NoBatch::Refused(refusal)) => no_batch(refusal.number(), 0, self),
        }
    }
}

// ---- numbers of bytes

impl FlatCount {
    pub fn refused(number: u32) -> FlatCount
        ensures { result ≡ refused_count number }
    {
        FlatCount { number, bytes: 0 }
    }
}

impl From<Result<usize, Refusal>> for FlatCount {
    ghost from_gives = { λ answer flat. flat ≡ flat_count answer };

    fn from(answer: Result<usize, Refusal>) -> FlatCount {
        match answer {
            Ok(bytes) => FlatCount { number: 0, bytes },
            Err(refusal) => FlatCount::refused(refusal.number()),
        }
    }
}

// ---- views

// A part, or the number that says why there is none.
impl From<Result<Span, u32>> for FlatSpan {
    ghost from_gives = { λ answer flat. flat ≡ span_or answer };

    fn from(answer: Result<Span, u32>) -> FlatSpan {
        match answer {
            Ok(span) => FlatSpan {
                number: 0,
                at: span.from,
                length: span.to.saturating_sub(span.from),
            },
            Err(number) => FlatSpan {
                number,
                at: 0,
                length: 0,
            },
        }
    }
}

// ---- XXH3-64

impl From<Result<u64, Refusal>> for FlatHash {
    ghost from_gives = { λ answer flat. flat ≡ flat_hash answer };

    fn from(answer: Result<u64, Refusal>) -> FlatHash {
        match answer {
            Ok(hash) => FlatHash { number: 0, hash },
            Err(refusal) => {
                let number = refusal.number();
                FlatHash { number, hash: 0 }
            }
        }
    }
}

impl From<stream::Absorbed> for Absorbed {
    ghost from_gives = { λ a flat. flat ≡ flat_absorbed a };

    fn from(a: stream::Absorbed) -> Absorbed {
        let number = answer_number(a.answer);
        let state = a.state;
        Absorbed { number, state }
    }
}

// ---- the writer

impl From<FlatWriter> for WriterState {
    ghost from_gives = { λ flat s. s ≡ writer_of flat };

    fn from(flat: FlatWriter) -> WriterState {
        WriterState {
            position: flat.position,
            start: flat.start,
            open: flat.open != 0,
            left: flat.left,
        }
    }
}

impl From<WriterState> for FlatWriter {
    ghost from_gives = { λ s flat. flat ≡ flat_writer s };

    fn from(s: WriterState) -> FlatWriter {
        FlatWriter {
            position: s.position,
            start: s.start,
            open: u32::from(s.open),
            left: s.left,
        }
    }
}

impl FlatWriter {
    // A call refused from here, with the state as it came.
    pub fn refused(self, number: u32) -> FlatReply
        ensures { result ≡ refused_reply self number }
    {
        FlatReply {
            number,
            bytes: 0,
            writer: self,
        }
    }

    // What a call from here came to.
    pub fn reply(self, r: Reply) -> FlatReply
        ensures { result ≡ flat_reply self r }
    {
        match r.answer {
            Ok(bytes) => FlatReply {
                number: 0,
                bytes,
                writer: FlatWriter::from(r.state),
            },
            Err(refusal) => self.refused(refusal.number()),
        }
    }
}
