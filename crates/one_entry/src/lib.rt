// Batches of one entry, written by one call.
// Public: write_raw, write_clear. They refuse by 20, 21, 22, 24, 25, 27, in this order.
#![tactic(auto)]

ghost use Rattle.std.specs.Prelude.{◌≡◌, [], ◌∷◌, ◌<◌, ◌≤◌, ◌+◌, ◌^◌, length};
ghost use Rattle.number.specs.Part.{front};
ghost use Rattle.xxh3.specs.Xxh3.{xxh3_64};
ghost use Rattle.dialect.specs.declared.Dialect.{Dialect};
ghost use Rattle.dialect.specs.Dialect.{code_of};
ghost use Rattle.entry.specs.Entry.{body, item, clear, put, put_batch};
ghost use Rattle.encode.specs.Encoding.{put_of};
ghost use Rattle.writer.specs.Writing.{write_refusal, Leaves, write_call};

use dialect::{Dialect, ValueType};
use encode::{Put, fill_end, fill_start};
use refusal::{Refusal, lacks, when};
use writer::{HASHED_FROM, Reply, WriterState};
use xxh3::hash_default;

// Of an entry of `size` bytes; `wrong` says that its key is too long. Assumes a size that may be added to.
#[tactic(auto, unfolding(writer::specs::Writing::write_refusal, writer::specs::Writing::no_room))]
fn write_refusal(
    d: Dialect,
    len: usize,
    s: WriterState,
    wrong: bool,
    size: u128,
) -> Result<(), Refusal>
    requires { size < 2 ^ 66 }
    ensures { result ≡ write_refusal d len s wrong size }
{
    s.shared_refusal(d, len)?;
    when(s.open, Refusal::Order)?;
    when(wrong, Refusal::Key)?;
    let batch = 22 + d.length as u128 + size;
    when(lacks(len, s.position, batch), Refusal::NoRoom)
}

// Assumes a magic of at most 8 bytes, and room.
#[inline(always)]
fn fill_batch(buf: &mut [u8], d: Dialect, seqno: u64, entry: Put)
    requires { (d.length ≤ 8) × (22 + d.length + length (put d (body (put_of d entry)) []) ≤ length buf.old) }
    ensures { buf.new ≡ front (put_batch d xxh3_64 seqno (put_of d entry.entry ∷ [])) buf.old }
{
    fill_start(buf, 1, seqno);
    entry.fill(&mut buf[13..], d);
    let end = 13 + entry.size() as usize;
    let checksum = hash_default(&buf[HASHED_FROM..end]);
    fill_end(&mut buf[end..], d, checksum);
}

// ---- the calls: what is refused changes neither the state nor a byte

#[inline(always)]
#[tactic(auto, using(writer::specs::Laws::write_ok, crate::proofs::Laws::batch_length, number::specs::Part::tail_put), unfolding(writer::specs::Writing::write_call))]
fn try_write(
    buf: &mut [u8],
    d: Dialect,
    state: &mut WriterState,
    seqno: u64,
    entry: Put,
) -> Result<usize, Refusal>
    ensures { Leaves (write_call d buf.old state.old seqno (put_of d entry.entry)) buf.new state.new result }
{
    let size = entry.size();
    write_refusal(d, buf.len(), *state, entry.long_key(), size)?;
    let at = state.position;
    let written = 22 + d.length + size as usize;
    fill_batch(&mut buf[at..], d, seqno, entry);
    *state = WriterState::outside(at + written);
    Ok(written)
}

// An empty key is taken, as fjall takes it here.
pub fn write_raw(
    buf: &mut [u8],
    d: Dialect,
    s: WriterState,
    seqno: u64,
    value_type: ValueType,
    keyspace: u64,
    key: &[u8],
    value: &[u8],
) -> Reply
    ensures { (result ≡ (write_call d buf.old s seqno (item (code_of d value_type) keyspace key.now value.now)).reply) × (buf.new ≡ (write_call d buf.old s seqno (item (code_of d value_type) keyspace key.now value.now)).bytes) }
{
    let mut state = s;
    let entry = Put::item(value_type, keyspace, key, value);
    let answer = try_write(buf, d, &mut state, seqno, entry);
    Reply { state, answer }
}

pub fn write_clear(buf: &mut [u8], d: Dialect, s: WriterState, seqno: u64, keyspace: u64) -> Reply
    ensures { (result ≡ (write_call d buf.old s seqno (clear keyspace)).reply) × (buf.new ≡ (write_call d buf.old s seqno (clear keyspace)).bytes) }
{
    let mut state = s;
    let answer = try_write(buf, d, &mut state, seqno, Put::Clear { keyspace });
    Reply { state, answer }
}
