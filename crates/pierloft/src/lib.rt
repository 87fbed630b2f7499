// What Rust and C call. include/pierloft.h declares and documents each function. A layer over the calls of the other crates and no more:
// crate flat turns what cannot cross to C into numbers. Public: the functions pierloft_*. Their parameters and answers are C's, so that none
// of them travel together in a struct.
#![tactic(auto)]

ghost use Rattle.std.specs.Prelude.{◌≡◌, not};
ghost use Rattle.dialect.specs.Dialect.{good, code_of, SHIPPED as shipped_dialect, TEST as test_dialect};
ghost use Rattle.refusal.specs.Refusal.{answer_number, when_of};
ghost use Rattle.refusal.specs.declared.Refusal.TheVariants as refusal;
ghost use Rattle.entry.specs.Entry.{start, item, clear, body, end};
ghost use Rattle.entry.specs.Decoded.{decoded};
ghost use Rattle.encode.specs.Encoding.{encoded};
ghost use Rattle.view.specs.View.{pair_of, body_span};
ghost use Rattle.xxh3.specs.Xxh3.{default_secret, hash};
ghost use Rattle.xxh3.specs.Hashed.{hashed};
ghost use Rattle.stream.specs.Stream.{fresh, state};
ghost use Rattle.stream.specs.Calls.{absorbed, finished};
ghost use Rattle.reader.specs.Reading.{stepped, kept_of};
ghost use Rattle.writer.specs.Writing.{open_call, put_call, close_call, write_call};
ghost use Rattle.flat.specs.Flat.{flat_entry, reader_of, flat_stepped, flat_count, key_span, value_span, flat_span, flat_hash, flat_absorbed, type_of, writer_of, flat_reply, typed_count, typed_reply, typed_bytes};

use dialect::{Dialect, ValueType};
use entry::Fault;
use flat::{
    Absorbed, FlatCount, FlatEntry, FlatHash, FlatReader, FlatReply, FlatSpan, FlatStepped,
    FlatWriter, flat_entry,
};
use refusal::{Refusal, answer_number};
use stream::Hasher;
use view::NoItem;

// A value type handed over as a number that is none of the four.
const WRONG_TYPE: u32 = Fault::ValueType as u32;

// ---- the layout of the structs

// Its name is the promise: header and archive of different layouts don't link. The number rises with each change of a struct.
#[unsafe(no_mangle)]
pub extern "C" fn pierloft_abi_1() -> u32
    ensures { result ≡ 1 }
{
    1
}

// ---- dialects

#[unsafe(no_mangle)]
pub extern "C" fn pierloft_shipped() -> Dialect
    ensures { result ≡ shipped_dialect }
{
    Dialect::shipped()
}

#[unsafe(no_mangle)]
pub extern "C" fn pierloft_test() -> Dialect
    ensures { result ≡ test_dialect }
{
    Dialect::test()
}

#[unsafe(no_mangle)]
pub extern "C" fn pierloft_check(d: Dialect) -> u32
    ensures { result ≡ answer_number (when_of (not (good d)) refusal.Dialect) }
{
    answer_number(refusal::when(!d.is_good(), Refusal::Dialect))
}

// ---- entries

#[unsafe(no_mangle)]
pub extern "C" fn pierloft_decode(image: &[u8], at: usize, d: Dialect) -> FlatEntry
    ensures { result ≡ flat_entry d (decoded d image.now at) }
{
    flat_entry(d, entry::decode(image, at, d))
}

// ---- reading

#[unsafe(no_mangle)]
pub extern "C" fn pierloft_step(image: &[u8], reader: FlatReader, d: Dialect) -> FlatStepped
    ensures { result ≡ flat_stepped reader (stepped d (hash default_secret) image.now (reader_of reader)) }
{
    reader.stepped(reader::step(image, reader.into(), d))
}

#[unsafe(no_mangle)]
pub extern "C" fn pierloft_kept(length: usize, reader: FlatReader) -> FlatCount
    ensures { result ≡ flat_count (kept_of length (reader_of reader)) }
{
    reader::kept(length, reader.into()).into()
}

// ---- views

// The part alone tells `pierloft_key` and `pierloft_value` apart: a function that took it would be as long as both.
#[unsafe(no_mangle)]
pub extern "C" fn pierloft_key(image: &[u8], at: usize, d: Dialect) -> FlatSpan
    ensures { result ≡ key_span (pair_of (decoded d image.now at)) }
{
    let pair = view::pair_of(entry::decode(image, at, d));
    let key = pair.map(|pair| pair.key);
    key.map_err(NoItem::number).into()
}

#[unsafe(no_mangle)]
pub extern "C" fn pierloft_value(image: &[u8], at: usize, d: Dialect) -> FlatSpan
    ensures { result ≡ value_span (pair_of (decoded d image.now at)) }
{
    let pair = view::pair_of(entry::decode(image, at, d));
    let value = pair.map(|pair| pair.value);
    value.map_err(NoItem::number).into()
}

#[unsafe(no_mangle)]
pub extern "C" fn pierloft_body(length: usize, from: usize, to: usize) -> FlatSpan
    ensures { result ≡ flat_span (body_span length from to) }
{
    let body = view::body_span(length, from, to);
    body.map_err(Refusal::number).into()
}

// ---- XXH3-64

#[unsafe(no_mangle)]
pub extern "C" fn pierloft_xxh3_64(bytes: &[u8]) -> FlatHash
    ensures { result ≡ flat_hash (hashed bytes.now) }
{
    xxh3::xxh3_64(bytes).into()
}

#[unsafe(no_mangle)]
pub extern "C" fn pierloft_hasher_new() -> Hasher
    ensures { result ≡ fresh }
{
    Hasher::new()
}

#[unsafe(no_mangle)]
pub extern "C" fn pierloft_absorb(state: Hasher, piece: &[u8]) -> Absorbed
    ensures { result ≡ flat_absorbed (absorbed state piece.now) }
{
    stream::absorb(state, piece).into()
}

#[unsafe(no_mangle)]
pub extern "C" fn pierloft_finish(state: Hasher) -> FlatHash
    ensures { result ≡ flat_hash (finished state) }
{
    stream::finish(state).into()
}

// The same two over the parts of a state, each lent: no copy of it is made.

#[unsafe(no_mangle)]
pub extern "C" fn pierloft_absorb_at(
    acc: &mut [u64; 8],
    hold: &mut [u8; 256],
    total: &mut u64,
    piece: &[u8],
) -> u32
    ensures { (result ≡ answer_number (absorbed (state acc.old hold.old total.old) piece.now).answer) × (state acc.new hold.new total.new ≡ (absorbed (state acc.old hold.old total.old) piece.now).state) }
{
    answer_number(stream::absorb_at(acc, hold, total, piece))
}

#[unsafe(no_mangle)]
pub extern "C" fn pierloft_finish_at(acc: &[u64; 8], hold: &[u8; 256], total: u64) -> FlatHash
    ensures { result ≡ flat_hash (finished (state acc.now hold.now total)) }
{
    stream::finish_at(acc, hold, total).into()
}

// `pierloft_absorb` on a state that is lent and changed in place.
#[unsafe(no_mangle)]
pub extern "C" fn pierloft_absorb_into(state: &mut Hasher, piece: &[u8]) -> u32
    ensures { (result ≡ answer_number (absorbed state.old piece.now).answer) × (state.new ≡ (absorbed state.old piece.now).state) }
{
    answer_number(stream::absorb_into(state, piece))
}

// ---- entries written

#[unsafe(no_mangle)]
pub extern "C" fn pierloft_encode_start(
    buf: &mut [u8],
    d: Dialect,
    count: u32,
    seqno: u64,
) -> FlatCount
    ensures { (result ≡ flat_count (encoded d (start count seqno) buf.old).answer) × (buf.new ≡ (encoded d (start count seqno) buf.old).buffer) }
{
    encode::encode_start(buf, d, count, seqno).into()
}

#[tactic(auto, using(flat::proofs::Laws::typed, flat::proofs::Laws::untyped), unfolding(flat::specs::Flat::typed_count, flat::specs::Flat::typed_bytes))]
#[unsafe(no_mangle)]
pub extern "C" fn pierloft_encode_item(
    buf: &mut [u8],
    d: Dialect,
    value_type: u8,
    keyspace: u64,
    key: &[u8],
    value: &[u8],
) -> FlatCount
    ensures { (result ≡ typed_count value_type (encoded d (body (item (code_of d (type_of value_type)) keyspace key.now value.now)) buf.old)) × (buf.new ≡ typed_bytes value_type buf.old (encoded d (body (item (code_of d (type_of value_type)) keyspace key.now value.now)) buf.old).buffer) }
{
    let Ok(kind) = ValueType::try_from(value_type) else {
        return FlatCount::refused(WRONG_TYPE);
    };
    encode::encode_item(buf, d, kind, keyspace, key, value).into()
}

#[unsafe(no_mangle)]
pub extern "C" fn pierloft_encode_end(buf: &mut [u8], d: Dialect, checksum: u64) -> FlatCount
    ensures { (result ≡ flat_count (encoded d (end checksum) buf.old).answer) × (buf.new ≡ (encoded d (end checksum) buf.old).buffer) }
{
    encode::encode_end(buf, d, checksum).into()
}

#[unsafe(no_mangle)]
pub extern "C" fn pierloft_encode_clear(buf: &mut [u8], d: Dialect, keyspace: u64) -> FlatCount
    ensures { (result ≡ flat_count (encoded d (body (clear keyspace)) buf.old).answer) × (buf.new ≡ (encoded d (body (clear keyspace)) buf.old).buffer) }
{
    encode::encode_clear(buf, d, keyspace).into()
}

// ---- the writer

#[unsafe(no_mangle)]
pub extern "C" fn pierloft_open(
    buf: &mut [u8],
    d: Dialect,
    writer: FlatWriter,
    count: u64,
    seqno: u64,
) -> FlatReply
    ensures { (result ≡ flat_reply writer (open_call d buf.old (writer_of writer) count seqno).reply) × (buf.new ≡ (open_call d buf.old (writer_of writer) count seqno).bytes) }
{
    writer.reply(writer::open(buf, d, writer.into(), count, seqno))
}

#[tactic(auto, using(flat::proofs::Laws::typed, flat::proofs::Laws::untyped), unfolding(flat::specs::Flat::typed_reply, flat::specs::Flat::typed_bytes))]
#[unsafe(no_mangle)]
pub extern "C" fn pierloft_put_item(
    buf: &mut [u8],
    d: Dialect,
    writer: FlatWriter,
    value_type: u8,
    keyspace: u64,
    key: &[u8],
    value: &[u8],
) -> FlatReply
    ensures { (result ≡ typed_reply value_type writer (put_call d buf.old (writer_of writer) (item (code_of d (type_of value_type)) keyspace key.now value.now))) × (buf.new ≡ typed_bytes value_type buf.old (put_call d buf.old (writer_of writer) (item (code_of d (type_of value_type)) keyspace key.now value.now)).bytes) }
{
    let Ok(kind) = ValueType::try_from(value_type) else {
        return writer.refused(WRONG_TYPE);
    };
    let reply = writer::put_item(buf, d, writer.into(), kind, keyspace, key, value);
    writer.reply(reply)
}

#[unsafe(no_mangle)]
pub extern "C" fn pierloft_put_clear(
    buf: &mut [u8],
    d: Dialect,
    writer: FlatWriter,
    keyspace: u64,
) -> FlatReply
    ensures { (result ≡ flat_reply writer (put_call d buf.old (writer_of writer) (clear keyspace)).reply) × (buf.new ≡ (put_call d buf.old (writer_of writer) (clear keyspace)).bytes) }
{
    writer.reply(writer::put_clear(buf, d, writer.into(), keyspace))
}

#[unsafe(no_mangle)]
pub extern "C" fn pierloft_close(buf: &mut [u8], d: Dialect, writer: FlatWriter) -> FlatReply
    ensures { (result ≡ flat_reply writer (close_call d buf.old (writer_of writer)).reply) × (buf.new ≡ (close_call d buf.old (writer_of writer)).bytes) }
{
    writer.reply(writer::close(buf, d, writer.into()))
}

#[tactic(auto, using(flat::proofs::Laws::typed, flat::proofs::Laws::untyped), unfolding(flat::specs::Flat::typed_reply, flat::specs::Flat::typed_bytes))]
#[unsafe(no_mangle)]
pub extern "C" fn pierloft_write_raw(
    buf: &mut [u8],
    d: Dialect,
    writer: FlatWriter,
    seqno: u64,
    value_type: u8,
    keyspace: u64,
    key: &[u8],
    value: &[u8],
) -> FlatReply
    ensures { (result ≡ typed_reply value_type writer (write_call d buf.old (writer_of writer) seqno (item (code_of d (type_of value_type)) keyspace key.now value.now))) × (buf.new ≡ typed_bytes value_type buf.old (write_call d buf.old (writer_of writer) seqno (item (code_of d (type_of value_type)) keyspace key.now value.now)).bytes) }
{
    let Ok(kind) = ValueType::try_from(value_type) else {
        return writer.refused(WRONG_TYPE);
    };
    let reply = one_entry::write_raw(buf, d, writer.into(), seqno, kind, keyspace, key, value);
    writer.reply(reply)
}

#[unsafe(no_mangle)]
pub extern "C" fn pierloft_write_clear(
    buf: &mut [u8],
    d: Dialect,
    writer: FlatWriter,
    seqno: u64,
    keyspace: u64,
) -> FlatReply
    ensures { (result ≡ flat_reply writer (write_call d buf.old (writer_of writer) seqno (clear keyspace)).reply) × (buf.new ≡ (write_call d buf.old (writer_of writer) seqno (clear keyspace)).bytes) }
{
    writer.reply(one_entry::write_clear(buf, d, writer.into(), seqno, keyspace))
}
