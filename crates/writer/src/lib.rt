// The writer: batches put entry by entry into a lent buffer. A state goes in by value and comes back with the answer.
// Public: WriterState, Reply, open, put_item, put_clear, close. They refuse by 20, 21, 22, 24, 23, 26, 25, 27, in this order.
#![tactic(auto)]

ghost use Rattle.std.specs.Prelude.{◌≡◌, ◌<◌, ◌^◌};
ghost use Rattle.dialect.specs.declared.Dialect.{Dialect};
ghost use Rattle.dialect.specs.Dialect.{code_of};
ghost use Rattle.entry.specs.Entry.{item, clear};
ghost use Rattle.encode.specs.Encoding.{put_of};
ghost use Rattle.writer.specs.Writing.{out_of_range, shared_refusal, open_refusal, put_refusal, close_refusal, outside, wrong_put, Leaves, open_call, put_call, close_call};

use dialect::{Dialect, ValueType, buffer_refusal};
use encode::{Put, fill_end, fill_start};
use number::LIMIT;
use refusal::{Refusal, above_limit, lacks, when, wrong_key};
use xxh3::hash_default;

// Where the writer stands: `start` is the place of the open batch's Start, `left` the entries still to come. Flat fields, and no Option of a
// batch: a state that was made up may hold any of them, and those that do not fit together are refused by 22 behind 20 and 21.
#[derive(Clone, Copy)]
pub struct WriterState {
    pub position: usize,
    pub start: usize,
    pub open: bool,
    pub left: u64,
}

// How many bytes were written, or why none, and the state behind the call.
#[derive(Clone, Copy)]
pub struct Reply {
    pub state: WriterState,
    pub answer: Result<usize, Refusal>,
}

// The hashed bytes of a batch begin so far behind its first byte.
pub const HASHED_FROM: usize = 13;

// ---- refusals

impl WriterState {
    // At a position outside a batch.
    pub fn outside(position: usize) -> WriterState
        ensures { result ≡ outside position }
    {
        WriterState {
            position,
            start: 0,
            open: false,
            left: 0,
        }
    }

    #[tactic(auto, unfolding(crate::specs::Writing::out_of_range))]
    fn out_of_range(self, len: usize) -> bool
        ensures { result ≡ out_of_range len self }
    {
        let wrong_batch = if self.open {
            self.position.saturating_sub(self.start) < HASHED_FROM
        } else {
            0 < self.left
        };
        len < self.position || wrong_batch || LIMIT < self.left
    }

    // 20, 21 and 22, which every call of the writer may answer.
    #[tactic(auto, unfolding(crate::specs::Writing::shared_refusal))]
    pub fn shared_refusal(self, d: Dialect, len: usize) -> Result<(), Refusal>
        ensures { result ≡ shared_refusal d len self }
    {
        buffer_refusal(d, len)?;
        when(self.out_of_range(len), Refusal::State)
    }

    // A count of 0 needs no room.
    #[tactic(auto, unfolding(crate::specs::Writing::open_refusal, crate::specs::Writing::no_room))]
    fn open_refusal(self, d: Dialect, len: usize, count: u64) -> Result<(), Refusal>
        ensures { result ≡ open_refusal d len self count }
    {
        let order = self.open;
        let many = above_limit(count);
        self.shared_refusal(d, len)?;
        when(order, Refusal::Order)?;
        when(many, Refusal::Count)?;
        let size = 22 + d.length as u128;
        let no_room = count != 0 && lacks(len, self.position, size);
        when(no_room, Refusal::NoRoom)
    }

    // Of an entry of `size` bytes; `wrong` says that its key may not be put. Assumes a size that may be added to.
    #[tactic(auto, unfolding(crate::specs::Writing::put_refusal, crate::specs::Writing::no_room))]
    fn put_refusal(self, d: Dialect, len: usize, wrong: bool, size: u128) -> Result<(), Refusal>
        requires { size < 2 ^ 66 }
        ensures { result ≡ put_refusal d len self wrong size }
    {
        let none_to_come = self.left == 0;
        self.shared_refusal(d, len)?;
        when(!self.open, Refusal::Order)?;
        when(none_to_come, Refusal::Counted)?;
        when(wrong, Refusal::Key)?;
        let with_end = size + (9 + d.length as u128);
        when(lacks(len, self.position, with_end), Refusal::NoRoom)
    }

    #[tactic(auto, unfolding(crate::specs::Writing::close_refusal, crate::specs::Writing::no_room))]
    fn close_refusal(self, d: Dialect, len: usize) -> Result<(), Refusal>
        ensures { result ≡ close_refusal d len self }
    {
        self.shared_refusal(d, len)?;
        when(!self.open, Refusal::Order)?;
        when(0 < self.left, Refusal::Counted)?;
        let size = 9 + d.length as u128;
        when(lacks(len, self.position, size), Refusal::NoRoom)
    }
}

// In a batch an empty key is wrong too.
#[inline(always)]
fn wrong_put(put: Put) -> bool
    ensures { (d : Dialect) → result ≡ wrong_put (put_of d put.entry) }
{
    match put {
        Put::Item(item) => wrong_key(item.key.len()),
        Put::Clear { .. } => false,
    }
}

// ---- the calls: what is refused changes neither the state nor a byte

impl WriterState {
    // A count of 0 writes and opens nothing.
    #[tactic(auto, using(crate::specs::Laws::open_ok, std::proofs::Common::ne_eqb, encode::specs::Laws::start_row_size, number::specs::Part::tail_put), unfolding(crate::specs::Writing::open_call, entry::specs::Entry::layout))]
    fn try_open(
        &mut self,
        buf: &mut [u8],
        d: Dialect,
        count: u64,
        seqno: u64,
    ) -> Result<usize, Refusal>
        ensures { Leaves (open_call d buf.old self.old count seqno) buf.new self.new result }
    {
        self.open_refusal(d, buf.len(), count)?;
        if count == 0 {
            return Ok(0);
        }
        let at = self.position;
        fill_start(&mut buf[at..], count, seqno);
        *self = WriterState {
            position: at + 13,
            start: at,
            open: true,
            left: count,
        };
        Ok(13)
    }

    #[inline(always)]
    #[tactic(auto, using(crate::specs::Laws::put_ok, number::specs::Part::tail_put), unfolding(crate::specs::Writing::put_call))]
    fn try_put(&mut self, buf: &mut [u8], d: Dialect, put: Put) -> Result<usize, Refusal>
        ensures { Leaves (put_call d buf.old self.old (put_of d put.entry)) buf.new self.new result }
    {
        let size = put.size();
        self.put_refusal(d, buf.len(), wrong_put(put), size)?;
        let at = self.position;
        let written = size as usize;
        put.fill(&mut buf[at..], d);
        self.position += written;
        self.left -= 1;
        Ok(written)
    }

    // The checksum is of the bytes that stand there, whoever put them.
    #[tactic(auto, using(crate::specs::Laws::close_ok, encode::specs::Laws::end_length, number::specs::Part::tail_put), unfolding(crate::specs::Writing::close_call, entry::specs::Entry::layout))]
    fn try_close(&mut self, buf: &mut [u8], d: Dialect) -> Result<usize, Refusal>
        ensures { Leaves (close_call d buf.old self.old) buf.new self.new result }
    {
        self.close_refusal(d, buf.len())?;
        let at = self.position;
        let from = self.start + HASHED_FROM;
        let checksum = hash_default(&buf[from..at]);
        fill_end(&mut buf[at..], d, checksum);
        let size = 9 + d.length;
        *self = WriterState::outside(at + size);
        Ok(size)
    }
}

// The same with the state by value, as C hands it over. Three lines each: one function over a closure would be no plainer, since its clauses
// would have to say what the closure leaves in the buffer.

pub fn open(buf: &mut [u8], d: Dialect, s: WriterState, count: u64, seqno: u64) -> Reply
    ensures { (result ≡ (open_call d buf.old s count seqno).reply) × (buf.new ≡ (open_call d buf.old s count seqno).bytes) }
{
    let mut state = s;
    let answer = state.try_open(buf, d, count, seqno);
    Reply { state, answer }
}

pub fn put_item(
    buf: &mut [u8],
    d: Dialect,
    s: WriterState,
    value_type: ValueType,
    keyspace: u64,
    key: &[u8],
    value: &[u8],
) -> Reply
    ensures { (result ≡ (put_call d buf.old s (item (code_of d value_type) keyspace key.now value.now)).reply) × (buf.new ≡ (put_call d buf.old s (item (code_of d value_type) keyspace key.now value.now)).bytes) }
{
    let mut state = s;
    let answer = state.try_put(buf, d, Put::item(value_type, keyspace, key, value));
    Reply { state, answer }
}

pub fn put_clear(buf: &mut [u8], d: Dialect, s: WriterState, keyspace: u64) -> Reply
    ensures { (result ≡ (put_call d buf.old s (clear keyspace)).reply) × (buf.new ≡ (put_call d buf.old s (clear keyspace)).bytes) }
{
    let mut state = s;
    let answer = state.try_put(buf, d, Put::Clear { keyspace });
    Reply { state, answer }
}

pub fn close(buf: &mut [u8], d: Dialect, s: WriterState) -> Reply
    ensures { (result ≡ (close_call d buf.old s).reply) × (buf.new ≡ (close_call d buf.old s).bytes) }
{
    let mut state = s;
    let answer = state.try_close(buf, d);
    Reply { state, answer }
}
