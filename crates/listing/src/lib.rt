// The dump: what a reading of a journal accepts, as text, line by line.
// Public: list.
#![tactic(auto)]

ghost use Rattle.std.specs.Prelude.{◌≡◌, Ok, ◌++◌, ◌+◌, ◌≤◌, length};
ghost use Rattle.plan.specs.Plan.{run_at};
ghost use Rattle.entry.specs.Entry.{item, clear, entry};
ghost use Rattle.reader.specs.Reading.{state_refusal};
ghost use Rattle.text.specs.Text.{ascii};
ghost use Rattle.text.specs.Written.{HasRoom, Written};
ghost use Rattle.listing.specs.Listing.{journal_line, batch_line, state_line, type_name, entry_line, list_refusal, listed};
ghost use Rattle.listing.specs.Walk.{line_of, next_of, lines_at, lines_from};

use dialect::{Dialect, ValueType};
use entry::{Decoded, Journal};
use reader::{Accepted, Reader, kept, step};
use refusal::{Refusal, when};
use text::Page;

// The most bytes of a journal that can be listed, and room enough for the listing of any such journal.
pub const LONGEST: usize = 65_536;

pub const ROOM: usize = 4 * LONGEST + 128;

// ---- lines: each assumes room for its bytes. No `write!`: text's digits_of says why.

#[tactic(auto, using(crate::proofs::Sizes::journal_size))]
fn put_journal(page: &mut Page, n: usize)
    requires { HasRoom (length (journal_line n)) page.old }
    ensures { Written (journal_line n) page.old page.new }
{
    page.named(b"journal ", n as u64);
    page.word(b" bytes\n");
}

// The type of an Item, between two spaces.
fn put_type(page: &mut Page, d: Dialect, code: u8)
    requires { HasRoom (2 + length (type_name d code)) page.old }
    ensures { Written (ascii " " ++ type_name d code ++ ascii " ") page.old page.new }
{
    match d.value_type(code) {
        Some(ValueType::Value) => page.word(b" V "),
        Some(ValueType::Tombstone) => page.word(b" T "),
        Some(ValueType::WeakTombstone) => page.word(b" W "),
        _ => page.word(b" Vb "),
    }
}

#[tactic(auto, using(crate::proofs::Sizes::item_size))]
fn put_item(page: &mut Page, d: Dialect, code: u8, keyspace: u64, key: &[u8], value: &[u8])
    requires { HasRoom (length (entry_line d (item code keyspace key.now value.now))) page.old }
    ensures { Written (entry_line d (item code keyspace key.now value.now)) page.old page.new }
{
    page.named(b"item ", keyspace);
    put_type(page, d, code);
    page.pair(key, value);
}

#[tactic(auto, using(crate::proofs::Sizes::clear_size))]
fn put_clear(page: &mut Page, d: Dialect, keyspace: u64)
    requires { HasRoom (length (entry_line d (clear keyspace))) page.old }
    ensures { Written (entry_line d (clear keyspace)) page.old page.new }
{
    page.named(b"clear ", keyspace);
    page.end_line();
}

#[tactic(auto, using(crate::proofs::Sizes::batch_size))]
fn put_start(page: &mut Page, position: usize, seqno: u64, count: u64)
    requires { HasRoom (length (batch_line position seqno count)) page.old }
    ensures { Written (batch_line position seqno count) page.old page.new }
{
    page.named(b"@", position as u64);
    page.named(b" seq ", seqno);
    page.named(b" entries ", count);
    page.end_line();
}

// ---- a batch: in a struct of page and journal each contract would have to say besides that the journal stays

// The entry at a position: its line, and where to go on. What is neither an Item nor a Clear has no line.
fn put_entry(page: &mut Page, journal: &Journal, at: usize) -> usize
    requires { let d = journal.now.dialect in let s = journal.now.image.now in (at ≤ length s) × HasRoom (length (line_of d (run_at (entry d) s at))) page.old }
    ensures { let d = journal.now.dialect in let s = journal.now.image.now in Written (line_of d (run_at (entry d) s at)) page.old page.new × (result ≡ next_of at (run_at (entry d) s at)) }
{
    let Ok(e) = journal.entry_at(at) else {
        return at;
    };
    match e {
        Decoded::Item {
            value_type,
            keyspace,
            key_at,
            value_at,
            next,
            ..
        } => {
            put_item(
                page,
                journal.dialect,
                value_type,
                keyspace,
                &journal.image[key_at..value_at],
                &journal.image[value_at..next],
            );
            next
        }
        Decoded::Clear { keyspace, next } => {
            put_clear(page, journal.dialect, keyspace);
            next
        }
        _ => at,
    }
}

// So many entries, from a position on.
fn put_entries(page: &mut Page, journal: &Journal, count: u64, body: usize)
    requires { (body ≤ length journal.now.image.now) × HasRoom (length (lines_at journal.now.dialect journal.now.image.now count body)) page.old }
    ensures { Written (lines_at journal.now.dialect journal.now.image.now count body) page.old page.new }
{
    let mut at = body;
    for _ in 0..count {
        at = put_entry(page, journal, at);
    }
}

// An accepted batch, whose Start stands at a position: its own line and those of its entries.
fn put_batch(page: &mut Page, journal: &Journal, position: usize, batch: Accepted)
    requires { (batch.body ≤ length journal.now.image.now) × HasRoom (length (batch_line position batch.seqno batch.count) + length (lines_at journal.now.dialect journal.now.image.now batch.count batch.body)) page.old }
    ensures { Written (batch_line position batch.seqno batch.count ++ lines_at journal.now.dialect journal.now.image.now batch.count batch.body) page.old page.new }
{
    put_start(page, position, batch.seqno, batch.count);
    put_entries(page, journal, batch.count, batch.body);
}

// ---- the listing

// The end of a reading of n bytes. Assumes a state that is in range for them, so `kept` does not refuse it.
#[tactic(auto, using(crate::proofs::Sizes::end_size, crate::proofs::Ends::kept_bytes))]
fn put_end(page: &mut Page, n: usize, state: Reader)
    requires { (state_refusal n state ≡ Ok tt) × HasRoom (length (state_line n state)) page.old }
    ensures { Written (state_line n state) page.old page.new }
{
    let Ok(bytes) = kept(n, state) else {
        return;
    };
    page.named(b"end ", state.outcome.unwrap_or(0) as u64);
    page.named(b" valid ", state.position as u64);
    page.named(b" kept ", bytes as u64);
    page.end_line();
}

// Step after step from position 0: the lines of each accepted batch, and the end.
fn put_reading(page: &mut Page, journal: &Journal)
    requires { HasRoom (length (lines_from journal.now.dialect journal.now.image.now 0)) page.old }
    ensures { Written (lines_from journal.now.dialect journal.now.image.now 0) page.old page.new }
{
    let mut state = Reader::new();
    // no range and no iterator: each step gives the state to go on from, or the end
    loop {
        let stepped = step(journal.image, state, journal.dialect);
        let Ok(batch) = stepped.answer else {
            return put_end(page, journal.image.len(), stepped.reader);
        };
        put_batch(page, journal, state.position, batch);
        state = stepped.reader;
    }
}

#[tactic(auto, unfolding(crate::specs::Listing::list_refusal))]
fn list_refusal(d: Dialect, n: usize, room: usize) -> Result<(), Refusal>
    ensures { result ≡ list_refusal d n room }
{
    when(!d.is_good(), Refusal::Dialect)?;
    when(LONGEST < n, Refusal::TooLong)?;
    when(room < 4 * n + 128, Refusal::NoRoom)
}

// The listing of a journal over the front of out, and how many bytes it has; or 20, 21 for a journal above 65,536 bytes, 27 for
// less room than 4 bytes to each byte of the journal and 128, with out as it was.
#[tactic(auto, unfolding(crate::specs::Listing::listed))]
pub fn list(image: &[u8], d: Dialect, out: &mut [u8]) -> Result<usize, Refusal>
    ensures { (result ≡ (listed d image.now out.old).answer) × (out.new ≡ (listed d image.now out.old).buffer) }
{
    let length = image.len();
    let room = out.len();
    list_refusal(d, length, room)?;
    let journal = Journal { image, dialect: d };
    let mut page = Page::new(out);
    put_journal(&mut page, length);
    put_reading(&mut page, &journal);
    Ok(page.len())
}
