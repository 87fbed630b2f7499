// A script of calls over one buffer, accepted and refused. A line to each call: what it answered, the state that it returned, and the
// bytes that stand between the position it was given and the one it returned. The last line is the whole buffer.
#![tactic(auto)]

use dialect::{Dialect, ValueType};
use std::fmt::{Display, Formatter};
use std::{fmt, io};
use writer::{Reply, WriterState};

// Where a writer begins.
const EMPTY: WriterState = WriterState {
    position: 0,
    start: 0,
    open: false,
    left: 0,
};

// One byte longer than a key may be.
const LONG: [u8; 65_536] = [b'k'; 65_536];

// Bytes as two digits each, none as `-`.
#[derive(Clone, Copy)]
struct Hex<'a>(&'a [u8]);

impl Display for Hex<'_> {
    fn fmt<W: fmt::Write>(&self, f: &mut Formatter<W>) -> fmt::Result {
        if self.0.is_empty() {
            return write!(f, "-");
        }
        for b in self.0 {
            write!(f, "{b:02x}")?;
        }
        Ok(())
    }
}

// Each call goes on from the state that the last one returned.
#[derive(Drop)]
struct Script<'a, P> {
    rt: &'a P,
    buffer: [u8; 176],
    dialect: Dialect,
    state: WriterState,
}

impl<P: Print> Script<'_, P> {
    // Prints a reply, and goes on from its state.
    fn told(&mut self, call: &str, reply: Reply) -> io::Result<()> {
        let next = reply.state;
        match reply.answer {
            Ok(n) => print!(self.rt; "{call}: wrote {n}")?,
            Err(refusal) => print!(self.rt; "{call}: refused {refusal}")?,
        }
        let open = if next.open { " open" } else { "" };
        print!(self.rt;
            " position {} start {}{open} left {} ",
            next.position, next.start, next.left
        )?;
        let between = self.buffer.get(self.state.position..next.position);
        println!(self.rt; "{}", Hex(between.unwrap_or(&[])))?;
        self.state = next;
        Ok(())
    }

    // ---- the calls, each with its line

    fn open(&mut self, count: u64) -> io::Result<()> {
        let reply = writer::open(&mut self.buffer, self.dialect, self.state, count, 7);
        self.told("open", reply)
    }

    fn put_item(&mut self, key: &[u8]) -> io::Result<()> {
        let reply = writer::put_item(
            &mut self.buffer,
            self.dialect,
            self.state,
            ValueType::Value,
            2,
            key,
            b"xy",
        );
        self.told("put_item", reply)
    }

    fn put_clear(&mut self) -> io::Result<()> {
        let reply = writer::put_clear(&mut self.buffer, self.dialect, self.state, 2);
        self.told("put_clear", reply)
    }

    fn close(&mut self) -> io::Result<()> {
        let reply = writer::close(&mut self.buffer, self.dialect, self.state);
        self.told("close", reply)
    }

    fn write_raw(&mut self, key: &[u8]) -> io::Result<()> {
        let reply = one_entry::write_raw(
            &mut self.buffer,
            self.dialect,
            self.state,
            8,
            ValueType::Tombstone,
            3,
            key,
            b"",
        );
        self.told("write_raw", reply)
    }

    fn write_clear(&mut self) -> io::Result<()> {
        let reply = one_entry::write_clear(&mut self.buffer, self.dialect, self.state, 9, 3);
        self.told("write_clear", reply)
    }

    // ---- the script

    fn out_of_order(&mut self) -> io::Result<()> {
        self.close()?;
        self.put_clear()?;
        self.put_item(b"a")
    }

    fn counts(&mut self) -> io::Result<()> {
        self.open(4_294_967_296)?;
        self.open(0)?;
        self.open(2)
    }

    fn inside_a_batch(&mut self) -> io::Result<()> {
        self.open(1)?;
        self.write_raw(b"a")?;
        self.write_clear()
    }

    fn keys(&mut self) -> io::Result<()> {
        self.close()?;
        self.put_item(b"")?;
        self.put_item(&LONG)
    }

    fn entries(&mut self) -> io::Result<()> {
        self.put_item(b"a")?;
        self.put_clear()?;
        self.put_item(b"")
    }

    fn close_and_one(&mut self) -> io::Result<()> {
        self.close()?;
        self.write_raw(&LONG)?;
        self.write_raw(b"")
    }

    // The last batch takes exactly what is left: its Clear fits where an Item does not.
    fn to_the_end(&mut self) -> io::Result<()> {
        self.write_clear()?;
        self.open(1)?;
        self.put_item(b"a")?;
        self.put_clear()
    }

    fn no_more_room(&mut self) -> io::Result<()> {
        self.close()?;
        self.open(1)?;
        self.write_clear()
    }

    // Past the buffer, with no room for a Start in front, and entries to come in no batch.
    fn made_up(&mut self) -> io::Result<()> {
        self.state = WriterState {
            position: 177,
            ..EMPTY
        };
        self.open(1)?;
        self.state = WriterState {
            position: 12,
            open: true,
            left: 1,
            ..EMPTY
        };
        self.put_clear()?;
        self.state = WriterState {
            position: 13,
            left: 1,
            ..EMPTY
        };
        self.write_clear()
    }

    // The same call under a dialect that is not good, and under one that is.
    fn not_good(&mut self) -> io::Result<()> {
        let good = self.dialect;
        self.state = WriterState {
            position: 163,
            start: 135,
            open: true,
            ..EMPTY
        };
        self.dialect.length = 9;
        self.close()?;
        self.dialect = good;
        self.close()
    }

    // One byte too few, and exactly enough.
    fn exact_room(&mut self) -> io::Result<()> {
        self.state = WriterState {
            position: 142,
            ..EMPTY
        };
        self.write_clear()?;
        self.state = WriterState {
            position: 141,
            ..EMPTY
        };
        self.write_clear()
    }
}

fn main(rt: HostRuntime) -> io::Result<()> {
    let mut script = Script {
        rt: &rt,
        buffer: [0xEE; 176],
        dialect: Dialect::TEST,
        state: EMPTY,
    };
    script.out_of_order()?;
    script.counts()?;
    script.inside_a_batch()?;
    script.keys()?;
    script.entries()?;
    script.close_and_one()?;
    script.to_the_end()?;
    script.no_more_room()?;
    script.made_up()?;
    script.not_good()?;
    script.exact_room()?;
    println!(rt; "{}", Hex(&script.buffer))
}
