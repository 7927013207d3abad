// A client that waits for each reply before it sends more: all replies are flushed before the next read.
use crate::check::Check;
use std::cell::Cell;
use std::io;
use std::io::{Read, Write};
use stream_program::stream_run;
use test_checks::{check, check_eq};

// What a client sends, each part once the octets that answer the parts before it have reached it.
const TALK: [(&[u8], usize); 5] = [
    (b"\x7F\xF1\0\0", 4),
    (
        b"\0\0\0\x28[1,\"realm1\",{\"roles\":{\"subscriber\":{}}}]",
        274,
    ),
    (b"\0\0\0\x0F[32,1,{},\"a.b\"]", 12),
    (
        b"\0\0\0\x3B[16,2,{\"acknowledge\":true,\"exclude_me\":false},\"a.b\",[\"hi\"]]",
        34,
    ),
    (b"\0\0\0\x1F[6,{},\"wamp.close.close_realm\"]", 39),
];

// A client that sends its next part, or ends, only after the answers to the parts before; a read before that fails.
#[derive(Drop)]
struct Client<'a> {
    others: &'a [(&'a [u8], usize)],
    part: &'a [u8],
    due: usize,
    received: &'a Cell<usize>,
}

impl Read for Client<'_> {
    fn read(&mut self, buf: &mut [u8]) -> io::Result<usize> {
        if self.part.is_empty() {
            if self.received.get() != self.due {
                return Err(io::ErrorKind::Other.into());
            }
            let [(part, answered), others @ ..] = self.others else {
                return Ok(0);
            };
            self.part = part;
            self.due = self.due.wrapping_add(*answered);
            self.others = others;
        }
        self.part.read(buf)
    }
}

// The way to the client: what is written reaches it once it is flushed.
#[derive(Drop)]
struct Way<'a> {
    waiting: usize,
    received: &'a Cell<usize>,
}

impl Write for Way<'_> {
    fn write(&mut self, buf: &[u8]) -> io::Result<usize> {
        self.waiting = self.waiting.wrapping_add(buf.len());
        Ok(buf.len())
    }

    fn flush(&mut self) -> io::Result<()> {
        self.received
            .set(self.received.get().wrapping_add(self.waiting));
        self.waiting = 0;
        Ok(())
    }
}

#[test]
fn answers_before_the_next_read(rt: HostRuntime) {
    let received = Cell::new(0);
    let mut client = Client {
        others: &TALK,
        part: b"",
        due: 0,
        received: &received,
    };
    let mut way = Way {
        waiting: 0,
        received: &received,
    };
    let outcome = stream_run(rt.alloc(), &mut client, &mut way, "realm1");
    check_eq!(&rt; outcome, Ok(()));
    check!(&rt; client.others.is_empty());
    check_eq!(&rt; received.get(), 363);
}
