// A test of a single end that its host steps and hands in. Each line of its input is a case; the first number says what is done with the end:
// 1 starts one, 2 to 8 step it as its host does, 10 to 23 put something into its state.
// Its expected output was worked out by hand from document 01.
// Assumes nothing.
#![tactic(auto)]

ghost use Rattle.std.specs.Prelude.{◌<◌};

use answers::{After, Refusal, answer_of};
use cases::Case;
use counters::{Counts, Data, Header, Seq};
use credits::{Credit, Room};
use ends::End;
use frames::{Frame, Message};
use packets::{Category, Packet};
use receiver::{Owed, Receiver, Reply};
use sender::{Replay, Sender};
use setup::{Setup, Units};
use std::io;
use store::Packets;

// Each category of a channel in use has 2 header and 4 data units at either end. With two channels in use class 1 is on channel 1; the
// others are on channel 0.
fn link(n: u8) -> Setup {
    let some = Units {
        header: 2,
        payload: 4,
    };
    let none = Units {
        header: 0,
        payload: 0,
    };
    let second = if n == 2 { some } else { none };
    let class = if n == 2 { 1 } else { 0 };
    let units = [
        some, some, some, second, second, second, none, none, none, none, none, none, some, some,
        some, second, second, second, none, none, none, none, none, none,
    ];
    Setup {
        n,
        classes: [class, 0, 0, 0, 0, 0, 0],
        units,
    }
}

fn started(n: u8) -> End {
    End::start(link(n)).unwrap_or(End::of(Setup::blank()))
}

// The answer and the detail of a step; the end after it.
fn stepped(rt: &impl Print, e: End, s: Result<After<End>, Refusal>) -> io::Result<End> {
    match s {
        Ok(after) => {
            print!(rt; ": 0 {}", after.detail)?;
            Ok(after.state)
        }
        Err(refusal) => {
            print!(rt; ": {} 0", refusal.number())?;
            Ok(e)
        }
    }
}

fn counts(h: u8, d: u16) -> Counts {
    Counts {
        h: Header(h),
        d: Data(d),
    }
}

// The packet at these numbers of a line: kind, class, length.
fn packet(c: Case, first: usize, ident: u32) -> Packet
    requires { first < 8 }
{
    Packet {
        kind: c.number(first),
        class: c.number(first + 1),
        length: c.number(first + 2),
        ident,
    }
}

// 1: a packet with its number; 2: an Ack; 3: an update of posted packets.
fn frame(c: Case) -> Frame {
    match c.number::<u64>(1) {
        1 => Frame::Packet(Seq(c.number(2)), packet(c, 3, c.number(6))),
        2 => Frame::Message(Message::Ack(Seq(c.number(2)))),
        _ => Frame::Message(Message::Update {
            channel: c.number(2),
            category: Category::Posted,
            counts: counts(c.number(3), c.number(4)),
        }),
    }
}

// The number in a frame, or the header count of an update.
fn carried(f: Frame) -> u16 {
    match f {
        Frame::Packet(number, _) => number.0,
        Frame::Message(Message::Ack(number) | Message::Nak(number)) => number.0,
        Frame::Message(Message::Update { counts, .. }) => u16::from(counts.h.0),
    }
}

// Send: its answer, its detail, and what the frame carries; the end after it.
fn send(rt: &impl Print, e: End) -> io::Result<End> {
    match checked::send(e) {
        Ok(sent) => {
            print!(rt; ": 0 {} {}", sent.detail, carried(sent.frame))?;
            Ok(sent.end)
        }
        Err(refusal) => {
            print!(rt; ": {} 0", refusal.number())?;
            Ok(e)
        }
    }
}

// In shape or not, and what Timer answers: 10 where it is not; 0 where packets are out, else 23.
fn shown(rt: &impl Print, e: End) -> io::Result<End> {
    let inside = u8::from(shape::in_shape(e));
    print!(rt; ": {inside} {}", answer_of(checked::timer(e)))?;
    Ok(e)
}

fn many(packet: Packet, len: usize) -> Packets {
    Packets {
        items: [packet; 48],
        len,
    }
}

fn found(c: Case) -> Option<usize> {
    match c.number::<u64>(1) {
        1 => Some(c.number(2)),
        _ => None,
    }
}

// For posted packets on channel 0 at the other end.
fn put_units(s: &mut Setup, c: Case) {
    s.units[12] = Units {
        header: c.number(1),
        payload: c.number(2),
    };
}

fn put_queue(s: &mut Sender, c: Case) {
    s.queues[0] = many(packet(c, 1, 7), c.number(4));
}

// These are out, after the number acknowledged last and before the next one.
fn put_buffer(s: &mut Sender, c: Case) {
    s.acked = Seq(c.number(1));
    s.buffer = many(packet(c, 2, 7), c.number(5));
    s.next = Seq(c.number(6));
}

fn put_replay(s: &mut Sender, c: Case) {
    s.replay.at = found(c);
    s.replay.count = c.number(3);
}

fn put_credit(s: &mut Sender, c: Case) {
    s.credits[0] = Credit {
        limit: counts(2, c.number(1)),
        consumed: counts(0, c.number(2)),
    };
}

fn put_reply(r: &mut Receiver, c: Case) {
    r.reply = Reply {
        next_receive: Seq(c.number(1)),
        nak_sent: false,
        owed: Owed::Nothing,
    };
}

// These wait in the receive buffer of channel 0, with this room for its posted packets.
fn put_inbox(r: &mut Receiver, c: Case) {
    r.inboxes[0] = many(packet(c, 1, 7), c.number(4));
    r.rooms[0] = Room {
        allocated: counts(c.number(5), c.number(6)),
        received: counts(c.number(7), c.number(8)),
        marked: false,
    };
}

fn put_mark(r: &mut Receiver, c: Case) {
    let slot = c.number::<usize>(1) % setup::PER_END;
    r.rooms[slot] = r.rooms[slot].mark();
}

// The state with something put into it: into the setup, the sender or the receiver.
fn with(mut e: End, c: Case) -> End {
    match c.code() {
        10 => put_units(&mut e.setup, c),
        11 => put_queue(&mut e.sender, c),
        12 => put_buffer(&mut e.sender, c),
        13 => put_replay(&mut e.sender, c),
        14 => put_credit(&mut e.sender, c),
        21 => put_reply(&mut e.receiver, c),
        22 => put_inbox(&mut e.receiver, c),
        _ => put_mark(&mut e.receiver, c),
    }
    e
}

fn done(rt: &impl Print, e: End, c: Case) -> io::Result<End> {
    match c.code() {
        1 => shown(rt, started(c.number(1))),
        2 => stepped(rt, e, checked::submit(e, packet(c, 1, 7))),
        3 => send(rt, e),
        4 => stepped(rt, e, checked::arrive(e, frame(c))),
        5 => stepped(rt, e, checked::damage(e, frame(c))),
        6 => stepped(rt, e, checked::take(e, c.number(1), c.number(2))),
        7 => stepped(rt, e, checked::timer(e)),
        8 => stepped(rt, e, checked::refresh(e)),
        _ => shown(rt, with(e, c)),
    }
}

fn main(rt: HostRuntime) -> io::Result<()> {
    let mut e = started(1);
    cases::each(&rt, |case| {
        e = done(&rt, e, case)?;
        Ok(())
    })
}
