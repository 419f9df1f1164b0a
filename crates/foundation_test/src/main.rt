// A test on values that are out of range, at their ends and past them: what packets, counters and frames answer. And the lines of a
// listing, in buffers that are just too short, just long enough, and longer. Each line of its input is a case; the first number says what
// is done. Its expected output was worked out by hand from document 01. Assumes nothing.
#![tactic(auto)]

use answers::{Refusal, answer_of};
use cases::Case;
use counters::{Counts, Data, Header, Order, Retrain, Seq, Wrapped};
use frames::{Frame, Message};
use packets::{Category, Packet};
use std::io;

fn packet(kind: u8, class: u8, length: u16) -> Packet {
    Packet {
        kind,
        class,
        length,
        ident: 0,
    }
}

fn cost(rt: &impl Print, p: Packet) -> io::Result<()> {
    let need = p.need();
    print!(rt; ": {} {}", need.h.0, need.d.0)
}

// 1 next, 2 duplicate, 3 out of order.
fn order(next: Seq, number: Seq) -> u8 {
    match next.order(number) {
        Order::Next => 1,
        Order::Duplicate => 2,
        Order::OutOfOrder => 3,
    }
}

// Counts that go round.
fn round(c: Case) -> u16 {
    match c.number::<u64>(1) {
        1 => u16::from(Header(c.number(2)).add(Header(c.number(3))).0),
        2 => u16::from(Header(c.number(2)).sub(Header(c.number(3))).0),
        3 => Data(c.number(2)).add(Data(c.number(3))).0,
        4 => Data(c.number(2)).sub(Data(c.number(3))).0,
        5 => Seq(c.number(2)).next().0,
        6 => Seq(c.number(2)).previous().0,
        _ => Retrain(c.number(2)).grow().0,
    }
}

// 1: a packet with its number; 2: an Ack; 3: a Nak.
fn frame(c: Case) -> Frame {
    let number = Seq(c.number(2));
    match c.number::<u64>(1) {
        1 => Frame::Packet(number, packet(c.number(3), c.number(4), c.number(5))),
        2 => Frame::Message(Message::Ack(number)),
        _ => Frame::Message(Message::Nak(number)),
    }
}

// An update of numbers that may be out of range, where two channels are in use.
fn outside(c: Case) -> Result<Frame, Refusal> {
    frames::update_of(2, c.number(1), c.number(2), c.number(3), c.number(4))
}

// What stored counts answer to those of an update.
fn update(c: Case) -> Result<(), Refusal> {
    let stored = Counts {
        h: Header(c.number(1)),
        d: Data(c.number(2)),
    };
    let update = Counts {
        h: Header(c.number(3)),
        d: Data(c.number(4)),
    };
    stored.update_answer(update)
}

fn answered(rt: &impl Print, answer: u8) -> io::Result<()> {
    print!(rt; " {answer}")
}

// Lends so many bytes of a buffer of dots, which is one byte longer than the longest line, for a line of the listing. Prints how many bytes
// were written, and the whole buffer.
fn line<F: FnOnce(&mut [u8]) -> usize>(rt: &impl Print, room: usize, put: F) -> io::Result<()>
    requires { F.IsAlwaysCallable put }
{
    let mut dots = [b'.'; 73];
    if let Some(lent) = dots.get_mut(..room) {
        let n = put(lent);
        println!(rt; " {n}")?;
        rt.write_all(&dots)?;
    }
    Ok(())
}

fn done(rt: &impl Print, c: Case) -> io::Result<()> {
    match c.code() {
        1 => {
            let p = packet(c.number(1), c.number(2), c.number(3));
            answered(rt, answer_of(p.answer()))
        }
        2 => cost(rt, packet(c.number(1), 0, c.number(2))),
        3 => answered(rt, order(Seq(c.number(1)), Seq(c.number(2)))),
        4 => answered(
            rt,
            answer_of(Seq(c.number(1)).ack_answer(c.number(2), Seq(c.number(3)))),
        ),
        5 => answered(rt, answer_of(update(c))),
        6 => print!(rt; " {}", round(c)),
        7 => answered(rt, answer_of(frame(c).answer(1))),
        8 => answered(rt, answer_of(outside(c))),
        9 => answered(rt, Category::Completion.number()),
        11 => line(rt, c.number(1), |w| listing::header_line(w)),
        12 => line(rt, c.number(1), |w| {
            listing::step_line(w, c.number(2), c.number(3), c.number(4))
        }),
        13 => line(rt, c.number(1), |w| {
            listing::end_line(w, c.number(2), c.number(3), c.number(4), c.number(5))
        }),
        _ => line(rt, c.number(1), |w| {
            listing::refused_line(w, c.number(2), c.number(3))
        }),
    }
}

fn main(rt: HostRuntime) -> io::Result<()> {
    cases::each(&rt, |case| done(&rt, case))
}
