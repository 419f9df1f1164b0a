// A test of a pair: steps handed to it, quiet rounds, and sequence numbers that go round. Each line of its input is a case; the first
// number says what is done: 1 and 2 start a pair, 3 is a step, 4 and 5 are quiet rounds, 6 sends groups of messages, 7 is Timer with
// other lines.
// Its expected output was worked out by hand from document 01. Assumes nothing.
#![tactic(auto)]

use answers::Refusal;
use cases::Case;
use counters::Seq;
use credits::Room;
use frames::{Frame, Message};
use line::{Line, Slot};
use pairs::Pair;
use script::Step;
use setup::{SLOTS, Setup, Units};
use std::io;

// The steps by their numbers in a script, and the kind of a message.
const SUBMIT: u32 = 1;

const SEND: u32 = 2;

const ARRIVE: u32 = 3;

const TAKE: u32 = 6;

const TIMER: u32 = 7;

const MESSAGE: u32 = 6;

// The pair, what came of the last step, what Take handed out, and how many steps were refused. `ident` is for the next packet.
#[derive(Clone, Copy)]
struct Run {
    pair: Pair,
    outcome: Result<u32, Refusal>,
    ident: u32,
    taken: u32,
    last: u32,
    refused: u32,
}

// One channel in use, with the same units for each category at either end.
fn link(header: u16, payload: u16) -> Setup {
    let none = Units {
        header: 0,
        payload: 0,
    };
    let mut units = [none; SLOTS];
    units[..3].fill(Units { header, payload });
    units[12..15].fill(Units { header, payload });
    Setup {
        n: 1,
        classes: [0; 7],
        units,
    }
}

impl Run {
    fn start(link: Setup) -> Run {
        let started = Pair::start(link);
        Run {
            pair: started.unwrap_or(Pair::of(Setup::blank())),
            outcome: started.map(|_| 0),
            ident: 0,
            taken: 0,
            last: 0,
            refused: 0,
        }
    }

    // A step of class or channel 0. Only Submit has an ident.
    fn step(mut self, step: u32, end: u32, kind: u32, length: u32) -> Run {
        let outcome = self.pair.step(Step {
            step,
            end,
            class: 0,
            kind,
            length,
            ident: if step == SUBMIT { self.ident } else { 0 },
        });
        self.outcome = outcome.map(|after| after.detail);
        let Ok(after) = outcome else {
            self.refused = self.refused.wrapping_add(1);
            return self;
        };
        self.pair = after.state;
        match step {
            SUBMIT => self.ident = self.ident.wrapping_add(1),
            TAKE => {
                self.taken = self.taken.wrapping_add(1);
                self.last = after.detail;
            }
            _ => {}
        }
        self
    }

    fn seven(self, step: u32, end: u32, kind: u32) -> Run {
        (0..7).fold(self, |run, _| run.step(step, end, kind, 0))
    }

    // A frame goes from 1 to 0.
    fn back(self) -> Run {
        self.step(SEND, 1, 0, 0).step(ARRIVE, 0, 0, 0)
    }

    // Seven messages go before the first is acknowledged: one Ack releases them all. They are taken, and the update gives their room back.
    fn group(self) -> Run {
        self.seven(SUBMIT, 0, MESSAGE)
            .seven(SEND, 0, 0)
            .seven(ARRIVE, 1, 0)
            .back()
            .seven(TAKE, 1, 0)
            .back()
    }

    fn groups(self, count: usize) -> Run {
        (0..count).fold(self, |run, _| run.group())
    }

    // The same with another pair.
    fn with_pair(self, pair: Pair) -> Run {
        Run { pair, ..self }
    }

    // Timer at 0, once the lines hold these.
    fn timer_with(self, first: Line, second: Line) -> Run {
        let pair = Pair {
            lines: [first, second],
            ..self.pair
        };
        self.with_pair(pair).step(TIMER, 0, 0, 0)
    }
}

// A line of so many Acks of one number.
fn acks(len: usize, number: u16) -> Line {
    let ack = Slot {
        frame: Frame::Message(Message::Ack(Seq(number))),
    };
    Line {
        slots: [ack; 16],
        len,
    }
}

// The answer and the detail.
fn told(rt: &impl Print, r: Run) -> io::Result<Run> {
    match r.outcome {
        Ok(detail) => print!(rt; ": 0 {detail}")?,
        Err(refusal) => print!(rt; ": {} 0", refusal.number())?,
    }
    Ok(r)
}

// How many were taken, the ident of the last, how many steps were refused; at 0 the next number and the one acknowledged last.
fn told_groups(rt: &impl Print, r: Run) -> io::Result<Run> {
    let sender = r.pair.ends[0].sender;
    print!(rt; ": {} {} {}", r.taken, r.last, r.refused)?;
    print!(rt; " {} {}", sender.next.0, sender.acked.0)?;
    Ok(r)
}

// How many headers Take gave back: it started with one.
fn given_back(r: Room) -> u8 {
    r.allocated.h.0.wrapping_sub(1)
}

// The posted packets and the completions that were taken at 1, what still waits to be sent at 0, and what waits to be taken at 1.
fn told_rounds(rt: &impl Print, r: Run) -> io::Result<Run> {
    let sender = r.pair.ends[0].sender;
    let receiver = r.pair.ends[1].receiver;
    print!(rt;
        ": {} {}",
        given_back(receiver.rooms[0]),
        given_back(receiver.rooms[2])
    )?;
    print!(rt; " {} {}", sender.queues[0].len, receiver.inboxes[0].len)?;
    Ok(r)
}

fn done(rt: &impl Print, r: Run, c: Case) -> io::Result<Run> {
    match c.code() {
        1 => told(rt, Run::start(link(c.number(1), c.number(2)))),
        2 => told(rt, Run::start(Setup::blank())),
        3 => told(
            rt,
            r.step(c.number(1), c.number(2), c.number(3), c.number(4)),
        ),
        4 => told_rounds(rt, r.with_pair(rounds::quiet_round(r.pair))),
        5 => told_rounds(rt, r.with_pair(rounds::quiet_rounds(r.pair, c.number(1)))),
        6 => told_groups(rt, r.groups(c.number(1))),
        _ => {
            let first = acks(c.number(1), c.number(2));
            let second = acks(c.number(3), c.number(4));
            told(rt, r.timer_with(first, second))
        }
    }
}

fn main(rt: HostRuntime) -> io::Result<()> {
    let mut run = Run::start(Setup::blank());
    cases::each(&rt, |case| {
        run = done(&rt, run, case)?;
        Ok(())
    })
}
