// The quiet round of a pair, step by step. Assumes nothing: a pair out of shape refuses each step and stays as it was.
#![tactic(auto)]

ghost use Rattle.std.specs.Prelude.{◌≡◌};
ghost use Rattle.script.specs.Step.{action_number};
ghost use Rattle.pairs.specs.Pairs.{done_of};
ghost use Rattle.rounds.specs.Rounds.{did, exchange, times, take_of, take_until, most_takes, takes_on, takes_at, opening, quiet_round, quiet_rounds};

use answers::{After, Refusal};
use pairs::Pair;
use script::{Action, Step};
use setup::CHANNELS;

// The pair after a step that has no use for the other fields.
#[tactic(auto, unfolding(crate::specs::Rounds::did))]
fn did(p: Pair, action: Action, end: u32) -> Pair
    ensures { result ≡ did p (action_number action) end }
{
    let t = Step {
        step: action.number(),
        end,
        class: 0,
        kind: 0,
        length: 0,
        ident: 0,
    };
    match p.step(t) {
        Ok(after) => after.state,
        Err(_) => p,
    }
}

// Send 0, Arrive 1, Send 1, Arrive 0.
#[tactic(auto, unfolding(crate::specs::Rounds::exchange))]
fn exchange(p: Pair) -> Pair
    ensures { result ≡ exchange p }
{
    let there = did(did(p, Action::Send, 0), Action::Arrive, 1);
    did(did(there, Action::Send, 1), Action::Arrive, 0)
}

fn exchanges(p: Pair) -> Pair
    ensures { result ≡ times 1024 exchange p }
{
    (0..1024usize).fold(p, |r, _| exchange(r))
}

#[tactic(auto, unfolding(crate::specs::Rounds::take_of))]
fn take(p: Pair, end: u32, channel: u32, category: u32) -> Result<After<Pair>, Refusal>
    ensures { done_of p result ≡ take_of p end channel category }
{
    p.step(Step {
        step: Action::Take.number(),
        end,
        class: channel,
        kind: category,
        length: 0,
        ident: 0,
    })
}

// Take until refused. A receive buffer has 48 places, so the 49th Take is refused, if none was before.
fn take_until(p: Pair, end: u32, channel: u32, category: u32) -> Pair
    ensures { result ≡ take_until most_takes p end channel category }
{
    let mut r = p;
    for _ in 0..49usize {
        let Ok(after) = take(r, end, channel, category) else {
            return r;
        };
        r = after.state;
    }
    r
}

// P until refused, then NP, then C.
#[tactic(auto, unfolding(crate::specs::Rounds::takes_on))]
fn takes_on(p: Pair, end: u32, channel: u32) -> Pair
    ensures { result ≡ takes_on p end channel }
{
    let p0 = take_until(p, end, channel, 0);
    let p1 = take_until(p0, end, channel, 1);
    take_until(p1, end, channel, 2)
}

// On each channel from 0 up. One that is not in use refuses its Takes.
fn takes_at(p: Pair, end: u32) -> Pair
    ensures { result ≡ takes_at p end }
{
    (0..CHANNELS).fold(p, |r, channel| takes_on(r, end, channel as u32))
}

// Timer at 0, at 1; Refresh at 0, at 1.
#[tactic(auto, unfolding(crate::specs::Rounds::opening))]
fn opening(p: Pair) -> Pair
    ensures { result ≡ opening p }
{
    let timed = did(did(p, Action::Timer, 0), Action::Timer, 1);
    did(did(timed, Action::Refresh, 0), Action::Refresh, 1)
}

#[tactic(auto, unfolding(crate::specs::Rounds::quiet_round))]
pub fn quiet_round(p: Pair) -> Pair
    ensures { result ≡ quiet_round p }
{
    takes_at(takes_at(exchanges(opening(p)), 0), 1)
}

pub fn quiet_rounds(p: Pair, n: usize) -> Pair
    ensures { result ≡ quiet_rounds n p }
{
    (0..n).fold(p, |r, _| quiet_round(r))
}
