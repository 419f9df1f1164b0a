// The steps of one end in its host's memory, for a host in C or Rust to link: each is that of memory::hosts.
// Assumes nothing: memory of another length is refused.
#![tactic(auto)]

ghost use Rattle.std.specs.Prelude.{◌≡◌, eqb};
ghost use Rattle.ends.specs.Ends.{submit_of, arrive_of, damage_of, take_at, timer_of, refresh_of};
ghost use Rattle.ends.specs.Sends.{send_of};
ghost use Rattle.pairs.specs.Pairs.{end_at, start_of};
ghost use Rattle.words.specs.Words.{frame_in};
ghost use Rattle.memory.specs.Hosted.{hosted_words, hosted_in, is_hosted, answer_in, said_in, packet, Leaves, sent_in, start_answer, started_end, shape_answer, retrains_in};

use memory::hosts::{Said, Sending};

// A packet joins its channel's send queue.
#[unsafe(no_mangle)]
pub extern "C" fn end_submit(m: &mut [u64], kind: u8, class: u8, length: u16, ident: u32) -> u8
    ensures value { result ≡ answer_in m.old (submit_of (hosted_in m.old) (packet kind class length ident)) }
    ensures leaves { Leaves (is_hosted m.old) result m.old m.new (submit_of (hosted_in m.old) (packet kind class length ident)).end }
{
    memory::hosts::end_submit(m, kind, class, length, ident)
}

// The frame of these two words arrives whole.
#[unsafe(no_mangle)]
pub extern "C" fn end_arrive(m: &mut [u64], head: u64, rest: u64) -> Said
    ensures value { result ≡ said_in m.old (arrive_of (hosted_in m.old) (frame_in head rest)) }
    ensures leaves { Leaves (is_hosted m.old) result.answer m.old m.new (arrive_of (hosted_in m.old) (frame_in head rest)).end }
{
    memory::hosts::end_arrive(m, head, rest)
}

// The frame of these two words arrives damaged.
#[unsafe(no_mangle)]
pub extern "C" fn end_damage(m: &mut [u64], head: u64, rest: u64) -> Said
    ensures value { result ≡ said_in m.old (damage_of (hosted_in m.old) (frame_in head rest)) }
    ensures leaves { Leaves (is_hosted m.old) result.answer m.old m.new (damage_of (hosted_in m.old) (frame_in head rest)).end }
{
    memory::hosts::end_damage(m, head, rest)
}

// The oldest packet of a channel and category leaves.
#[unsafe(no_mangle)]
pub extern "C" fn end_take(m: &mut [u64], channel: u8, category: u8) -> Said
    ensures value { result ≡ said_in m.old (take_at (hosted_in m.old) channel category) }
    ensures leaves { Leaves (is_hosted m.old) result.answer m.old m.new (take_at (hosted_in m.old) channel category).end }
{
    memory::hosts::end_take(m, channel, category)
}

#[unsafe(no_mangle)]
pub extern "C" fn end_timer(m: &mut [u64]) -> u8
    ensures value { result ≡ answer_in m.old (timer_of (hosted_in m.old)) }
    ensures leaves { Leaves (is_hosted m.old) result m.old m.new (timer_of (hosted_in m.old)).end }
{
    memory::hosts::end_timer(m)
}

#[unsafe(no_mangle)]
pub extern "C" fn end_refresh(m: &mut [u64]) -> u8
    ensures value { result ≡ answer_in m.old (refresh_of (hosted_in m.old)) }
    ensures leaves { Leaves (is_hosted m.old) result m.old m.new (refresh_of (hosted_in m.old)).end }
{
    memory::hosts::end_refresh(m)
}

// The first frame that applies; 18 where none does.
#[unsafe(no_mangle)]
pub extern "C" fn end_send(m: &mut [u64]) -> Sending
    ensures value { result ≡ sent_in m.old (send_of (hosted_in m.old)) }
    ensures leaves { Leaves (is_hosted m.old) result.answer m.old m.new (send_of (hosted_in m.old)).end }
{
    memory::hosts::end_send(m)
}

// 10 where the end is out of shape, or there is none.
#[unsafe(no_mangle)]
pub extern "C" fn end_shape(m: &[u64]) -> u8
    ensures { result ≡ shape_answer m.now }
{
    memory::hosts::end_shape(m)
}

// How often the link was trained again.
#[unsafe(no_mangle)]
pub extern "C" fn end_retrains(m: &[u64]) -> u16
    ensures { result ≡ retrains_in m.now }
{
    memory::hosts::end_retrains(m)
}

// Starts an end of a pair, from the setup's bytes in a script.
#[unsafe(no_mangle)]
pub extern "C" fn end_start(m: &mut [u64], b: &[u8], which: u8) -> u8
    ensures value { result ≡ start_answer m.old b.now which }
    ensures leaves { Leaves (eqb result 0) result m.old m.new (started_end b.now which) }
{
    memory::hosts::end_start(m, b, which)
}
