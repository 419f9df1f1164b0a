// Packets: kind, class, length and ident; what is refused of them and the units that they cost.
// Assumes nothing: every function takes all values.
#![tactic(auto, unfolding(crate::specs::Packets::rule_of, crate::specs::Packets::category_of, crate::specs::Packets::data_units, crate::specs::Packets::need_of, crate::specs::Packets::packet_answer))]

ghost use Rattle.std.specs.Prelude.{◌≡◌, ◌+◌, ◌*◌, ◌<◌};
ghost use Rattle.answers.specs.Answers.{answer_of};
ghost use Rattle.packets.specs.Packets.{rule, rule_of, number_of, slot_of, numbered, category_of, kind_answer, class_answer, length_answer, packet_answer, need_of};

use answers::Refusal;
use counters::{Counts, Data, Header};

// Each category of each channel has counters of its own.
#[derive(Clone, Copy, PartialEq, Eq)]
pub enum Category {
    Posted,
    NonPosted,
    Completion,
}

// The ident stands for the contents. Kind and class are numbers and no enums, since `answer` refuses those that no enum could hold.
#[derive(Clone, Copy)]
pub struct Packet {
    pub kind: u8,
    pub class: u8,
    pub length: u16,
    pub ident: u32,
}

// What holds of a kind: its category, its least and greatest length in words, and whether it has payload.
#[derive(Clone, Copy)]
pub struct Rule {
    pub category: Category,
    pub least: u16,
    pub most: u16,
    pub payload: bool,
}

fn row(category: Category, least: u16, most: u16, payload: bool) -> Rule
    ensures { result ≡ rule category least most payload }
{
    Rule {
        category,
        least,
        most,
        payload,
    }
}

// The rule of a kind. A kind over 9 is refused before its rule counts. A `match`, since a table would be written anew at each call.
pub fn rule_of(kind: u8) -> Rule
    ensures { result ≡ rule_of kind }
{
    match kind {
        0 => row(Category::NonPosted, 1, 1024, false),
        1 => row(Category::Posted, 1, 1024, true),
        2 => row(Category::NonPosted, 1, 1, false),
        3 => row(Category::NonPosted, 1, 1, true),
        4 => row(Category::NonPosted, 1, 1, false),
        5 => row(Category::NonPosted, 1, 1, true),
        6 => row(Category::Posted, 0, 0, false),
        7 => row(Category::Posted, 1, 1024, true),
        8 => row(Category::Completion, 0, 0, false),
        9 => row(Category::Completion, 1, 1024, true),
        _ => row(Category::Posted, 0, 0, false),
    }
}

impl Category {
    pub fn number(self) -> u8
        ensures { result ≡ number_of self }
    {
        self as u8
    }

    // Where this category of a channel stands among those of all channels. A channel's number is a byte.
    pub fn slot(self, channel: usize) -> usize
        requires { channel < 256 }
        ensures value { result ≡ slot_of channel self }
        ensures upper_bound { result < 3 * channel + 3 }
    {
        3 * channel + self.number() as usize
    }
}

pub fn category_numbered(c: u8) -> Option<Category>
    ensures { result ≡ numbered c }
{
    if c == 0 {
        return Some(Category::Posted);
    }
    if c == 1 {
        return Some(Category::NonPosted);
    }
    if c == 2 {
        return Some(Category::Completion);
    }
    None
}

fn kind_answer(kind: u8) -> Result<(), Refusal>
    ensures { answer_of result ≡ kind_answer kind }
{
    if 9 < kind {
        return Err(Refusal::Kind);
    }
    Ok(())
}

fn class_answer(kind: u8, class: u8) -> Result<(), Refusal>
    ensures { answer_of result ≡ class_answer kind class }
{
    let zero_only = (2..=5).contains(&kind);
    if 7 < class || (zero_only && class != 0) {
        Err(Refusal::Class)
    } else {
        Ok(())
    }
}

fn length_answer(rule: Rule, length: u16) -> Result<(), Refusal>
    ensures { answer_of result ≡ length_answer rule length }
{
    if (rule.least..=rule.most).contains(&length) {
        Ok(())
    } else {
        Err(Refusal::Length)
    }
}

impl Packet {
    pub fn category(self) -> Category
        ensures { result ≡ category_of self }
    {
        rule_of(self.kind).category
    }

    // The first packet rule that refuses it: of its kind, its class, its length.
    #[tactic(auto, using(answers::proofs::Outcomes::no_refusal_is_0), unfolding(crate::specs::Packets::packet_answer))]
    pub fn answer(self) -> Result<(), Refusal>
        ensures { answer_of result ≡ packet_answer self }
    {
        kind_answer(self.kind)?;
        class_answer(self.kind, self.class)?;
        length_answer(rule_of(self.kind), self.length)
    }

    // The units that it costs.
    pub fn need(self) -> Counts
        ensures { result ≡ need_of self }
    {
        let units = if rule_of(self.kind).payload {
            self.length.div_ceil(4)
        } else {
            0
        };
        Counts {
            h: Header(1),
            d: Data(units),
        }
    }
}
