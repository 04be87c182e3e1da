//! A schedule text, line by line.

ghost use Rattle.std.specs.Prelude.{◌≡◌, ◌≢◌, ◌+◌, ◌<◌, ◌^◌, ◌++◌, ◌∷◌, length, IfOk, IfErr, OnOk};
ghost use Rattle.net_text.specs.Lexing.{lines_of, words_of};
ghost use Rattle.schedule_text.specs.Schedules.{ordered, words_order, line_order, order_at, IsGood, IsFaulty, SpellsSchedule, RefusesSchedule};

use crate::keyword::{Keyword, keyword_of};
use crate::operands::{
    count_operand, number_operands, peer_operands, prefix_operands, router_operand,
};
use net_text::lexing::{is_ascii, next_line, next_word};
use net_text::{Code, Refused};
use ranked_policy::Network;
use router_model::Command;
use std::alloc::Global;
use world_core::{Event, Order};

/// An order of a schedule text.
#[derive(Clone, Copy, Debug, PartialEq, Eq)]
pub struct ScheduledOrder {
    /// The line that it stands on.
    pub line: usize,
    /// The order.
    pub order: Order,
}

// The order of a line with this keyword, by the words behind it.
fn ordered(network: &Network, keyword: Keyword, words: &[u8]) -> Result<Order, Code>
    ensures { result ≡ ordered network.now keyword (words_of words.now) }
{
    let event = match keyword {
        Keyword::Start => {
            let (router, peer) = peer_operands(network, words)?;
            Event::Command(router, Command::Start(peer))
        }
        Keyword::Stop => {
            let (router, peer) = peer_operands(network, words)?;
            Event::Command(router, Command::Stop(peer))
        }
        Keyword::Reset => {
            let (router, peer) = peer_operands(network, words)?;
            Event::Command(router, Command::Reset(peer))
        }
        Keyword::Originate => {
            let (router, prefix) = prefix_operands(network, words)?;
            Event::Command(router, Command::Originate(prefix))
        }
        Keyword::Withdraw => {
            let (router, prefix) = prefix_operands(network, words)?;
            Event::Command(router, Command::Withdraw(prefix))
        }
        Keyword::Snapshot => {
            let (router, number) = number_operands(network, words)?;
            Event::Command(router, Command::Snapshot(number))
        }
        Keyword::Restart => Event::Command(router_operand(network, words)?, Command::Restart),
        Keyword::Tick => Event::Tick(router_operand(network, words)?),
        Keyword::Put => {
            let (router, peer) = peer_operands(network, words)?;
            Event::Put(router, peer)
        }
        Keyword::Take => {
            let (router, peer) = peer_operands(network, words)?;
            Event::Take(router, peer)
        }
        Keyword::Handle => {
            let (router, peer) = peer_operands(network, words)?;
            Event::Handle(router, peer)
        }
        Keyword::Decide => Event::Decide(router_operand(network, words)?),
        Keyword::Advertise => Event::Advertise(router_operand(network, words)?),
        Keyword::Offer => Event::Offer(router_operand(network, words)?),
        Keyword::Rounds => return Ok(Order::Rounds(count_operand(words)?)),
        Keyword::Ticks => return Ok(Order::Ticks(count_operand(words)?)),
    };
    Ok(Order::One(event))
}

// The order of a line with this first word, by the words behind it.
fn words_order(network: &Network, name: &[u8], words: &[u8]) -> Result<Option<Order>, Code>
    ensures { result ≡ words_order network.now (name.now ∷ words_of words.now) }
{
    let Some(keyword) = keyword_of(name) else {
        return Err(Code::BadForm);
    };
    Ok(Some(ordered(network, keyword, words)?))
}

// The order of a line; none if the line is blank or a comment.
fn line_order(network: &Network, text: &[u8]) -> Result<Option<Order>, Code>
    ensures { result ≡ line_order network.now text.now }
{
    let Some((name, words)) = next_word(text) else {
        return Ok(None);
    };
    if let [b'#', ..] = name {
        return Ok(None);
    }
    if !is_ascii(text) {
        return Err(Code::BadForm);
    }
    words_order(network, name, words)
}

// Adds the order of a line.
fn read_line(
    network: &Network,
    line: usize,
    orders: &mut Vec<ScheduledOrder>,
    text: &[u8],
) -> Result<(), Code>
    ensures good { OnOk result (IsGood network.now text.now) }
    ensures ok { OnOk result (orders.new.items ≡ orders.old.items ++ order_at line (line_order network.now text.now)) }
    ensures err { IfErr result (IsFaulty network.now text.now) }
{
    match line_order(network, text) {
        Ok(None) => Ok(()),
        Ok(Some(order)) => match orders.push(ScheduledOrder { line, order }) {
            Ok(()) => Ok(()),
            Err(_) => Err(Code::Memory),
        },
        Err(code) => Err(code),
    }
}

/// The orders of a schedule text, in the order of its lines. `before` lines stand before it.
///
/// Refused for its first faulty line. Refused with `Memory` if a growth is refused; then no line so far has a fault.
pub fn read_schedule(
    alloc: Global,
    text: &[u8],
    before: usize,
    network: &Network,
) -> Result<Vec<ScheduledOrder>, Refused>
    requires { before + length text.now < 2 ^ 64 }
    ensures ok { IfOk result (λ orders. SpellsSchedule network.now before (lines_of text.now) orders.items) }
    ensures err { IfErr result
        (λ refused. RefusesSchedule network.now before (lines_of text.now) refused.line refused.code) }
    // The line that is named was reached.
    ensures reached { IfErr result (λ refused. before < refused.line) }
{
    let mut orders = Vec::new(alloc);
    let mut line = before;
    let mut left = text;
    'lines: while !left.is_empty() {
        let (front, rest) = next_line(left);
        line += 1;
        if let Err(code) = read_line(network, line, &mut orders, front) {
            return Err(Refused { line, code });
        }
        left = rest;
    }
    Ok(orders)
}
