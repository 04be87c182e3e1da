//! The words behind the first one of a schedule line.

ghost use Rattle.std.specs.Prelude.{◌≡◌};
ghost use Rattle.net_text.specs.Lexing.{words_of};
ghost use Rattle.net_text.specs.Words.{number_word};
ghost use Rattle.schedule_text.specs.Schedules.{is_within, router_operand, peer_operands, prefix_operands, number_operands, count_operand};

use net_text::Code;
use net_text::lexing::{one_word, two_words};
use net_text::words::{number_of, origin_word, router_word};
use prefix_lanes::Prefix;
use ranked_policy::{Asn, Network};

/// The most rounds or ticks of a line.
pub(crate) const MOST_COUNT: u32 = 1_000_000;

// A number from 1 up to a limit.
fn number_word(word: &[u8], greatest: u32) -> Result<u32, Code>
    ensures { result ≡ number_word (is_within greatest) word.now }
{
    let Some(number) = number_of(word) else {
        return Err(Code::Unreadable);
    };
    if number < 1 || number > u64::from(greatest) {
        return Err(Code::OutOfLimit);
    }
    Ok(number as u32)
}

/// One router.
pub(crate) fn router_operand(network: &Network, words: &[u8]) -> Result<Asn, Code>
    ensures { result ≡ router_operand network.now (words_of words.now) }
{
    let Some(router) = one_word(words) else {
        return Err(Code::BadForm);
    };
    router_word(network.settings().width, network.routers(), router)
}

/// A router and a peer.
pub(crate) fn peer_operands(network: &Network, words: &[u8]) -> Result<(Asn, Asn), Code>
    ensures { result ≡ peer_operands network.now (words_of words.now) }
{
    let Some((router, peer)) = two_words(words) else {
        return Err(Code::BadForm);
    };
    let router = router_word(network.settings().width, network.routers(), router)?;
    let peer = router_word(network.settings().width, network.routers(), peer)?;
    Ok((router, peer))
}

/// A router and a prefix that has an origin.
pub(crate) fn prefix_operands(network: &Network, words: &[u8]) -> Result<(Asn, Prefix), Code>
    ensures { result ≡ prefix_operands network.now (words_of words.now) }
{
    let Some((router, prefix)) = two_words(words) else {
        return Err(Code::BadForm);
    };
    let router = router_word(network.settings().width, network.routers(), router)?;
    let prefix = origin_word(network.origins(), prefix)?;
    Ok((router, prefix))
}

/// A router and the number of a snapshot.
pub(crate) fn number_operands(network: &Network, words: &[u8]) -> Result<(Asn, u32), Code>
    ensures { result ≡ number_operands network.now (words_of words.now) }
{
    let Some((router, number)) = two_words(words) else {
        return Err(Code::BadForm);
    };
    let router = router_word(network.settings().width, network.routers(), router)?;
    let number = number_word(number, u32::MAX)?;
    Ok((router, number))
}

/// A count of rounds or ticks.
pub(crate) fn count_operand(words: &[u8]) -> Result<u32, Code>
    ensures { result ≡ count_operand (words_of words.now) }
{
    let Some(count) = one_word(words) else {
        return Err(Code::BadForm);
    };
    number_word(count, MOST_COUNT)
}
