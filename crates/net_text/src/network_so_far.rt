//! A network text, line by line.

ghost use Rattle.std.specs.Prelude.{◌≡◌, ◌≢◌, ◌<◌, ◌≤◌, ◌∷◌, length, IfOk, IfErr, if◌then◌else◌};
ghost use Rattle.ranked_policy.specs.Plans.{IsNetwork};
ghost use Rattle.net_text.specs.Lexing.{lines_of, is_skipped};
ghost use Rattle.net_text.specs.Steps.{link_code};
ghost use Rattle.net_text.specs.Networks.{empty_draft, SpellsNetwork, RefusesNetwork, FailsAsNetwork};

use crate::code::{Code, Refused};
use crate::lexing::{is_skipped, next_line};
use crate::network_lines::read_line;
use crate::repeats::make_room;
use crate::settings::{Named, settings_of};
use prefix_lanes::Prefix;
use ranked_policy::{Asn, NetBuilder, NetError, Network, Path};
use std::alloc::Global;

/// A network so far, and which settings lines have named.
#[derive(Drop)]
pub(crate) struct NetworkSoFar {
    /// The settings that lines have named.
    pub(crate) named: Named,
    /// What other lines have added. Its settings are those that the whole text names.
    pub(crate) net: NetBuilder,
}

impl NetworkSoFar {
    ghost use Rattle.std.specs.Prelude.{◌≡◌, true, OnOk, IfErr};
    ghost use Rattle.net_text.specs.Words.{is_router};
    ghost use Rattle.net_text.specs.Steps.{Steps, link_told};
    ghost use Rattle.net_text.specs.declared.code.Code.TheVariants.{Memory};
    ghost use Rattle.net_text.specs.Lines.{with_router, with_origin, with_rule};

    // Before each of these all but memory was judged; a link is judged as it is added. The proofs
    // use what `settings` says of the plan.

    pub(crate) fn add_router(&mut self, asn: Asn, id: u32) -> Result<(), Code>
        ensures ok { OnOk result (self.new ≡ with_router self.old asn id) }
        ensures err { IfErr result (λ code. code ≡ Code.Memory) }
    {
        match self.net.push_router(asn, id) {
            Ok(()) => {
                let _plan = self.net.settings();
                Ok(())
            }
            Err(_) => Err(Code::Memory),
        }
    }

    // A link between two routers is judged as it is added: a network refuses in a text's order.
    pub(crate) fn add_link(&mut self, a: Asn, b: Asn) -> Result<(), Code>
        requires a { is_router self.old.net.routers a ≡ true }
        requires b { is_router self.old.net.routers b ≡ true }
        ensures { Steps result (link_told self.old a b) self.new }
    {
        match self.net.push_link(a, b) {
            Ok(()) => Ok(()),
            Err(error) => Err(code_of(error)),
        }
    }

    pub(crate) fn add_origin(&mut self, asn: Asn, prefix: Prefix) -> Result<(), Code>
        ensures ok { OnOk result (self.new ≡ with_origin self.old asn prefix) }
        ensures err { IfErr result (λ code. code ≡ Code.Memory) }
    {
        match self.net.push_origin(asn, prefix) {
            Ok(()) => {
                let _plan = self.net.settings();
                Ok(())
            }
            Err(_) => Err(Code::Memory),
        }
    }

    pub(crate) fn add_rule(
        &mut self,
        asn: Asn,
        prefix: Prefix,
        paths: Vec<Path>,
    ) -> Result<(), Code>
        ensures ok { OnOk result (self.new ≡ with_rule self.old asn prefix paths.items) }
        ensures err { IfErr result (λ code. code ≡ Code.Memory) }
    {
        match self.net.push_rule(asn, prefix, paths) {
            Ok(()) => {
                let _plan = self.net.settings();
                Ok(())
            }
            Err(_) => Err(Code::Memory),
        }
    }
}

// The code of why a network refuses a link between two of its routers.
fn code_of(error: NetError) -> Code
    ensures { result ≡ link_code error }
{
    match error {
        NetError::Memory => Code::Memory,
        NetError::Repeated => Code::Repeated,
        _ => Code::OutOfLimit,
    }
}

// A network that has only the settings that its text names.
fn empty_draft(alloc: Global, text: &[u8]) -> NetworkSoFar
    ensures { result ≡ empty_draft (lines_of text.now) }
{
    let named = Named {
        hold: false,
        restart: false,
        cut: false,
        pipe: false,
        octets: false,
    };
    match NetBuilder::new(alloc, settings_of(text)) {
        Ok(net) => NetworkSoFar { named, net },
        // The settings are within their ranges.
        Err(_) => unreachable!(),
    }
}

// The whole network, once all its lines are good. A refusal names the line `last`.
fn finish(draft: NetworkSoFar, last: usize) -> Result<Network, Refused>
    ensures ok { IfOk result (λ net. net ≡ draft.net) }
    ensures network { IfOk result IsNetwork }
    ensures line { IfErr result (λ refused. refused.line ≡ last) }
    ensures err { IfErr result (λ refused. FailsAsNetwork draft.net refused.code) }
    ensures judged { IfErr result (λ refused. refused.code ≢ Code.Memory) }
{
    match draft.net.finish() {
        Ok(net) => Ok(net),
        Err((_, NetError::Limit)) => Err(Refused {
            line: last,
            code: Code::OutOfLimit,
        }),
        Err(_) => Err(Refused {
            line: last,
            code: Code::NotConnected,
        }),
    }
}

// The last line that is not skipped, after this line.
fn last_said(text: &[u8], line: usize, last: usize) -> usize
    ensures { result ≡ (if is_skipped text.now then last else line) }
{
    if is_skipped(text) { last } else { line }
}

// The first line of a text, and the lines behind it; an empty line if the text has none.
fn line_ahead(text: &[u8]) -> (&[u8], &[u8])
    ensures lines { 0 < length text.now → lines_of text.now ≡ result.0.now ∷ lines_of result.1.now }
    ensures shorter { 0 < length text.now → length result.1.now < length text.now }
{
    if text.is_empty() {
        return (text, text);
    }
    next_line(text)
}

/// The network that a text spells.
///
/// Refused for its first faulty line. If all lines are good, but the network has no router or is
/// not connected, refused for the last line that is not skipped. Refused with `Memory` if a growth
/// is refused; then no line so far has a fault.
pub fn read_network(alloc: Global, text: &[u8]) -> Result<Network, Refused>
    ensures ok { IfOk result (SpellsNetwork (lines_of text.now)) }
    ensures err { IfErr result (λ refused. RefusesNetwork (lines_of text.now) refused.line refused.code) }
    // Want of memory is answered at a line that was reached.
    ensures reached { IfErr result (λ refused. refused.code ≡ Code.Memory → 1 ≤ refused.line) }
{
    let mut draft = empty_draft(alloc, text);
    let mut room = Vec::new(alloc);
    let (mut line, mut last) = (0usize, 0usize);
    let mut left = text;
    let (mut front, mut rest) = line_ahead(text);
    'lines: while !left.is_empty() {
        line += 1;
        last = last_said(front, line, last);
        if let Err(code) = read_line(alloc, &mut draft, &mut room, front) {
            return Err(Refused { line, code });
        }
        let (next, behind) = line_ahead(rest);
        if make_room(&mut room, next).is_err() {
            return Err(Refused {
                line,
                code: Code::Memory,
            });
        }
        left = rest;
        front = next;
        rest = behind;
    }
    finish(draft, last)
}
