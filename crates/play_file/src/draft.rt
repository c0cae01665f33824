//! A play while its lines are read.
ghost use Rattle.std.specs.Prelude.{◌≡◌, ◌≤◌, ◌-◌, ◌∷◌, [], if◌then◌else◌, Some, None, IfOk, OnOk, OnErr, option_map, is_some as is_some_of};
ghost use Rattle.frame_specs.specs.Frame.{is_fd as is_fd_of};
ghost use Rattle.can_frame.specs.Kinds.{kind_of};
ghost use Rattle.plain_text.specs.Parts.{words_of};
ghost use Rattle.play_specs.specs.Play.{IsPlay};
ghost use Rattle.play_file.specs.Walk as walk;
ghost use Rattle.play_file.specs.Verbs.{verb_of};

use crate::text::{Words, is_word, words_in};
use crate::{Action, Play, Verb};
use can_frame::{Frame, Kind};
use error_script::ErrorEntry;
use plain_text::number_in;
use std::alloc::{AllocError, Global};
use std::marker::Model;
use tick_time::BitTime;

/// The last moment that a play may name, in ticks: 2^62.
pub(crate) const LATEST: u64 = 0x4000_0000_0000_0000;

/// The most error lines of a file.
const MOST_ERRORS: usize = 1024;

/// The lines so far, and the moment of the last action among them.
#[derive(Drop)]
pub(crate) struct Draft {
    pub(crate) resolution: u64,
    pub(crate) rate: u32,
    pub(crate) fd_rate: Option<u32>,
    pub(crate) nominal: BitTime,
    pub(crate) fast: Option<BitTime>,
    pub(crate) nodes: u32,
    pub(crate) stop: u64,
    pub(crate) errors: Vec<ErrorEntry>,
    pub(crate) actions: Vec<Action>,
    pub(crate) last: u64,
}

impl Model for Draft {
    ghost use Rattle.std.specs.Prelude.{◌≡◌, ◌≤◌, option_map};
    ghost use Rattle.play_specs.specs.Play.{Play as play, bit_time};
    ghost use Rattle.play_file.specs.Walk.{last_of};

    ghost Value = { play };

    ghost view = { λ d. record { resolution = d.resolution; rate = d.rate; fd_rate = d.fd_rate; nodes = d.nodes; stop = d.stop; errors = d.errors.items; actions = d.actions.items } };

    ghost invariant = { λ d. record {
      some : 1 ≤ d.nodes;
      nominal_is : d.nominal ≡ bit_time d.resolution d.rate;
      fast_is : d.fast ≡ option_map (bit_time d.resolution) d.fd_rate;
      last_is : d.last ≡ last_of 0 d.actions.items;
    } };
}

impl Draft {
    /// The play of the lines so far.
    pub(crate) fn into_play(self) -> Play
        requires { IsPlay self }
        ensures { result ≡ self }
    {
        Play {
            resolution: self.resolution,
            rate: self.rate,
            fd_rate: self.fd_rate,
            nominal: self.nominal,
            fast: self.fast,
            nodes: self.nodes,
            stop: self.stop,
            errors: self.errors,
            actions: self.actions,
        }
    }

    /// Takes one more line; false where it breaks a rule.
    pub(crate) fn take(&mut self, alloc: Global, line: &[u8]) -> Result<bool, AllocError>
        ensures { IfOk result (λ good. walk.step self.old line.now ≡ (if good then Some self.new else None)) }
    {
        match words_in(line) {
            Words::Three(moment, node, word) => self.take_action(moment, node, bare_verb(word)),
            Words::Four(moment, node, word, text) => {
                let verb = sent(alloc, self.fd_rate, word, text)?;
                self.take_action(moment, node, verb)
            }
            Words::Six(word, first, count, kind, by, bit) => {
                if is_word(word, b"error") {
                    self.take_entry(first, count, kind, by, bit)
                } else {
                    Ok(false)
                }
            }
            Words::Other => Ok(false),
        }
    }

    fn take_action(
        &mut self,
        moment: &[u8],
        node: &[u8],
        verb: Option<Verb>,
    ) -> Result<bool, AllocError>
        ensures { IfOk result (λ good. walk.then_action self.old moment.now node.now (option_map verb_of verb) ≡ (if good then Some self.new else None)) }
    {
        let Some(action) = self.action(moment, node, verb) else {
            return Ok(false);
        };
        let moment = action.moment();
        self.actions.push(action)?;
        self.last = moment;
        Ok(true)
    }

    #[tactic(auto, unfolding(crate::specs::Walk::action_in))]
    fn action(&self, moment: &[u8], node: &[u8], verb: Option<Verb>) -> Option<Action>
        ensures { result ≡ walk.action_in (walk.last_of 0 self.now.actions) self.now.nodes moment.now node.now (option_map verb_of verb) }
    {
        let moment = number_in(self.last, LATEST, moment)?;
        let node = number_in(0, u64::from(self.nodes - 1), node)? as u32;
        let verb = verb?;
        Some(Action::new(moment, node, verb))
    }

    fn take_entry(
        &mut self,
        first: &[u8],
        count: &[u8],
        kind: &[u8],
        by: &[u8],
        bit: &[u8],
    ) -> Result<bool, AllocError>
        ensures { IfOk result (λ good. walk.then_entry self.old first.now count.now kind.now by.now bit.now ≡ (if good then Some self.new else None)) }
    {
        if !self.actions.is_empty() || self.errors.len() >= MOST_ERRORS {
            return Ok(false);
        }
        let Some(entry) = entry_in(self.nodes, first, count, kind, by, bit) else {
            return Ok(false);
        };
        self.errors.push(entry)?;
        Ok(true)
    }
}

/// The entry FROM COUNT KIND BY BIT; None where a number is out of its range.
#[tactic(auto, unfolding(crate::specs::Walk::entry_in))]
fn entry_in(
    nodes: u32,
    first: &[u8],
    count: &[u8],
    kind: &[u8],
    by: &[u8],
    bit: &[u8],
) -> Option<ErrorEntry>
    requires { 1 ≤ nodes }
    ensures { result ≡ walk.entry_in nodes first.now count.now kind.now by.now bit.now }
{
    let first = number_in(1, 0x1_0000_0000, first)?;
    let count = number_in(1, 0x1_0000_0000, count)?;
    let kind = number_in(1, 4, kind)? as u8;
    let by = detector(nodes, by)?;
    let bit = number_in(0, 1023, bit)? as u32;
    Some(ErrorEntry {
        first,
        count,
        kind,
        by,
        bit,
    })
}

/// Who detects an error: a node, or the sender (None).
fn detector(nodes: u32, by: &[u8]) -> Option<Option<u32>>
    requires { 1 ≤ nodes }
    ensures { result ≡ walk.by_of nodes by.now }
{
    if is_word(by, b"sender") {
        return Some(None);
    }
    let node = number_in(0, u64::from(nodes - 1), by)? as u32;
    Some(Some(node))
}

/// The verb that one word names.
fn bare_verb(word: &[u8]) -> Option<Verb>
    ensures { option_map verb_of result ≡ walk.bare_verb word.now }
{
    if is_word(word, b"wake") {
        Some(Verb::Wake)
    } else if is_word(word, b"sleep") {
        Some(Verb::Sleep)
    } else if is_word(word, b"keep") {
        Some(Verb::Keep)
    } else if is_word(word, b"discard") {
        Some(Verb::Discard)
    } else {
        None
    }
}

/// Sending the frame with this text, where the word is `send` and the bus can carry the frame.
fn sent(
    alloc: Global,
    fd_rate: Option<u32>,
    word: &[u8],
    text: &[u8],
) -> Result<Option<Verb>, AllocError>
    ensures { IfOk result (λ o. option_map verb_of o ≡ walk.sent fd_rate word.now text.now) }
{
    if !is_word(word, b"send") {
        return Ok(None);
    }
    match Frame::read(alloc, text)? {
        Some(frame) => Ok(sendable(fd_rate, frame)),
        None => Ok(None),
    }
}

/// An FD frame needs a data rate.
fn sendable(fd_rate: Option<u32>, frame: Frame) -> Option<Verb>
    ensures { option_map verb_of result ≡ walk.sendable fd_rate frame }
{
    if is_fd(frame.kind()) && fd_rate.is_none() {
        return None;
    }
    Some(Verb::Send(frame))
}

fn is_fd(kind: Kind) -> bool
    ensures { result ≡ is_fd_of (kind_of kind) }
{
    matches!(kind, Kind::Fd { .. })
}
