//! A play: the bus that a file asks for, and what happens on it.
ghost use Rattle.std.specs.Prelude.{◌≡◌, ◌≤◌, option_map};
ghost use Rattle.play_specs.specs.Play.{IsPlay, bit_time};

use crate::Action;
use error_script::{ErrorEntry, ErrorList};
use std::marker::Model;
use tick_time::BitTime;

/// What a play file asks for: one bus, its nodes from 0 on, the errors on its wire, and what the nodes do.
#[derive(Drop)]
pub struct Play {
    pub(crate) resolution: u64,
    pub(crate) rate: u32,
    pub(crate) fd_rate: Option<u32>,
    pub(crate) nominal: BitTime,
    pub(crate) fast: Option<BitTime>,
    pub(crate) nodes: u32,
    pub(crate) stop: u64,
    pub(crate) errors: Vec<ErrorEntry>,
    pub(crate) actions: Vec<Action>,
}

impl Model for Play {
    ghost use Rattle.std.specs.Prelude.{◌≡◌, option_map};
    ghost use Rattle.play_specs.specs.Play.{Play as play, IsPlay, bit_time};

    ghost Value = { play };

    ghost view = { λ p. record { resolution = p.resolution; rate = p.rate; fd_rate = p.fd_rate; nodes = p.nodes; stop = p.stop; errors = p.errors.items; actions = p.actions.items } };

    ghost invariant = { λ p. record {
      is_play : IsPlay (record { resolution = p.resolution; rate = p.rate; fd_rate = p.fd_rate; nodes = p.nodes; stop = p.stop; errors = p.errors.items; actions = p.actions.items });
      nominal_is : p.nominal ≡ bit_time p.resolution p.rate;
      fast_is : p.fast ≡ option_map (bit_time p.resolution) p.fd_rate;
    } };
}

impl Play {
    /// The ticks of a second.
    pub fn resolution(&self) -> u64
        ensures value { result ≡ self.now.resolution }
        ensures play { IsPlay self.now }
    {
        self.resolution
    }

    /// The nominal rate, in bits a second.
    pub fn rate(&self) -> u32
        ensures value { result ≡ self.now.rate }
        ensures play { IsPlay self.now }
    {
        self.rate
    }

    /// The rate of the data of FD frames, in bits a second. Without one there are no FD frames.
    pub fn fd_rate(&self) -> Option<u32>
        ensures value { result ≡ self.now.fd_rate }
        ensures play { IsPlay self.now }
    {
        self.fd_rate
    }

    /// The ticks of a nominal bit.
    pub fn nominal(&self) -> BitTime
        ensures value { result ≡ bit_time self.now.resolution self.now.rate }
        ensures play { IsPlay self.now }
    {
        self.nominal
    }

    /// The ticks of a bit of the data of FD frames.
    pub fn data(&self) -> Option<BitTime>
        ensures value { result ≡ option_map (bit_time self.now.resolution) self.now.fd_rate }
        ensures play { IsPlay self.now }
    {
        self.fast
    }

    /// How many nodes the bus has. Their numbers begin with 0.
    pub fn nodes(&self) -> u32
        ensures value { result ≡ self.now.nodes }
        ensures play { IsPlay self.now }
    {
        self.nodes
    }

    /// The last moment at which something happens, in ticks.
    pub fn stop(&self) -> u64
        ensures value { result ≡ self.now.stop }
        ensures play { IsPlay self.now }
    {
        self.stop
    }

    /// The error script, in the order of the file.
    pub fn errors(&self) -> &[ErrorEntry]
        ensures value { result.now ≡ self.now.errors }
        ensures play { IsPlay self.now }
    {
        &self.errors
    }

    /// What the nodes do, by moment.
    pub fn actions(&self) -> &[Action]
        ensures value { result.now ≡ self.now.actions }
        ensures play { IsPlay self.now }
    {
        &self.actions
    }

    /// The error script, and what the nodes do by moment.
    pub fn into_lists(self) -> (ErrorList, Vec<Action>)
        ensures errors { result.0 ≡ self.errors }
        ensures actions { result.1.items ≡ self.actions }
        ensures play { IsPlay self }
    {
        (ErrorList::of(self.errors), self.actions)
    }
}
