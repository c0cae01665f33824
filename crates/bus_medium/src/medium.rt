//! A bus, and what happens on it.
ghost use Rattle.std.specs.Prelude.{◌≡◌, IfOk, map};
ghost use Rattle.bus_specs.specs.Bus as model;
ghost use Rattle.bus_medium.specs.Setups.{setup_of, IsWellFormed};

use crate::BusSetup;
use crate::member::Member;
use crate::request::Request;
use crate::running::Running;
use error_script::ErrorList;
use std::alloc::{AllocError, Global};
use std::marker::Model;
use tick_time::BitTime;

/// A bus with its nodes and their requests. Moments are in ticks.
#[derive(Drop)]
pub struct Medium {
    pub(crate) number: u32,
    pub(crate) rate: u32,
    pub(crate) fd_rate: Option<u32>,
    pub(crate) nominal: BitTime,
    pub(crate) fast: Option<BitTime>,
    pub(crate) errors: ErrorList,
    pub(crate) members: Vec<Member>,
    pub(crate) requests: Vec<Request>,
    pub(crate) next: u64,
    pub(crate) attempts: u64,
    pub(crate) idle: u64,
    pub(crate) last_sender: Option<u32>,
    pub(crate) running: Option<Running>,
}

impl Model for Medium {
    ghost use Rattle.bus_specs.specs.Bus.{Bus as bus};
    ghost use Rattle.bus_medium.specs.Setups.{IsKept};

    ghost Value = { bus };

    ghost view = { λ m. record {
      setup = record {
        number = m.number;
        rate = m.rate;
        fd_rate = m.fd_rate;
        nominal = m.nominal;
        data_bit_time = m.fast;
        errors = m.errors;
      };
      members = m.members.items;
      requests = m.requests.items;
      next = m.next;
      attempts = m.attempts;
      idle = m.idle;
      last_sender = m.last_sender;
      running = m.running;
    } };

    ghost invariant = { λ m. IsKept (record {
      setup = record {
        number = m.number;
        rate = m.rate;
        fd_rate = m.fd_rate;
        nominal = m.nominal;
        data_bit_time = m.fast;
        errors = m.errors;
      };
      members = m.members.items;
      requests = m.requests.items;
      next = m.next;
      attempts = m.attempts;
      idle = m.idle;
      last_sender = m.last_sender;
      running = m.running;
    }) };
}

/// The nodes as members, on which nothing has happened.
fn members_of(alloc: Global, nodes: &[u32]) -> Result<Vec<Member>, AllocError>
    ensures { IfOk result (λ v. v.items ≡ map model.new_member nodes.now) }
{
    nodes.iter().map(|node| Member::new(*node)).collect(alloc)
}

impl Medium {
    /// A bus on which nothing has happened, whose nodes aren't live yet.
    pub fn new(alloc: Global, setup: BusSetup) -> Result<Medium, AllocError>
        requires well_formed { IsWellFormed setup }
        ensures { IfOk result (λ m. m ≡ model.new_bus (setup_of setup) setup.members) }
    {
        let members = members_of(alloc, setup.members.as_slice())?;
        Ok(Medium {
            number: setup.number,
            rate: setup.rate,
            fd_rate: setup.fd_rate,
            nominal: setup.nominal,
            fast: setup.fast,
            errors: setup.errors,
            members,
            requests: Vec::new(alloc),
            next: 0,
            attempts: 0,
            idle: 0,
            last_sender: None,
            running: None,
        })
    }
}
