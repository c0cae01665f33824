//! What the nodes offer, found in one walk over the requests (ISO 11898-1, medium access control).
ghost use Rattle.std.specs.Prelude.{◌≡◌, ◌<◌, ◌+◌, Some, None, IfOk, IfSome, All, map, fold, length, slice_get, take, option_to_list};
ghost use Rattle.run_specs.specs.Order.{better_of, foremost};
ghost use Rattle.frame_specs.specs.Dominance.{beats};
ghost use Rattle.bus_specs.specs.Bus as model;
ghost use Rattle.bus_specs.specs.Bus.{Request as request};
ghost use Rattle.bus_medium.specs.Offers.{request_at, offers_of, IsPlaceIn, somes, may_start};

use crate::Medium;
use crate::lookup::place_of;
use crate::member::Member;
use crate::request::Request;
use std::alloc::{AllocError, Global};

/// The better of the best so far and a later request, by their places.
fn better(requests: &[Request], best: Option<usize>, later: usize) -> usize
    requires best { IfSome best (λ i. i < length requests.now) }
    requires later { later < length requests.now }
    ensures place { result < length requests.now }
    ensures value { (r : request) → slice_get requests.now later ≡ Some r
        → slice_get requests.now result ≡ better_of (λ q r. beats q.frame r.frame) (request_at requests.now best) r }
{
    match best {
        Some(place) => {
            if requests[later].beats(&requests[place]) {
                later
            } else {
                place
            }
        }
        None => later,
    }
}

/// The better of the best so far and a later offer, if there is one.
fn better_offer(requests: &[Request], best: Option<usize>, offer: Option<usize>) -> Option<usize>
    requires best { IsPlaceIn requests.now best }
    requires offer { IsPlaceIn requests.now offer }
    ensures place { IsPlaceIn requests.now result }
    ensures value { request_at requests.now result
        ≡ fold (better_of (λ q r. beats q.frame r.frame)) (request_at requests.now best) (option_to_list (request_at requests.now offer)) }
{
    match offer {
        Some(place) => Some(better(requests, best, place)),
        None => best,
    }
}

/// The place of the foremost of the offers: that of the lowest node among equals.
pub(crate) fn foremost_offer(requests: &[Request], offers: &[Option<usize>]) -> Option<usize>
    requires { All (IsPlaceIn requests.now) offers.now }
    ensures place { IsPlaceIn requests.now result }
    ensures best { request_at requests.now result ≡ foremost (λ q r. beats q.frame r.frame) (somes (map (request_at requests.now) offers.now)) }
{
    let mut best = None;
    for offer in offers {
        best = better_offer(requests, best, *offer);
    }
    best
}

/// An offer of nothing for each member.
fn no_offers(alloc: Global, members: &[Member]) -> Result<Vec<Option<usize>>, AllocError>
    ensures { IfOk result (λ v. v.items ≡ map (λ m. None) members.now) }
{
    members.iter().map(|_| None).collect(alloc)
}

impl Medium {
    /// From when on a node may start, in ticks: a passive node that was the last sender waits 8 bits
    /// longer (suspend transmission).
    fn ready_moment(&self, member: &Member) -> u64
        ensures { result ≡ model.ready_moment self.now member.now }
    {
        if member.is_passive() && self.last_sender == Some(member.node) {
            return self.idle + self.bits(8);
        }
        self.idle
    }

    /// Whether a member may start at this moment, if it has a request.
    fn may_start(&self, now: u64, member: &Member) -> bool
        ensures { result ≡ may_start self.now now member.now }
    {
        member.takes_part() && self.ready_moment(member) <= now
    }

    /// Takes the request at this place into account: its node offers it where it may, and has no
    /// better.
    fn consider(&self, now: u64, index: usize, offers: &mut Vec<Option<usize>>)
        requires index { index < length self.now.requests }
        requires places { All (IsPlaceIn self.now.requests) offers.old.items }
        requires offers { map (request_at self.now.requests) offers.old.items
            ≡ offers_of (may_start self.now now) (take index self.now.requests) self.now.members }
        ensures places { All (IsPlaceIn self.now.requests) offers.new.items }
        ensures offers { map (request_at self.now.requests) offers.new.items
            ≡ offers_of (may_start self.now now) (take (index + 1) self.now.requests) self.now.members }
    {
        let request = &self.requests[index];
        let Some(place) = place_of(&self.members, request.node) else {
            return;
        };
        if self.may_start(now, &self.members[place]) {
            let offer = better(&self.requests, offers[place], index);
            offers[place] = Some(offer);
        }
    }

    /// For each member the place of the request that it offers at this moment, if it offers one.
    pub(crate) fn offers(&self, alloc: Global, now: u64) -> Result<Vec<Option<usize>>, AllocError>
        ensures places { IfOk result (λ v. All (IsPlaceIn self.now.requests) v.items) }
        ensures offers { IfOk result (λ v. somes (map (request_at self.now.requests) v.items) ≡ model.offers self.now now) }
    {
        let mut offers = no_offers(alloc, &self.members)?;
        for index in 0..self.requests.len() {
            self.consider(now, index, &mut offers);
        }
        Ok(offers)
    }
}
