//! What is saved of a bus, and the bus that is made of it.
ghost use Rattle.std.specs.Prelude.{◌≡◌, ◌≤◌, ◌^◌, IfOk, length, map};
ghost use Rattle.bus_specs.specs.Sound.{Sound};
ghost use Rattle.bus_images.specs.Images.{bus_image, bus_from, member_image, member_from, members_from};
ghost use Rattle.bus_medium.specs.Setups.{setup_of, IsWellFormed};

use crate::copies::{copy_format, copy_mail, copy_running};
use crate::mail::Mail;
use crate::member::{FormatNotice, LostNotice, Member};
use crate::part::is_among;
use crate::request::Request;
use crate::running::Running;
use crate::{BusSetup, Medium};
use can_frame::{Frame, Numbers};
use error_counters::Counters;
use std::alloc::{AllocError, Global};
use std::marker::Model;

/// What is saved of a frame that waits to be sent.
#[derive(Drop)]
pub struct RequestImage {
    /// The node that asks for it.
    pub node: u32,
    /// The number of the request.
    pub number: u64,
    /// The frame.
    pub frame: Frame,
}

impl Model for RequestImage {
    ghost use Rattle.bus_specs.specs.Bus.{Request as request};

    ghost Value = { request };

    ghost view = { λ r. record { node = r.node; number = r.number; frame = r.frame } };
}

/// What is saved of a node of a bus. Its number and whether it is live are told when it is made again.
#[derive(Drop)]
pub struct MemberImage {
    /// Whether it is awake.
    pub awake: bool,
    /// Whether a frame of it that loses arbitration is discarded.
    pub discards: bool,
    /// Its error counters.
    pub counters: Counters,
    /// The occurrences of 11 recessive bits that it has seen, while it is off.
    pub occurrences: Option<u64>,
    /// The notice that it lost arbitration.
    pub lost: Option<LostNotice>,
    /// The notice that an operation of it was bad.
    pub format: Option<FormatNotice>,
    /// When it is told that the bus was woken up, in ticks.
    pub wake: Option<u64>,
    /// What it is told of a frame.
    pub mail: Option<Mail>,
}

impl Model for MemberImage {
    ghost use Rattle.std.specs.Prelude.{option_map};
    ghost use Rattle.bus_images.specs.Images.{MemberImage as image};
    ghost use Rattle.bus_medium.specs.Mails.{mail_of};

    ghost Value = { image };

    ghost view = { λ m. record {
      awake = m.awake;
      discards = m.discards;
      counters = m.counters;
      occurrences = m.occurrences;
      lost = m.lost;
      format = m.format;
      wake = m.wake;
      mail = option_map mail_of m.mail;
    } };
}

/// What is saved of a bus: all but what it is made from. Moments are in ticks.
#[derive(Drop)]
pub struct BusImage {
    /// How many frames were started.
    pub attempts: u64,
    /// The number of the next request.
    pub next: u64,
    /// From when on a frame may start.
    pub idle: u64,
    /// The node that sent last.
    pub last_sender: Option<u32>,
    /// The frame on the wire.
    pub running: Option<Running>,
    /// What waits to be sent, by number.
    pub requests: Vec<RequestImage>,
    /// The nodes, in their order.
    pub members: Vec<MemberImage>,
}

impl Model for BusImage {
    ghost use Rattle.bus_images.specs.Images.{BusImage as image};

    ghost Value = { image };

    ghost view = { λ b. record {
      attempts = b.attempts;
      next = b.next;
      idle = b.idle;
      last_sender = b.last_sender;
      running = b.running;
      requests = b.requests.items;
      members = b.members.items;
    } };
}

impl Request {
    /// What is saved of it.
    fn image(&self, alloc: Global) -> Result<RequestImage, AllocError>
        ensures { IfOk result (λ i. i ≡ self.now) }
    {
        Ok(RequestImage {
            node: self.node,
            number: self.number,
            frame: self.frame.copy(alloc)?,
        })
    }

    /// The request of which this was saved.
    fn from_image(alloc: Global, image: &RequestImage) -> Result<Request, AllocError>
        ensures { IfOk result (λ r. r ≡ image.now) }
    {
        let frame = image.frame.copy(alloc)?;
        Ok(Request::new(image.node, image.number, frame))
    }
}

impl Member {
    /// What is saved of it.
    fn image(&self, alloc: Global) -> Result<MemberImage, AllocError>
        ensures { IfOk result (λ i. i ≡ member_image self.now) }
    {
        Ok(MemberImage {
            awake: self.awake,
            discards: self.discards,
            counters: self.counters,
            occurrences: self.occurrences,
            lost: self.lost,
            format: copy_format(alloc, &self.format)?,
            wake: self.wake,
            mail: copy_mail(alloc, &self.mail)?,
        })
    }

    /// The member of this node of which this was saved.
    fn from_image(
        alloc: Global,
        live: &[u32],
        node: u32,
        image: &MemberImage,
    ) -> Result<Member, AllocError>
        ensures { IfOk result (λ m. m ≡ member_from live.now node image.now) }
    {
        Ok(Member {
            node,
            live: is_among(live, node),
            awake: image.awake,
            discards: image.discards,
            counters: image.counters,
            occurrences: image.occurrences,
            lost: image.lost,
            format: copy_format(alloc, &image.format)?,
            wake: image.wake,
            mail: copy_mail(alloc, &image.mail)?,
        })
    }
}

/// What is saved of the requests.
fn request_images(alloc: Global, requests: &[Request]) -> Result<Vec<RequestImage>, AllocError>
    ensures { IfOk result (λ v. v.items ≡ requests.now) }
{
    let mut images = Vec::with_capacity(alloc, requests.len())?;
    for request in requests {
        images.push(request.image(alloc)?)?;
    }
    Ok(images)
}

/// What is saved of the members.
fn member_images(alloc: Global, members: &[Member]) -> Result<Vec<MemberImage>, AllocError>
    ensures { IfOk result (λ v. v.items ≡ map member_image members.now) }
{
    let mut images = Vec::with_capacity(alloc, members.len())?;
    for member in members {
        images.push(member.image(alloc)?)?;
    }
    Ok(images)
}

/// The requests of which these were saved.
fn requests_from(alloc: Global, images: &[RequestImage]) -> Result<Vec<Request>, AllocError>
    ensures { IfOk result (λ v. v.items ≡ images.now) }
{
    let mut requests = Vec::with_capacity(alloc, images.len())?;
    for image in images {
        requests.push(Request::from_image(alloc, image)?)?;
    }
    Ok(requests)
}

/// The members of these nodes of which these were saved.
fn members_of(
    alloc: Global,
    live: &[u32],
    nodes: &[u32],
    images: &[MemberImage],
) -> Result<Vec<Member>, AllocError>
    requires each { length images.now ≡ length nodes.now }
    ensures { IfOk result (λ v. v.items ≡ members_from live.now nodes.now images.now) }
{
    let mut members = Vec::with_capacity(alloc, nodes.len())?;
    for (place, node) in nodes.iter().enumerate() {
        members.push(Member::from_image(alloc, live, *node, &images[place])?)?;
    }
    Ok(members)
}

impl Medium {
    /// What is saved of the bus.
    pub fn image(&self, alloc: Global) -> Result<BusImage, AllocError>
        ensures { IfOk result (λ i. i ≡ bus_image self.now) }
    {
        Ok(BusImage {
            attempts: self.attempts,
            next: self.next,
            idle: self.idle,
            last_sender: self.last_sender,
            running: copy_running(alloc, &self.running)?,
            requests: request_images(alloc, &self.requests)?,
            members: member_images(alloc, &self.members)?,
        })
    }

    /// The bus of which this was saved, with these live nodes. There is an image for each of its nodes.
    pub fn from_image(
        alloc: Global,
        setup: BusSetup,
        live: &Numbers,
        image: &BusImage,
    ) -> Result<Medium, AllocError>
        requires well_formed { IsWellFormed setup }
        requires each { length image.now.members ≡ length setup.members }
        requires sound { Sound (bus_from (setup_of setup) setup.members live.now image.now) }
        requires idle { image.now.idle ≤ 2 ^ 63 }
        ensures { IfOk result (λ m. m ≡ bus_from (setup_of setup) setup.members live.now image.now) }
    {
        let nodes = setup.members.as_slice();
        let members = members_of(alloc, live.as_slice(), nodes, &image.members)?;
        let requests = requests_from(alloc, &image.requests)?;
        let running = copy_running(alloc, &image.running)?;
        Ok(Medium {
            number: setup.number,
            rate: setup.rate,
            fd_rate: setup.fd_rate,
            nominal: setup.nominal,
            fast: setup.fast,
            errors: setup.errors,
            members,
            requests,
            next: image.next,
            attempts: image.attempts,
            idle: image.idle,
            last_sender: image.last_sender,
            running,
        })
    }
}
