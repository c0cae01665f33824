//! One CAN bus: requests, arbitration, delivery, errors, recovery, sleep and notices (ISO 11898-1, medium
//! access control and fault confinement).
#![tactic(auto)]

mod copies;
mod course;
mod due;
mod finishing;
mod image;
mod inboxes;
mod lookup;
mod mail;
mod medium;
mod member;
mod member_changes;
mod member_inbox;
mod offers;
mod part;
mod request;
mod running;
mod setup;
mod starting;
mod submission;
mod submitting;

pub use due::{Due, What};
pub use image::{BusImage, MemberImage, RequestImage};
pub use mail::Mail;
pub use medium::Medium;
pub use member::{FormatNotice, LostNotice};
pub use running::{Fault, Hurt, Running};
pub use setup::BusSetup;
