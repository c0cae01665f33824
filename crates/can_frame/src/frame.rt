//! A CAN frame (ISO 11898-1, frame formats).
ghost use Rattle.std.specs.Prelude.{◌≡◌, ◌↔◌, ◌&&◌, not, true, false, Bool, IfOk, IsOk, IsErrOf, IsTrue, length};
ghost use Rattle.frame_specs.specs.Frame.{Frame as frame, identifier_fits, remote_fits, length_fits, is_well_formed};
ghost use Rattle.can_frame.specs.Kinds.{kind_of};

use crate::Bytes;
use std::alloc::{AllocError, Global};
use std::marker::Model;

/// What a frame carries, and how.
#[derive(Clone, Copy, Debug, PartialEq, Eq)]
pub enum Kind {
    /// A classical data frame, of up to 8 bytes.
    Data,
    /// A remote frame, which asks for a data frame and has no data.
    Remote,
    /// A frame of flexible data rate.
    Fd {
        /// Bit rate switch: the data goes at the data bit rate.
        brs: bool,
        /// Error state indicator: its transmitter is error passive.
        esi: bool,
    },
}

/// Why parts make no frame, the first of these that holds.
#[derive(Clone, Copy, Debug, PartialEq, Eq)]
pub enum FrameError {
    /// The identifier is over 11 bits (base format) or 29 bits (extended format).
    Id,
    /// The length isn't one that this kind of frame can have.
    Length,
    /// A remote frame with data.
    RemoteData,
}

/// A CAN frame that can stand on the wire.
#[derive(Drop)]
pub struct Frame {
    id: u32,
    ext: bool,
    kind: Kind,
    bytes: Bytes,
}

impl Model for Frame {
    ghost Value = { frame };

    ghost view = { λ f. record { id = f.id; ext = f.ext; kind = kind_of f.kind; bytes = f.bytes } };

    ghost invariant = { λ f. is_well_formed (record { id = f.id; ext = f.ext; kind = kind_of f.kind; bytes = f.bytes }) ≡ true };
}

impl Frame {
    /// The identifier, of 11 bits in base format and 29 in extended format.
    pub fn id(&self) -> u32
        ensures value { result ≡ self.now.id }
        ensures well_formed { is_well_formed self.now ≡ true }
    {
        self.id
    }

    /// Whether the frame has extended format.
    pub fn ext(&self) -> bool
        ensures value { result ≡ self.now.ext }
        ensures well_formed { is_well_formed self.now ≡ true }
    {
        self.ext
    }

    /// The kind of the frame.
    pub fn kind(&self) -> Kind
        ensures value { kind_of result ≡ self.now.kind }
        ensures well_formed { is_well_formed self.now ≡ true }
    {
        self.kind
    }

    /// The data.
    pub fn bytes(&self) -> &Bytes
        ensures value { result.now ≡ self.now.bytes }
        ensures well_formed { is_well_formed self.now ≡ true }
    {
        &self.bytes
    }

    /// The same frame again.
    pub fn copy(&self, alloc: Global) -> Result<Frame, AllocError>
        ensures { IfOk result (λ f. f ≡ self.now) }
    {
        let bytes = Bytes::of(self.bytes.as_slice().to_vec(alloc)?);
        Ok(Frame {
            id: self.id,
            ext: self.ext,
            kind: self.kind,
            bytes,
        })
    }

    /// The frame with these parts, or the first fault: the identifier, data of a remote frame, the length.
    pub fn new(id: u32, ext: bool, kind: Kind, bytes: Bytes) -> Result<Frame, FrameError>
        ensures ok { IfOk result (λ f. f ≡ record { id = id; ext = ext; kind = kind_of kind; bytes = bytes }) }
        ensures well_formed { IsOk result ↔ (is_well_formed (record { id = id; ext = ext; kind = kind_of kind; bytes = bytes }) ≡ true) }
        ensures id { IsErrOf result FrameError.Id ↔ (identifier_fits ext id ≡ false) }
        ensures remote { IsErrOf result FrameError.RemoteData
            ↔ (identifier_fits ext id ≡ true) × (remote_fits (kind_of kind) (length bytes) ≡ false) }
        ensures length { IsErrOf result FrameError.Length
            ↔ (identifier_fits ext id ≡ true) × (remote_fits (kind_of kind) (length bytes) ≡ true) × (length_fits (kind_of kind) (length bytes) ≡ false) }
    {
        if !identifier_is_in_range(ext, id) {
            return Err(FrameError::Id);
        }
        let length = bytes.as_slice().len();
        if !remote_is_empty(kind, length) {
            return Err(FrameError::RemoteData);
        }
        if !length_is_possible(kind, length) {
            return Err(FrameError::Length);
        }
        Ok(Frame {
            id,
            ext,
            kind,
            bytes,
        })
    }
}

fn identifier_is_in_range(ext: bool, id: u32) -> bool
    ensures { result ≡ identifier_fits ext id }
{
    if ext { id <= 0x1fff_ffff } else { id <= 0x7ff }
}

fn remote_is_empty(kind: Kind, length: usize) -> bool
    ensures { result ≡ remote_fits (kind_of kind) length }
{
    match kind {
        Kind::Remote => length == 0,
        _ => true,
    }
}

fn length_is_possible(kind: Kind, length: usize) -> bool
    ensures { result ≡ length_fits (kind_of kind) length }
{
    match kind {
        Kind::Fd { .. } => matches!(length, 0..=8 | 12 | 16 | 20 | 24 | 32 | 48 | 64),
        _ => length <= 8,
    }
}
