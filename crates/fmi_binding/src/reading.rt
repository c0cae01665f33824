//! What the bench reads of an area.
ghost use Rattle.std.specs.Prelude.{◌≡◌, ◌%◌, ◌+◌, ◌<◌, ◌≤◌, ◌^◌, true, false, ◌∷◌, [], IfOk, length, map, slice_get};
ghost use Rattle.fmi_states.specs.declared.reply.Qualifier.TheVariants.{NotYetKnown, Unchanged, Changed};
ghost use Rattle.fmi_states.specs.declared.reply.Broken.TheVariants.{BadReply};
ghost use Rattle.code_specs.specs.Stores.{number_of_bytes};
ghost use Rattle.wasm_memory.specs.Pools.{IsThere};
ghost use Rattle.binding_specs.specs.Exchanges.{bytes_in_area, number_in_area, flag_in_area, qualifier_in_area, binary_in_area};
ghost use Rattle.fmi_binding.specs.Coming.{Comes, held, wanted_in};

use crate::guests::Guests;
use can_frame::Bytes;
use fmi_states::{Broken, Qualifier};
use std::alloc::{AllocError, Global};
use wasm_machine::Instance;

/// Where the bytes of a variable stand, behind the numbers.
pub(crate) const BYTES: u32 = 64;

const FLAGS: [bool; 2] = [false, true];

const QUALIFIERS: [Qualifier; 3] = [
    Qualifier::NotYetKnown,
    Qualifier::Unchanged,
    Qualifier::Changed,
];

// Whatever a slice of bytes holds are bytes.
fn bytes_hold(bytes: &[u8])
    ensures { map (λ b. b % 256) bytes.now ≡ bytes.now }
{}

/// So many bytes from a place in the area on.
fn bytes_in_area(
    alloc: Global,
    guests: &Guests,
    instance: &Instance,
    area: u32,
    place: u32,
    count: u32,
) -> Result<Result<Bytes, Broken>, AllocError>
    requires there { IsThere guests.now.pool instance.now.memory }
    requires fits { area + place < 2 ^ 32 }
    ensures comes { IfOk result (λ r. Comes (bytes_in_area place count)
        (held guests.now.pool instance.now area) (held guests.now.pool instance.now area) r) }
    ensures length { IfOk result (λ r. IfOk r (λ bytes. length bytes ≡ count)) }
{
    match instance.read(alloc, &guests.pool, area + place, count)? {
        None => Ok(Err(Broken::BadBuffer)),
        Some(bytes) => {
            bytes_hold(&bytes);
            Ok(Ok(Bytes::of(bytes)))
        }
    }
}

/// The number with these bytes, the lowest first.
fn number_of(bytes: &[u8]) -> u64
    requires { length bytes.now ≤ 8 }
    ensures number { result ≡ number_of_bytes bytes.now }
    ensures below { result < 256 ^ length bytes.now }
{
    match bytes {
        [] => 0,
        [first, others @ ..] => u64::from(*first) + 256 * number_of(others),
    }
}

/// The number in so many bytes, at most eight, from a place in the area on.
pub(crate) fn number_in_area(
    alloc: Global,
    guests: &Guests,
    instance: &Instance,
    area: u32,
    place: u32,
    count: u32,
) -> Result<Result<u64, Broken>, AllocError>
    requires there { IsThere guests.now.pool instance.now.memory }
    requires fits { area + place < 2 ^ 32 }
    requires few { count ≤ 8 }
    ensures { IfOk result (λ r. Comes (number_in_area place count)
        (held guests.now.pool instance.now area) (held guests.now.pool instance.now area) r) }
{
    match bytes_in_area(alloc, guests, instance, area, place, count)? {
        Err(why) => Ok(Err(why)),
        Ok(bytes) => Ok(Ok(number_of(bytes.as_slice()))),
    }
}

fn flag_of(number: u64) -> Result<bool, Broken>
    ensures { result ≡ wanted_in BadReply (slice_get (false ∷ true ∷ []) number) }
{
    match FLAGS.get(number as usize) {
        None => Err(Broken::BadReply),
        Some(flag) => Ok(*flag),
    }
}

/// Four bytes that are 0 or 1.
pub(crate) fn flag_in_area(
    alloc: Global,
    guests: &Guests,
    instance: &Instance,
    area: u32,
    place: u32,
) -> Result<Result<bool, Broken>, AllocError>
    requires there { IsThere guests.now.pool instance.now.memory }
    requires fits { area + place < 2 ^ 32 }
    ensures { IfOk result (λ r. Comes (flag_in_area place)
        (held guests.now.pool instance.now area) (held guests.now.pool instance.now area) r) }
{
    match number_in_area(alloc, guests, instance, area, place, 4)? {
        Err(why) => Ok(Err(why)),
        Ok(number) => Ok(flag_of(number)),
    }
}

fn qualifier_of(number: u64) -> Result<Qualifier, Broken>
    ensures { result ≡ wanted_in BadReply (slice_get (NotYetKnown ∷ Unchanged ∷ Changed ∷ []) number) }
{
    match QUALIFIERS.get(number as usize) {
        None => Err(Broken::BadReply),
        Some(qualifier) => Ok(*qualifier),
    }
}

/// Four bytes that are 0, 1 or 2.
pub(crate) fn qualifier_in_area(
    alloc: Global,
    guests: &Guests,
    instance: &Instance,
    area: u32,
    place: u32,
) -> Result<Result<Qualifier, Broken>, AllocError>
    requires there { IsThere guests.now.pool instance.now.memory }
    requires fits { area + place < 2 ^ 32 }
    ensures { IfOk result (λ r. Comes (qualifier_in_area place)
        (held guests.now.pool instance.now area) (held guests.now.pool instance.now area) r) }
{
    match number_in_area(alloc, guests, instance, area, place, 4)? {
        Err(why) => Ok(Err(why)),
        Ok(number) => Ok(qualifier_of(number)),
    }
}

/// The bytes of a variable that has at most so many, behind their count.
pub(crate) fn binary_in_area(
    alloc: Global,
    guests: &Guests,
    instance: &Instance,
    area: u32,
    most: u32,
) -> Result<Result<Bytes, Broken>, AllocError>
    requires there { IsThere guests.now.pool instance.now.memory }
    requires fits { area + 64 < 2 ^ 32 }
    ensures { IfOk result (λ r. Comes (binary_in_area most)
        (held guests.now.pool instance.now area) (held guests.now.pool instance.now area) r) }
{
    match number_in_area(alloc, guests, instance, area, 0, 4)? {
        Err(why) => Ok(Err(why)),
        Ok(count) if count <= u64::from(most) => {
            bytes_in_area(alloc, guests, instance, area, BYTES, count as u32)
        }
        Ok(_) => Ok(Err(Broken::BadBuffer)),
    }
}
