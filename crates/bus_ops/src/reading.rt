//! Reading operations.
ghost use Rattle.std.specs.Prelude.{◌≡◌, ◌<◌, ◌≤◌, IfOk, length};
ghost use Rattle.operation_specs.specs.Reading.{IsItem, IsReading, first_length, is_cut, stated_length};
ghost use Rattle.bus_ops.specs.ItemsIn.{items_in};
ghost use Rattle.bus_ops.specs.Views.{item_of};

use crate::fields::operation;
use crate::{Item, Items};
use can_frame::Bytes;
use std::alloc::{AllocError, Global};

/// The items that the bytes hold, one after the other. An item takes as many bytes as it states for
/// its length, or all that is left where fewer than 8 bytes are left or the stated length is below 8
/// or over what is left. It is the operation with exactly these bytes, or else bad.
pub fn read_ops(alloc: Global, bytes: &[u8]) -> Result<Items, AllocError>
    ensures reading { IfOk result (λ items. IsReading bytes.now items) }
    // The same, where a definition goes on from the items.
    ensures items { IfOk result (λ items. items ≡ items_in bytes.now) }
{
    let mut list = Vec::new(alloc);
    let mut rest = bytes;
    while !rest.is_empty() {
        let (front, behind) = rest.split_at(first_item_length(rest));
        list.push(item(alloc, front)?)?;
        rest = behind;
    }
    Ok(Items::of(list))
}

fn first_item_length(bytes: &[u8]) -> usize
    ensures value { result ≡ first_length bytes.now }
    ensures within { result ≤ length bytes.now }
    ensures some { 0 < length bytes.now → 0 < result }
{
    match bytes {
        [_, _, _, _, a, b, c, d, ..] => {
            let stated = u32::from_le_bytes([*a, *b, *c, *d]) as usize;
            if stated < 8 || bytes.len() < stated {
                bytes.len()
            } else {
                stated
            }
        }
        _ => bytes.len(),
    }
}

fn item(alloc: Global, bytes: &[u8]) -> Result<Item, AllocError>
    ensures { IfOk result (λ i. IsItem bytes.now (item_of i)) }
{
    match operation(alloc, bytes)? {
        Some(op) => Ok(Item::Op(op)),
        None => Ok(Item::Bad(Bytes::of(bytes.to_vec(alloc)?))),
    }
}
