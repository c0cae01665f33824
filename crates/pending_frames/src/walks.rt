//! Walks along the list of a node.
ghost use Rattle.std.specs.Prelude.{◌≡◌, ◌≢◌, ◌<◌, ℕ, length, IfSome, IfNone, slice_set, []};
ghost use Rattle.index_list.specs.Many.{list_at};
ghost use Rattle.pending_frames.specs.Kept.{Placed, Among, IsKept, IsThere};

use crate::entry::Entry;
use index_list::Lists;

/// The place of the request with this number in the list of a node, if there is one.
pub(crate) fn place_of(lists: &Lists<Entry>, node: u32, number: u64) -> Option<usize>
    requires node { node < length lists.now.lists }
    requires kept { IsKept lists.now.lists }
    ensures found { IfSome result (λ place. IsThere (list_at lists.now.lists node) place (λ r. r.number ≡ number)) }
    ensures none { IfNone result ((a : Placed) → Among (list_at lists.now.lists node) a → a.1.number ≢ number) }
{
    let mut at = lists.first(node);
    while let Some(place) = at {
        if lists.get(place).number() == number {
            return Some(place);
        }
        at = lists.next(place);
    }
    None
}

/// Takes everything out of the list of a node.
pub(crate) fn empty(lists: &mut Lists<Entry>, node: u32)
    requires node { node < length lists.old.lists }
    requires kept { IsKept lists.old.lists }
    ensures { lists.new.lists ≡ slice_set lists.old.lists node [] }
{
    while let Some(place) = lists.first(node) {
        let _gone = lists.unlink(place);
    }
}
