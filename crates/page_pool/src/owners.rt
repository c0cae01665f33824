//! Counts of owners, and the free pages.
ghost use Rattle.std.specs.Prelude.{◌≡◌, ◌+◌, ◌-◌, ◌<◌, ◌≤◌, ◌^◌, ℕ, length, slice_index_or, slice_set, nat_eq};
ghost use Rattle.std.specs.List.{count_by, All};
ghost use Rattle.page_pool.specs.Kept.{AreKept};

use index_list::Lists;

/// A page loses an owner, and is free where that was the last one.
pub fn release(owners: &mut Vec<u64>, free: &mut Lists<u32>, live: &mut usize, page: u32)
    requires owned { 1 ≤ slice_index_or owners.old.items page 0 }
    requires kept { AreKept owners.old.items free.old live.old }
    ensures owners { owners.new.items ≡ slice_set owners.old.items page (slice_index_or owners.old.items page 0 - 1) }
    ensures kept { AreKept owners.new.items free.new live.new }
{
    let count = owners[page as usize] - 1;
    owners[page as usize] = count;
    if count == 0 {
        free.push_back(0, page);
        *live -= 1;
    }
}

/// Each page loses an owner for each time that it is named.
pub fn release_all(owners: &mut Vec<u64>, free: &mut Lists<u32>, live: &mut usize, names: &[u32])
    requires owned { (p : ℕ) → count_by (nat_eq p) names.now ≤ slice_index_or owners.old.items p 0 }
    requires kept { AreKept owners.old.items free.old live.old }
    ensures owners { (p : ℕ) → slice_index_or owners.new.items p 0 + count_by (nat_eq p) names.now ≡ slice_index_or owners.old.items p 0 }
    ensures len { length owners.new.items ≡ length owners.old.items }
    ensures kept { AreKept owners.new.items free.new live.new }
{
    for name in names {
        release(owners, free, live, *name);
    }
}

/// Each page gets an owner for each time that it is named.
pub fn own_all(owners: &mut Vec<u64>, names: &[u32])
    requires within { All (λ p. p < length owners.old.items) names.now }
    requires fits { (p : ℕ) → slice_index_or owners.old.items p 0 + count_by (nat_eq p) names.now < 2 ^ 64 }
    ensures owners { (p : ℕ) → slice_index_or owners.new.items p 0 ≡ slice_index_or owners.old.items p 0 + count_by (nat_eq p) names.now }
    ensures len { length owners.new.items ≡ length owners.old.items }
{
    for name in names {
        owners[*name as usize] += 1;
    }
}
