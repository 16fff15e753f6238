//! The order of the mapped pages.

ghost use Rattle.std.specs.Prelude.{◌≡◌, ℕ, ◌-◌, ◌^◌, ◌<◌, true, false, OnOk, OnErr, not, nat_eq, [], ◌∷◌, length, slice_index};
ghost use Rattle.std.specs.List.{filter};
ghost use Rattle.std.specs.Map.{keys_of};
ghost use Rattle.vt_plan.specs.Orders.{promoted_if, put_first as placed_first};
ghost use Rattle.vt_plan.specs.PageLists.{is_in};
ghost use Rattle.vt_plan.specs.Views.{is_loose_below};
ghost use Rattle.vt_evict.specs.Kept.{IsWalk};

use crate::lines::Walk;
use lru::LruCache;
use vt_outside::NoMemory;

/// Puts a page that is not in the order at its front. After a refusal nothing changed.
pub fn insert(order: &mut LruCache<u32, ()>, page: u32) -> Result<(), NoMemory>
    requires new { is_in (keys_of order.old.entries) page ≡ false }
    requires no_bound { order.old.cap ≡ 2 ^ 64 - 1 }
    ensures ok { OnOk result (keys_of order.new.entries ≡ page ∷ keys_of order.old.entries) }
    ensures cap { OnOk result (order.new.cap ≡ order.old.cap) }
    ensures err { OnErr result (order.new ≡ order.old) }
{
    let _length = order.len();
    order.put(page, ())?;
    Ok(())
}

/// Takes a page out of the order.
pub fn remove(order: &mut LruCache<u32, ()>, page: u32)
    ensures order { keys_of order.new.entries ≡ filter (λ y. not (nat_eq page y)) (keys_of order.old.entries) }
    ensures cap { order.new.cap ≡ order.old.cap }
{
    let _valid = order.len();
    order.pop(&page);
}

// Makes a page of the order the most recent one.
fn promote(order: &mut LruCache<u32, ()>, page: u32)
    requires { is_in (keys_of order.old.entries) page ≡ true }
    ensures order { keys_of order.new.entries ≡ page ∷ filter (λ y. not (nat_eq page y)) (keys_of order.old.entries) }
    ensures cap { order.new.cap ≡ order.old.cap }
{
    let _valid = order.len();
    order.promote(&page);
}

// Makes a page the most recent one if it is unpinned and mapped.
fn promote_loose(entries: &[u32], unpinned: u32, order: &mut LruCache<u32, ()>, page: u32)
    requires inside { page < length entries.now }
    requires in_order { page < unpinned → 0 < slice_index entries.now page → is_in (keys_of order.old.entries) page ≡ true }
    ensures order { keys_of order.new.entries
        ≡ promoted_if (is_loose_below entries.now unpinned page) page (keys_of order.old.entries) }
    ensures cap { order.new.cap ≡ order.old.cap }
{
    if page < unpinned && entries[page as usize] > 0 {
        promote(order, page);
    }
}

/// Ends a walk, and puts its unpinned mapped pages before the others, in their order.
pub fn put_first(
    entries: &[u32],
    pages: u32,
    unpinned: u32,
    walk: &mut Walk,
    order: &mut LruCache<u32, ()>,
)
    requires entries { length entries.now ≡ pages }
    requires walk { IsWalk pages walk.old.marks.items walk.old.walked }
    requires in_order { (p : ℕ) → p < unpinned → 0 < slice_index entries.now p → is_in (keys_of order.old.entries) p ≡ true }
    ensures walk { IsWalk pages walk.new.marks.items walk.new.walked }
    ensures none { walk.new.walked.elements ≡ [] }
    ensures order { keys_of order.new.entries
        ≡ placed_first (filter (is_loose_below entries.now unpinned) walk.old.walked.elements) (keys_of order.old.entries) }
    ensures cap { order.new.cap ≡ order.old.cap }
{
    while let Some(page) = walk.pop(pages) {
        promote_loose(entries, unpinned, order, page);
    }
}
