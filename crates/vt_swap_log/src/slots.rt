//! Rights to read a frame, and the right to write it.

ghost use Rattle.std.specs.Prelude.{◌≡◌, ◌<◌, IfSome, length};
ghost use mathlib.Core.List.{IsPrefix};
ghost use Rattle.vt_swap_log.specs.Caches.{AreOfOneLog, cache_of};
ghost use Rattle.vt_swap_log.specs.Slots.{IsSlotOf};
ghost use Rattle.vt_swap_log.specs.LogWords.{HasWord};

use crate::frame::{Frame, FrameKey, Slot};
use crate::fronts::{again, learn};
use crate::log::Front;
use crate::records::Tile;
use counted_slot::{Claim, Counted, FREE, ONE_READER, PRESENT, TAKEN};
use std::alloc::Global;
use std::sync::Wait;
use std::thread;

// The word of a slot below which one reader more can be counted.
const MOST_COUNTED: u64 = 1 << 31;

// How often a reader asks for a right while others come and go.
const ATTEMPTS: u32 = 4096;

/// The slot of a frame that is not filled, so that nobody can have the right to read it.
pub fn new_slot(alloc: Global, frame: u32, front: &Front) -> Slot
    ensures { IsSlotOf (cache_of front.now) frame result }
{
    let key = FrameKey {
        frame,
        front: again(front),
    };
    let tile = Tile {
        frame,
        page: 0,
        words: Vec::new(alloc),
    };
    let empty = Frame {
        tile,
        number: 0,
        front: again(front),
    };
    Counted::new(empty, &key)
}

/// The right to read a frame; `None` where it is not filled, or is being written.
pub fn right_to_read(slot: &Slot) -> Option<Claim<'_, Frame>>
    ensures { IfSome result (λ claim. (claim.right ≡ 1) × (claim.tag ≡ slot.now)) }
{
    for _ in 0..ATTEMPTS {
        let seen = slot.load();
        if seen % 4 != PRESENT || seen >= MOST_COUNTED {
            return None;
        }
        let (found, claim) = slot.turn(seen, seen + ONE_READER);
        if found == seen {
            return Some(claim);
        }
        claim.done();
    }
    None
}

/// The right to write a frame. It waits while somebody has the right to read it.
pub fn right_to_write<'a, R: Wait>(rt: &R, slot: &'a Slot) -> Claim<'a, Frame>
    ensures { (result.right ≡ 2) × (result.tag ≡ slot.now) }
{
    for _ in rt.forever() {
        let seen = slot.load();
        if seen == FREE || seen == PRESENT {
            let (found, claim) = slot.turn(seen, TAKEN);
            if found == seen {
                return claim;
            }
            claim.done();
        }
        thread::yield_now();
    }
    unreachable!()
}

/// Gives a right back, if there is one.
pub fn give_back(held: Option<Claim<'_, Frame>>)
    requires { IfSome held (λ claim. claim.right ≡ 1) }
{
    match held {
        Some(claim) => {
            claim.leave();
        }
        None => {}
    }
}

/// The word at a place of the tile of a page, where the right in hand is to a frame that has it; and what the log tells of that
/// tile is learnt.
#[tactic(auto, using(crate::proofs::Prefixes::prefix_self, crate::proofs::Prefixes::prefix_get))]
pub fn word_in_hand(
    held: &Option<Claim<'_, Frame>>,
    front: &mut Front,
    slot: u32,
    page: u32,
    place: u32,
) -> Option<u64>
    requires right { IfSome held.now (λ claim. claim.right ≡ 1) }
    requires slot { IfSome held.now (λ claim. IsSlotOf (cache_of front.old) slot claim.tag) }
    ensures cache { AreOfOneLog front.new front.old }
    ensures later { IsPrefix front.old.seen.log front.new.seen.log }
    ensures word { IfSome result (HasWord front.new.seen.log slot page place) }
{
    match held {
        Some(claim) => word_of(claim, front, slot, page, place),
        None => None,
    }
}

// The word at a place of the tile of a page, where the frame that may be read has it.
#[tactic(auto, using(crate::proofs::Prefixes::prefix_self, crate::proofs::Prefixes::prefix_get))]
fn word_of(
    claim: &Claim<'_, Frame>,
    front: &mut Front,
    slot: u32,
    page: u32,
    place: u32,
) -> Option<u64>
    requires right { claim.now.right ≡ 1 }
    requires slot { IsSlotOf (cache_of front.old) slot claim.now.tag }
    ensures cache { AreOfOneLog front.new front.old }
    ensures later { IsPrefix front.old.seen.log front.new.seen.log }
    ensures word { IfSome result (HasWord front.new.seen.log slot page place) }
{
    let frame = claim.get();
    let place = place as usize;
    if frame.tile.page != page || place >= frame.tile.words.len() {
        return None;
    }
    learn(front, &frame.front);
    Some(frame.tile.words[place])
}
