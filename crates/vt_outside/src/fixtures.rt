//! What tests ask of a folder in memory.
ghost use Rattle.std.specs.Prelude.{◌≡◌, ◌↔◌, Some, IsTrue, slice_get};
ghost use Rattle.vt_outside.specs.MemoryFolder.{memory_files, asked_of};

use crate::{MemoryFolder, Place};

impl MemoryFolder {
    /// Whether the name is there and holds these bytes.
    pub fn holds(&self, name: &str, bytes: &[u8]) -> bool
        ensures { IsTrue result ↔ (memory_files self.now name.now ≡ Some bytes.now) }
    {
        match self.bytes_of(name) {
            Some(held) => held == bytes,
            None => false,
        }
    }

    /// Whether closed files of the name were asked for these places, in this order, and for no others.
    pub fn was_asked(&self, name: &str, places: &[Place]) -> bool
        ensures { IsTrue result ↔ (asked_of self.now name.now ≡ places.now) }
    {
        for i in 0..places.len() {
            if !self.has_place(name, i, places[i]) {
                return false;
            }
        }
        self.asked(name, places.len()).is_none()
    }

    // Whether the place of that number among those asked of the name is this one.
    fn has_place(&self, name: &str, i: usize, place: Place) -> bool
        ensures { IsTrue result ↔ (slice_get (asked_of self.now name.now) i ≡ Some place) }
    {
        match self.asked(name, i) {
            Some(asked) => asked == place,
            None => false,
        }
    }
}
