//! What a sampler does: it holds the newest version, reads under the hold, and holds it no longer. Nothing here waits.

ghost use Rattle.std.specs.Prelude.{◌≡◌, ◌≢◌, ◌≤◌, ◌<◌, ◌∷◌, ℕ, true};
ghost use Rattle.vt_grace.specs.PassViews.{NoneAbove, idle, noting, wording, HasEntry};
ghost use Rattle.vt_grace.specs.Places.{texel_word};
ghost use Rattle.vt_grace.specs.Tokens.{IsPassOf, IsHeldOf};

use crate::places::{first_entry, first_texel, start_of_frame};
use crate::plays::{Announce, Hint, Hold, Read, ReadWord, Unpin};
use crate::tokens::{Held, Pass, Words};

impl Words {
    /// The index of the first word of a frame among all words.
    #[inline(never)]
    pub fn start_of(&self, frame: u32) -> usize
        ensures { result ≡ texel_word self.now.sizes frame 0 }
    {
        start_of_frame(&self.sizes, frame)
    }
}

impl Pass {
    /// Holds the newest version, which is not below any that this pass held before, nor below the one at which it was given. The
    /// sampler announces a version that it read, and then reads the newest again.
    pub fn pin(self, words: &Words) -> Held
        requires { IsPassOf words.now self }
        ensures of { IsHeldOf words.now result }
        ensures view { result.view ≡ record self.view { stage = result.view.stage; held = result.version ∷ self.view.held } }
        ensures later { NoneAbove result.version self.view.held }
        ensures given { self.view.given ≤ result.version }
    {
        let Pass { mut seat, sampler } = self;
        let shared = &words.table.shared;
        let hint = shared.load::<Hint>(&mut seat, 0);
        shared.store::<Announce>(&mut seat, 1 + sampler as usize, hint + 1);
        let version = shared.load::<Hold>(&mut seat, 0);
        Held {
            seat,
            sampler,
            version,
            first_entry: first_entry(&words.sizes, (version % 4) as usize),
            first_texel: first_texel(&words.sizes),
            texels: words.sizes.texels as usize,
        }
    }
}

impl Held {
    /// The version that is held.
    #[inline]
    pub fn version(&self) -> u64
        ensures { result ≡ self.now.version }
    {
        self.version
    }

    /// The entry of a page in the version that is held: 0, or one more than its frame. It is noted. The root's
    /// is never 0 for a pass that was given after the root had been mapped.
    #[inline]
    pub fn entry(&mut self, words: &Words, page: u32) -> u64
        requires of { IsHeldOf words.now self.old }
        requires inside { page < words.now.sizes.pages }
        ensures of { IsHeldOf words.now self.new }
        ensures version { self.new.version ≡ self.old.version }
        ensures view { self.new.view ≡ noting self.old.version page result self.old.view }
        ensures most { result ≤ words.now.sizes.frames }
        ensures root { page ≡ words.now.sizes.root → self.old.view.rooted ≡ true → result ≢ 0 }
    {
        let word = self.first_entry + page as usize;
        let shared = &words.table.shared;
        shared.load::<Read>(&mut self.seat, word)
    }

    /// The texel word of a frame at a place, where under this hold an entry of the frame was noted. It is noted.
    #[inline]
    pub fn word(&mut self, words: &Words, frame: u32, place: u32) -> u64
        requires of { IsHeldOf words.now self.old }
        requires inside { place < words.now.sizes.texels }
        requires noted { HasEntry self.old.version self.old.view frame }
        ensures of { IsHeldOf words.now self.new }
        ensures version { self.new.version ≡ self.old.version }
        ensures view { self.new.view ≡ wording self.old.version frame place result self.old.view }
    {
        let word = self.first_texel + (frame as usize * self.texels + place as usize);
        let shared = &words.table.shared;
        shared.load::<ReadWord>(&mut self.seat, word)
    }

    /// The same where the index of the frame's first word is known, which is read once for many places.
    #[inline(always)]
    pub fn word_from(&mut self, words: &Words, start: usize, frame: u32, place: u32) -> u64
        requires of { IsHeldOf words.now self.old }
        requires start { start ≡ texel_word words.now.sizes frame 0 }
        requires inside { place < words.now.sizes.texels }
        requires noted { HasEntry self.old.version self.old.view frame }
        ensures of { IsHeldOf words.now self.new }
        ensures version { self.new.version ≡ self.old.version }
        ensures view { self.new.view ≡ wording self.old.version frame place result self.old.view }
    {
        let seat = &mut self.seat;
        let word = start + place as usize;
        let shared = &words.table.shared;
        shared.load::<ReadWord>(seat, word)
    }

    /// Holds the version no longer.
    pub fn unpin(self, words: &Words) -> Pass
        requires { IsHeldOf words.now self }
        ensures of { IsPassOf words.now result }
        ensures view { result.view ≡ idle self.view }
    {
        let Held {
            mut seat,
            sampler,
            version: _,
            first_entry: _,
            first_texel: _,
            texels: _,
        } = self;
        let shared = &words.table.shared;
        shared.store::<Unpin>(&mut seat, 1 + sampler as usize, 0);
        Pass { seat, sampler }
    }
}
