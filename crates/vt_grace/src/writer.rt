//! What the writer does: it looks at samplers, writes banks and frames that no sampler may still need, publishes versions, and gives and
//! takes back passes. Nothing here waits, and nothing is refused.

ghost use Rattle.std.specs.Prelude.{◌≡◌, ◌≤◌, ◌<◌, ◌+◌, false, true};
ghost use Rattle.vt_grace.specs.WriterViews.{is_out, version_of, after_look, after_entry, after_word, after_change};
ghost use Rattle.vt_grace.specs.Giving.{after_giving, after_return, new_pass};
ghost use Rattle.vt_journal.specs.Limits.{most_versions};
ghost use Rattle.vt_grace.specs.Sound.{IsSound};
ghost use Rattle.vt_grace.specs.Banks.{MayWriteNext, MayFill, MayPublishBank};
ghost use Rattle.vt_grace.specs.Tokens.{IsPassOf, IsWriterOf};

use crate::places::{word_of_entry, word_of_texel};
use crate::plays::{Enter, FillWord, Give, Learn, LookAt, Publish, TakeBack};
use crate::tokens::{Pass, Words, WriterSeat};
use vt_journal::Change;

impl WriterSeat {
    /// The newest version.
    pub fn version(&self) -> u64
        ensures { result ≡ version_of self.now.view }
    {
        self.version
    }

    /// The announcement of a sampler: 0, or one more than a version. It raises the sampler's floor: to the newest version on 0, and to the
    /// announced version otherwise.
    pub fn look(&mut self, words: &Words, sampler: u32) -> u64
        requires of { IsWriterOf words.now self.old }
        requires inside { sampler < words.now.sizes.samplers }
        ensures of { IsWriterOf words.now self.new }
        ensures sound { IsSound self.new.view }
        ensures view { self.new.view ≡ after_look self.old.view sampler result }
        ensures absent { is_out self.old.view sampler ≡ false → result ≡ 0 }
        ensures most { result ≤ version_of self.old.view + 1 }
    {
        let shared = &words.table.shared;
        shared.load::<LookAt>(&mut self.seat, 1 + sampler as usize)
    }

    /// Writes an entry, 0 or one more than a frame, into the bank of the next version, where no floor is more than two versions behind.
    pub fn set_entry(&mut self, words: &Words, page: u32, entry: u64)
        requires of { IsWriterOf words.now self.old }
        requires inside { page < words.now.sizes.pages }
        requires small { entry ≤ words.now.sizes.frames }
        requires floors { MayWriteNext self.old.view }
        ensures of { IsWriterOf words.now self.new }
        ensures sound { IsSound self.new.view }
        ensures view { self.new.view ≡ after_entry self.old.view page entry }
    {
        let bank = ((self.version + 1) % 4) as usize;
        let word = word_of_entry(&words.sizes, bank, page as usize);
        let shared = &words.table.shared;
        shared.store::<Enter>(&mut self.seat, word, entry);
    }

    /// Writes a texel word of a frame that no version from the least floor to the newest maps.
    pub fn set_word(&mut self, words: &Words, frame: u32, place: u32, word: u64)
        requires of { IsWriterOf words.now self.old }
        requires frame { frame < words.now.sizes.frames }
        requires inside { place < words.now.sizes.texels }
        requires unmapped { MayFill self.old.view frame }
        ensures of { IsWriterOf words.now self.new }
        ensures sound { IsSound self.new.view }
        ensures view { self.new.view ≡ after_word self.old.view frame place word }
    {
        let at = word_of_texel(&words.sizes, frame as usize, place as usize);
        let shared = &words.table.shared;
        shared.store::<FillWord>(&mut self.seat, at, word);
    }

    /// Publishes the next version, which a change makes: the change is legal next, and the bank of the next version is as it says.
    pub fn publish(&mut self, words: &Words, change: Change)
        requires of { IsWriterOf words.now self.old }
        requires asked { MayPublishBank self.old.view change }
        requires room { version_of self.old.view < most_versions }
        ensures of { IsWriterOf words.now self.new }
        ensures sound { IsSound self.new.view }
        ensures view { self.new.view ≡ after_change self.old.view change }
    {
        let shared = &words.table.shared;
        let next = self.version + 1;
        shared.store::<Publish>(&mut self.seat, 0, next);
        self.version = next;
    }

    /// Gives a pass to a sampler that has none, after a look at it, which finds 0.
    pub fn give_pass(&mut self, words: &Words, sampler: u32) -> Pass
        requires of { IsWriterOf words.now self.old }
        requires inside { sampler < words.now.sizes.samplers }
        requires absent { is_out self.old.view sampler ≡ false }
        ensures of { IsWriterOf words.now self.new }
        ensures sound { IsSound self.new.view }
        ensures pass_of { IsPassOf words.now result }
        ensures view { self.new.view ≡ after_giving (after_look self.old.view sampler 0) sampler }
        ensures pass { result.view ≡ new_pass self.old.view sampler }
    {
        self.look(words, sampler);
        let shared = &words.table.shared;
        let seat = shared.split_seat::<Give>(&mut self.seat);
        Pass { seat, sampler }
    }

    /// Takes a pass back. From then on all that it noted is known to be true of the journal.
    pub fn take_back(&mut self, words: &Words, pass: Pass)
        requires of { IsWriterOf words.now self.old }
        requires pass_of { IsPassOf words.now pass }
        ensures of { IsWriterOf words.now self.new }
        ensures sound { IsSound self.new.view }
        ensures view { self.new.view ≡ after_return self.old.view pass.view }
    {
        let Pass { seat, sampler: _ } = pass;
        let shared = &words.table.shared;
        shared.join_seat::<TakeBack>(&mut self.seat, seat);
        shared.load::<Learn>(&mut self.seat, 0);
    }
}
