//! What a seat at the table of words knows. No value of these types is made: contracts alone see them, and read an array as a
//! list of any length.

use crate::sizes::Sizes;
use vt_journal::Change;

/// How far a pass has come with a hold. A version is read as a hint, the hint is announced, and then the newest version is
/// read again and held.
pub enum Stage {
    /// It holds nothing.
    Idle,
    /// The version that was read as a hint.
    Hinted(u64),
    /// The version that was announced.
    Announced(u64),
    /// The version that was announced, and the one that is held.
    Holding(u64, u64),
}

/// What a pass knows.
pub struct PassView {
    /// The sizes of the table.
    pub sizes: Sizes,
    /// The sampler whose pass it is.
    pub sampler: u64,
    /// The newest version when it was given.
    pub given: u64,
    /// Whether the root was mapped then.
    pub rooted: bool,
    /// How far it has come with a hold.
    pub stage: Stage,
    /// The versions that it held, the newest first.
    pub held: [u64; 0],
    /// The entries that it read, the newest first.
    pub notes: [EntryNote; 0],
    /// The texel words that it read, the newest first.
    pub word_notes: [WordNote; 0],
}

/// An entry that was read under a hold.
pub struct EntryNote {
    /// The version that was held.
    pub version: u64,
    /// The page whose entry it is.
    pub page: u64,
    /// The entry: 0, or one more than the page's frame.
    pub entry: u64,
}

/// A texel word that was read under a hold.
pub struct WordNote {
    /// The version that was held.
    pub version: u64,
    /// The frame whose word it is.
    pub frame: u64,
    /// The place of the texel in the frame, row by row.
    pub place: u64,
    /// The word.
    pub word: u64,
}

/// A look of the writer at the announcement of a sampler.
pub struct Look {
    /// The sampler.
    pub sampler: u64,
    /// The word that was found: 0, or one more than the version that the sampler announced.
    pub word: u64,
}

/// A pass that was taken back.
pub struct Returned {
    /// The sampler whose pass it was.
    pub sampler: u64,
    /// The newest version when it was given.
    pub given: u64,
    /// The versions that it held, the newest first.
    pub held: [u64; 0],
}

/// What the writer knows.
pub struct WriterView {
    /// The sizes of the table.
    pub sizes: Sizes,
    /// The changes that made the versions.
    pub journal: [Change; 0],
    /// For each change the content that it was published with: the words of the frame that it maps a page to.
    pub contents: [[u64; 0]; 0],
    /// For each sampler the version below which it can hold nothing.
    pub floors: [u64; 0],
    /// For each sampler whether a pass is given to it.
    pub out: [bool; 0],
    /// The looks at samplers, the newest first.
    pub looks: [Look; 0],
    /// The passes that were taken back, the newest first.
    pub returned: [Returned; 0],
    /// The four banks of entries, one after the other.
    pub entries: [u64; 0],
    /// The entries that the passes had read that were taken back.
    pub notes: [EntryNote; 0],
    /// The texel words that they had read.
    pub word_notes: [WordNote; 0],
    /// The words of all frames, one after the other.
    pub texels: [u64; 0],
}

/// What a seat knows.
pub enum View {
    /// The seat of the writer.
    Writing(WriterView),
    /// The seat of a pass.
    Passing(PassView),
    /// The seat of a pass that was taken back.
    Spent,
}
