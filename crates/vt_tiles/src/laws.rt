//! Laws of the store format.
ghost use Rattle.vt_tiles.specs.Laws.{StoresOpen, StoresHoldSources, StoredWordsAreSmall, PiecesHoldTexels};

/// The store of a source, for sides and a tile side that make a geometry, has no flaw and tells this geometry.
pub fn stores_open()
    ensures { StoresOpen }
{}

/// The store of a source holds the source's words inside every level.
pub fn stores_hold_sources()
    ensures { StoresHoldSources }
{}

/// A store of bytes is a source of words below 2^24.
pub fn stored_words_are_small()
    ensures { StoredWordsAreSmall }
{}

/// A tile that was read of a store holds the words that the store has for the texels of its page.
pub fn pieces_hold_texels()
    ensures { PiecesHoldTexels }
{}
