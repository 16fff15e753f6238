//! Laws of mip chains.
ghost use Rattle.vt_mip.specs.Laws.{ChainWordsAreSmall, ChainsGoOn};

/// The words of a chain are below 2^24 at one byte a sample and below 2^48 at two, where the texture's samples are bytes.
pub fn chain_words_are_small()
    ensures { ChainWordsAreSmall }
{}

/// The chain of a texture from level 1 on is the chain of the image that is its level 1, with one level less where there are more.
pub fn chains_go_on()
    ensures { ChainsGoOn }
{}
