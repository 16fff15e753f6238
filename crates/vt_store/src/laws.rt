//! The law of the stores of textures.
ghost use Rattle.vt_store.specs.Laws.{StoresHoldChains};

/// The store of a texture holds the texture's mip chain: from the bytes of the texture to the words of the store.
pub fn stores_hold_chains()
    ensures { StoresHoldChains }
{}
