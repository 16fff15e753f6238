//! The texel words of a tile.

ghost use Rattle.std.specs.Prelude.{◌≡◌, ◌*◌, length, IfOk};
ghost use Rattle.vt_definitions.specs.Depths.{IsDepth, texel_length};
ghost use Rattle.vt_swap.specs.Notes.{AreWordsOf};

use std::alloc::Global;
use vt_definitions::word_in;
use vt_outside::NoMemory;

/// Lays the texel words of a tile out, whose samples have `depth` bytes, in the place of others, if these are as many.
pub(crate) fn lay_out(
    alloc: Global,
    spare: Vec<u64>,
    tile: &[u8],
    depth: u32,
    texels: u32,
) -> Result<Vec<u64>, NoMemory>
    requires depth { IsDepth depth }
    requires full { length tile.now ≡ texel_length depth * texels }
    ensures { IfOk result (λ words. AreWordsOf depth texels tile.now words.items) }
{
    let mut words = sized(alloc, spare, texels)?;
    write_words(words.as_mut_slice(), tile, depth, texels);
    Ok(words)
}

// Room for so many words.
fn sized(alloc: Global, spare: Vec<u64>, texels: u32) -> Result<Vec<u64>, NoMemory>
    ensures { IfOk result (λ words. length words.items ≡ texels) }
{
    if spare.len() == texels as usize {
        return Ok(spare);
    }
    Ok(Vec::from_elem(alloc, 0, texels as usize)?)
}

// Writes the texel words of a tile.
fn write_words(words: &mut [u64], tile: &[u8], depth: u32, texels: u32)
    requires room { length words.old ≡ texels }
    requires depth { IsDepth depth }
    requires full { length tile.now ≡ texel_length depth * texels }
    ensures { AreWordsOf depth texels tile.now words.new }
{
    for i in 0..texels {
        words[i as usize] = word_in(tile, depth, i as usize);
    }
}
