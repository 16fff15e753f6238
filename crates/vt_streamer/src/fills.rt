//! A frame that no version of the window maps is filled with a tile.

ghost use Rattle.std.specs.Prelude.{◌≡◌, ◌*◌, ◌<◌, length};
ghost use Rattle.vt_definitions.specs.Depths.{IsDepth, texel_length, word_at};
ghost use Rattle.vt_grace.specs.Banks.{MayFill};
ghost use Rattle.vt_grace.specs.Sound.{IsSound};
ghost use Rattle.vt_grace.specs.Tokens.{IsWriterOf};
ghost use Rattle.vt_streamer.specs.Fills.{HasFilled};

use vt_definitions::word_in;
use vt_grace::{Words, WriterSeat};

/// Writes all words of a frame: those of the texels of a tile, whose samples have `depth` bytes.
pub(crate) fn fill_frame(
    words: &Words,
    writer: &mut WriterSeat,
    frame: u32,
    tile: &[u8],
    depth: u32,
    texels: u32,
)
    requires of { IsWriterOf words.now writer.old }
    requires sound { IsSound writer.old.view }
    requires frame { frame < words.now.sizes.frames }
    requires depth { IsDepth depth }
    requires texels { texels ≡ words.now.sizes.texels }
    requires tile { length tile.now ≡ texel_length depth * texels }
    requires may { MayFill writer.old.view frame }
    ensures of { IsWriterOf words.now writer.new }
    ensures sound { IsSound writer.new.view }
    ensures filled { HasFilled writer.old.view writer.new.view frame (word_at depth tile.now) texels }
{
    for place in 0..texels {
        writer.set_word(words, frame, place, word_in(tile, depth, place as usize));
    }
}
