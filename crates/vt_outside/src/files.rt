//! Writing a file.

ghost use Rattle.std.specs.Prelude.{[], ◌∷◌};
ghost use Rattle.vt_outside.specs.Effects.{folder_effect};
ghost use Rattle.vt_outside.specs.Expectations.{Writes};

use crate::answers::OutsideError;
use crate::outside::Folder;

/// Makes the name hold these bytes, by one creation and one append. After a refusal it holds what it held, or a prefix of
/// them; `Failed` comes only where the folder's count of faults rose.
pub fn write_file<D: Folder>(folder: &mut D, name: &str, bytes: &[u8]) -> Result<(), OutsideError>
    ensures { Writes ((record { name = name.now; bytes = bytes.now }) ∷ []) (folder_effect D.Folder folder.old folder.new) result }
{
    folder.create(name)?;
    folder.append(name, bytes)
}
