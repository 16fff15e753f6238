//! Writing a file whole.

ghost use Rattle.std.specs.Prelude.{OnOk};
ghost use Rattle.vt_outside.specs.Files.{IsThere};
ghost use Rattle.vt_journal.specs.Changes.{Pinned};
ghost use Rattle.vt_walk.specs.Writing.{WritesFile};
ghost use Rattle.vt_journal.specs.JournalText.{head_text};
ghost use Rattle.vt_walk.specs.OutputFolders.{folder_of};

use crate::output_folder::OutputFolder;
use std::alloc::Global;
use vt_journal::{Journal, write_head};
use vt_outside::{Folder, OutsideError};
use vt_pages::Geometry;

/// Makes the name hold these bytes, by one creation and one append. After a refusal the name is as before, or holds a
/// prefix of the bytes.
pub fn write_file<D: OutputFolder>(
    folder: &mut D,
    name: &str,
    bytes: &[u8],
) -> Result<(), OutsideError>
    ensures written { WritesFile (folder_of D.OutputFolder) name.now bytes.now result folder.old folder.new }
    ensures there { OnOk result (IsThere (D.files folder.new) name.now) }
{
    folder.begin_file(name)?;
    folder.extend_file(name, bytes)
}

/// Begins a journal: makes the name hold the text of the pinned pages. After a refusal the name is as before, or
/// holds a prefix of that text.
pub fn begin_journal<D: Folder>(
    alloc: Global,
    folder: &mut D,
    name: &str,
    geometry: &Geometry,
    journal: &Journal,
    pinned: u32,
) -> Result<(), OutsideError>
    requires { Pinned geometry.now journal.now.changes pinned }
    ensures written { WritesFile D.Folder name.now (head_text geometry.now pinned) result folder.old folder.new }
    ensures there { OnOk result (IsThere (D.files folder.new) name.now) }
{
    let head = write_head(alloc, geometry, journal, pinned)?;
    write_file(folder, name, &head)
}
