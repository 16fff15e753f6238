//! Whether the names of a command that has a journal clash.

ghost use Rattle.std.specs.Prelude.{◌≡◌};
ghost use Rattle.vt_command_words.specs.Journals.{names_clash};
ghost use Rattle.vt_pictures.specs.Names.{is_picture_name};

use vt_pictures::is_picture_name;

/// Whether a name of a command that has a journal is that of some picture, or the journal's is another's.
pub fn names_clash(store: &str, path: &str, journal: &str, prefix: &str) -> bool
    ensures { result ≡ names_clash store.now path.now journal.now prefix.now }
{
    is_picture_name(prefix, store)
        || is_picture_name(prefix, path)
        || is_picture_name(prefix, journal)
        || journal == store
        || journal == path
}
