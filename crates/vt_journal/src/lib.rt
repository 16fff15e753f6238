//! The journal of a page table: the versions of the table as a list of changes, and the text of a walk's journal,
//! written and read.
#![tactic(auto)]

mod changes;
mod fields;
mod journal;
mod kept;
mod lawful;
mod laws;
mod limits;
mod lines;
mod parse;
mod passes;
mod read;
mod table;
mod text;
mod write;

pub use changes::{Change, Event, Events, RowLine, RowLines};
pub use journal::Journal;
pub use lawful::{
    head_is_lawful, journal_flaw_is_unique, journal_text_is_unique, lawful_by_parts,
    lawful_content_grows, lawful_journal_is_in_turn, lawful_pages_are_pinned,
    lawful_text_has_no_flaw, pass_may_follow, pass_was_next,
};
pub use laws::{
    change_frees_or_takes_one_frame, change_sets_one_entry, changes_make_versions,
    frames_hold_one_page, journal_grows, legal_journals, lookup_is_finest, lookup_stays,
    pinned_pages_stay,
};
pub use parse::JournalError;
pub use passes::PassText;
pub use text::{JournalText, parse_journal};
pub use vt_pages::{Geometry, texel_length};
pub use vt_text::{NoMemory, word_in};
pub use write::{add_pass, write_head, write_pass};
