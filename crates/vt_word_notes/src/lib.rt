//! What is drawn by the notes of a writer of shared words: it is the replay of the journal.
#![tactic(auto)]

mod laws;

pub use laws::{
    drawn_rows_stay_drawn, nearest_rows_are_drawn, noted_pixels_are_replayed,
    noted_rows_are_replayed, notes_are_kept, notes_are_true, pictures_by_notes_are_replayed,
    rows_need_new_notes, stored_contents_grow,
};
pub use vt_streaming::{Streamer, map_page, put_entry};
