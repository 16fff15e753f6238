//! Laws of walks: of their runs, of how many passes a settled picture has, and of what the journal of a walk replays
//! to.
#![tactic(auto)]

mod pass_counts;
mod replays;
mod runs;

pub use pass_counts::{
    fitting_plan_is_full, mapped_pages_are_the_journals, mapped_picture_has_one_pass,
    picture_has_few_passes, picture_has_passes_enough, picture_loads_each_page_once,
    run_has_its_pictures,
};
pub use replays::{
    journal_spells_its_run, nearest_walk_is_of_its_store, replay_gives_the_walk,
    replay_gives_the_written_picture, replay_gives_what_stands,
};
pub use runs::{
    drawn_picture_is_the_runs, finished_picture_is_mapped, next_batch_may_be_run,
    picture_fits_or_not, picture_lines_stay, pictures_come_in_turn, planned_batch_may_be_run,
    ran_pass_comes_next, run_content_is_lawful, run_journal_is_legal, run_keeps_its_tables,
    run_order_is_by_stamps, run_pictures_stay, run_places_add_up, run_text_grows,
    run_text_spells_its_content, settled_table_is_newest, unfit_picture_ends_the_run,
    whole_runs_count_alike,
};
