//! The machines among the words: by which one a walk draws.

ghost use Rattle.std.specs.Prelude.{◌≡◌};
ghost use Rattle.clap.specs.Words.{rows_of, found_of};
ghost use Rattle.vt_command_words.specs.Machines.{table_named, table_of, scheduling_named, scheduling_of, machine_for, machine_of};

use crate::arguments::text;
use crate::filters::{Filtering, filter_of};
use clap::ArgMatches;

/// How the page table and the frames are held.
#[derive(Clone, Copy)]
pub enum TableForm {
    /// As words that are read and written one by one.
    Words,
    /// As a table that is held twice, of which readers take the copy that is shown.
    Swapped,
}

/// How the rows of a picture are given to the samplers.
#[derive(Clone, Copy)]
pub enum Scheduling {
    /// They are dealt to the samplers beforehand.
    Dealt,
    /// The samplers share them: each takes the next one.
    Shared,
}

/// By which machine a walk draws. Of the options that ask for another one than the standard machine at most one may be given.
#[derive(Clone, Copy)]
pub enum MachineChoice {
    /// Table and frames are words, rows are dealt to the samplers, and each pixel is one texel.
    Standard,
    /// The table is held twice.
    SwappedTable,
    /// The samplers share the rows.
    SharedRows,
    /// Each pixel is a blend of four texels.
    Bilinear,
}

/// The machine that the options ask for, if their values are lawful and at most one of them is not its option's default.
pub fn machine_of(matches: &ArgMatches<'_>) -> Option<MachineChoice>
    ensures { result ≡ machine_of (rows_of (found_of matches.now)) }
{
    let table = table_of(matches)?;
    let scheduling = scheduling_of(matches)?;
    let filter = filter_of(matches)?;
    machine_for(table, scheduling, filter)
}

// The machine for these values, if at most one of them is not its option's default.
fn machine_for(table: TableForm, scheduling: Scheduling, filter: Filtering) -> Option<MachineChoice>
    ensures { result ≡ machine_for table scheduling filter }
{
    match (table, scheduling, filter) {
        (TableForm::Words, Scheduling::Dealt, Filtering::Nearest) => Some(MachineChoice::Standard),
        (TableForm::Swapped, Scheduling::Dealt, Filtering::Nearest) => {
            Some(MachineChoice::SwappedTable)
        }
        (TableForm::Words, Scheduling::Shared, Filtering::Nearest) => {
            Some(MachineChoice::SharedRows)
        }
        (TableForm::Words, Scheduling::Dealt, Filtering::Bilinear) => Some(MachineChoice::Bilinear),
        (TableForm::Words, Scheduling::Shared, Filtering::Bilinear) => None,
        (TableForm::Swapped, Scheduling::Shared, Filtering::Nearest) => None,
        (TableForm::Swapped, Scheduling::Dealt, Filtering::Bilinear) => None,
        (TableForm::Swapped, Scheduling::Shared, Filtering::Bilinear) => None,
    }
}

// The value of the option `--table`, if it is one of those that there are.
fn table_of(matches: &ArgMatches<'_>) -> Option<TableForm>
    ensures { result ≡ table_of (rows_of (found_of matches.now)) }
{
    table_named(text(matches, "table")?)
}

// The form of this name, if there is one.
fn table_named(name: &str) -> Option<TableForm>
    ensures { result ≡ table_named name.now }
{
    if name == "words" {
        return Some(TableForm::Words);
    }
    if name == "swap" {
        return Some(TableForm::Swapped);
    }
    None
}

// The value of the option `--rows`, if it is one of those that there are.
fn scheduling_of(matches: &ArgMatches<'_>) -> Option<Scheduling>
    ensures { result ≡ scheduling_of (rows_of (found_of matches.now)) }
{
    scheduling_named(text(matches, "rows")?)
}

// The scheduling of this name, if there is one.
fn scheduling_named(name: &str) -> Option<Scheduling>
    ensures { result ≡ scheduling_named name.now }
{
    if name == "dealt" {
        return Some(Scheduling::Dealt);
    }
    if name == "shared" {
        return Some(Scheduling::Shared);
    }
    None
}
