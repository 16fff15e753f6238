//! The command `upgrade`: the store of two-byte samples that is made of one of one-byte samples.

ghost use Rattle.std.specs.Prelude.{◌≡◌, true, IfSome, map, option_map, IfOk, IfErr};
ghost use Rattle.clap.specs.Words.{rows_of, found_of};
ghost use Rattle.vt_command_words.specs.Arguments.{rule_for, are_simple};
ghost use Rattle.vt_store_commands.specs.commands.{UpgradeCommand, shown_store, IsLawfulStore};
ghost use Rattle.vt_store_commands.specs.commands.Upgrade.{upgrade_rules, upgrade_values, shown_upgrade, upgrade_task, upgraded_file};
ghost use Rattle.vt_outside.specs.Effects.{call_effect, folder_effect};
ghost use Rattle.vt_command_inputs.specs.Inputs.{NarrowStore, ArePieces};
ghost use Rattle.vt_command_inputs.specs.OpenWrites.{WritesMade};
ghost use Rattle.vt_command_inputs.specs.Reads.{file_state, Refused, OpensStore};
ghost use Rattle.vt_command_inputs.specs.CommandSpecs.{EndsAs};

use crate::commands::StoreCommand;
use clap::ArgMatches;
use std::alloc::Global;
use std::thread::Threads;
use vt_command_inputs::{Flaw, Refusal, open_store, outside_error, put_store_line};
use vt_command_words::arguments::{Argument, text};
use vt_outside::{Folder, OutsideError, Sink};
use vt_store::widen_store;
use vt_tiles::Store;

/// The words of `upgrade`.
#[derive(Clone, Copy)]
pub struct UpgradeWords<'a> {
    /// The store's name.
    pub store: &'a str,
    /// The new store's name, which is another.
    pub new_store: &'a str,
}

/// The arguments of `upgrade`.
#[tactic(auto, unfolding(crate::specs::commands::Upgrade::upgrade_rules))]
pub fn upgrade_rows<'a>() -> &'a [Argument<'a>]
    ensures rules { map rule_for result.now ≡ upgrade_rules }
    ensures simple { are_simple upgrade_rules ≡ true }
{
    &[Argument::Word("store"), Argument::Word("new_store")]
}

/// What the values of its arguments ask for.
pub fn upgrade_values<'a>(matches: &ArgMatches<'a>) -> Option<StoreCommand<'a>>
    ensures read { option_map shown_store result ≡ option_map UpgradeCommand (upgrade_values (rows_of (found_of matches.now))) }
    ensures lawful { IfSome result IsLawfulStore }
{
    let store = text(matches, "store")?;
    let new_store = text(matches, "new_store")?;
    if new_store == store {
        return None;
    }
    Some(StoreCommand::Upgrade(UpgradeWords { store, new_store }))
}

/// Opens the store, writes the new one, and puts the new one's line.
pub fn upgrade<'a, Rt: Threads + Sync, D: Folder, O: Sink>(
    rt: &Rt,
    alloc: Global,
    words: &UpgradeWords<'a>,
    folder: &mut D,
    out: &mut O,
) -> Result<(), Refusal<'a>>
    ensures { EndsAs (upgrade_task (shown_upgrade words.now)) (call_effect D.Folder O.Sink folder.old folder.new out.old out.new) result }
{
    let store = open_narrow(folder, words.store)?;
    let geometry = store.geometry();
    write_wide(rt, alloc, store, words.new_store, folder)?;
    put_store_line(out, &geometry, 2)?;
    Ok(())
}

// Opens the store of a name, which is to have samples of one byte.
fn open_narrow<'a, D: Folder>(folder: &mut D, name: &'a str) -> Result<Store<D::File>, Refusal<'a>>
    ensures narrow { IfOk result (λ store. store.depth ≡ 1) }
    ensures opens { IfOk result (λ store. OpensStore name.now store.shape store.depth (file_state D.File.File store.file)
        (folder_effect D.Folder folder.old folder.new)) }
    ensures refused { IfErr result (λ refusal. Refused (NarrowStore name.now) refusal (folder_effect D.Folder folder.old folder.new)) }
{
    let store = open_store(folder, name)?;
    if store.depth() == 1 {
        return Ok(store);
    }
    folder.close(store.into_file());
    Err(Refusal::Flawed(name, Flaw::AlreadyWide))
}

// Makes the name hold the store with two bytes a sample, and closes the store's file.
fn write_wide<Rt: Threads + Sync, D: Folder>(
    rt: &Rt,
    alloc: Global,
    mut store: Store<D::File>,
    name: &str,
    folder: &mut D,
) -> Result<(), OutsideError>
    requires { store.depth ≡ 1 }
    ensures { WritesMade (file_state D.File.File store.file) (upgraded_file store.shape) (ArePieces store.shape) name.now
        (folder_effect D.Folder folder.old folder.new) result }
{
    let written = widen_store(alloc, &mut store, folder, name);
    folder.close(store.into_file());
    match written {
        Ok(()) => Ok(()),
        Err(error) => Err(outside_error(error)),
    }
}
