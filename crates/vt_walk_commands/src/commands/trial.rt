//! The command `trial`: a settled walk in memory, over a texture and a path that are made from a number.

ghost use Rattle.std.specs.Prelude.{◌≡◌, ◌<◌, ◌≤◌, [], length, is_some, option_map, IfOk, OnSome};
ghost use Rattle.vt_outside.specs.Counts.{added};
ghost use Rattle.vt_outside.specs.Files.{bytes_at};
ghost use Rattle.vt_outside.specs.MemoryFolder.{memory_files};
ghost use Rattle.vt_command_words.specs.Numbers.{most_number};
ghost use Rattle.vt_pictures.specs.Names.{four_digit_numbers};
ghost use Rattle.vt_command_words.specs.Trial.{IsLawfulTrial, shown_trial};
ghost use Rattle.vt_camera.specs.PathText.{IsPathText};
ghost use Rattle.vt_pages.specs.Shape.{shape_of};
ghost use Rattle.vt_command_inputs.specs.Effects.{FolderState, sink_effect};
ghost use Rattle.vt_outside.specs.Expectations.{PutsText};
ghost use Rattle.vt_command_inputs.specs.CommandSpecs.{EndsBy};
ghost use Rattle.vt_walk_commands.specs.commands.Trial.{trial_shape, trial_texture, trial_path, trial_line, trial_spec, answer_of_trial, beside, TriesOut, WalksOver, Compares, IsOfTrial, differing, differing_in, differing_together};

use std::alloc::Global;
use std::sync::Wait;
use std::thread::Threads;
use vt_camera::{Path, parse_path};
use vt_command_inputs::{Refusal, add};
use vt_command_words::TrialWords;
use vt_mip::Chain;
use vt_outside::{Fails, Folder, Gate, MemoryFolder, MemorySink, NoMemory, OutsideError, Sink};
use vt_pages::Geometry;
use vt_pass_machines::WordMachine;
use vt_pictures::picture_name;
use vt_plain::draw_plain;
use vt_ppm::{Image, encode};
use vt_store_commands::commands::generate::make_row;
use vt_store_commands::write_store;
use vt_text::Line;
use vt_tiles::Store;
use vt_walk::{Crew, Names, Settings, WalkError, Walked, walk_counted};

// The side of the texture, and of a tile.
const SIDE: u32 = 2048;

const TILE: u32 = 64;

/// Makes the texture and the path of a number, walks settled over them in memory, compares the pictures with the
/// plain ones, and puts a line: how many passes and reads the walk took, and how many bytes differ. It may wait.
#[tactic(auto, using(crate::proofs::Trying::refused))]
pub fn trial<'a, Rt: Threads + Wait + Sync, O: Sink, G: Gate + Sync>(
    rt: &Rt,
    alloc: Global,
    words: &TrialWords,
    out: &mut O,
    gate: &G,
) -> Result<(), Refusal<'a>>
    requires { IsLawfulTrial words.now }
    ensures { (folder : FolderState)
        → EndsBy (trial_spec (shown_trial words.now)) (beside folder (sink_effect O.Sink out.old out.new)) result }
{
    let number = words.number;
    match try_out(rt, alloc, number, gate) {
        Ok(tried) => match put_trial_line(out, number, &tried) {
            Ok(()) => Ok(()),
            Err(error) => Err(Refusal::from(error)),
        },
        Err(refusal) => Err(refusal),
    }
}

// What came of a trial: how much the walk took, and how many bytes of its pictures differ from the plain ones.
#[derive(Clone, Copy)]
pub struct Tried {
    walked: Walked,
    differ: u64,
}

// Puts the line of a trial.
fn put_trial_line<O: Sink>(out: &mut O, number: u32, tried: &Tried) -> Result<(), OutsideError>
    ensures { PutsText (trial_line number tried.now.walked tried.now.differ) (sink_effect O.Sink out.old out.new) result }
{
    let line = line_of_trial(number, tried);
    out.put(line.bytes())
}

// The line of a trial.
#[tactic(auto, unfolding(crate::specs::commands::Trial::trial_line))]
fn line_of_trial(number: u32, tried: &Tried) -> Line
    ensures { result ≡ trial_line number tried.now.walked tried.now.differ }
{
    let tried = *tried;
    let mut line = Line::new();
    add(&mut line, b"trial ", number as u64);
    add(
        &mut line,
        b" pictures 60 passes ",
        tried.walked.passes as u64,
    );
    add(&mut line, b" reads ", tried.walked.reads);
    add(&mut line, b" differ ", tried.differ);
    line.words(b"\n");
    line
}

// Tries a number out. Its own folder and sink have no failing calls; should one fail nevertheless, or a byte differ,
// nothing is put.
#[tactic(auto, using(crate::proofs::Trying::compared))]
fn try_out<'a, Rt: Threads + Wait + Sync, G: Gate + Sync>(
    rt: &Rt,
    alloc: Global,
    number: u32,
    gate: &G,
) -> Result<Tried, Refusal<'a>>
    requires { number ≤ most_number }
    ensures { TriesOut number result }
{
    let Ok(path) = make_path(alloc, number) else {
        return Err(Refusal::NoMemory);
    };
    let Ok(chain) = make_chain(rt, alloc, number) else {
        return Err(Refusal::NoMemory);
    };
    let mut folder = MemoryFolder::new(alloc, Fails::new(alloc));
    match walk_over(rt, alloc, &mut folder, &chain, &path, gate) {
        Ok(walked) => compare(rt, alloc, &folder, &chain, &path, walked),
        Err(refusal) => Err(refusal),
    }
}

// The path of a number.
fn make_path(alloc: Global, number: u32) -> Result<Path, NoMemory>
    requires { number ≤ most_number }
    ensures { IfOk result (λ path. IsPathText (trial_path number) path) }
{
    let text = path_text(number);
    match parse_path(alloc, text.bytes()) {
        Ok(path) => Ok(path),
        Err(_) => Err(NoMemory),
    }
}

// Its text.
#[tactic(auto, unfolding(crate::specs::commands::Trial::trial_path))]
fn path_text(number: u32) -> Line
    requires { number ≤ most_number }
    ensures { result ≡ trial_path number }
{
    let start = 256 * number as u64;
    let mut line = Line::new();
    add(&mut line, b"size 320 200\nfocal 100\nat ", start);
    add(&mut line, b" 0 204800 16384 0\nto 59 ", start + 262_144);
    line.words(b" 0 204800 16384 0\n");
    line
}

// The mip chain of the texture of a number.
fn make_chain<Rt: Threads + Sync>(rt: &Rt, alloc: Global, number: u32) -> Result<Chain, NoMemory>
    requires { number ≤ most_number }
    ensures { IfOk result (IsOfTrial number) }
{
    let texture = make_texture(alloc, number)?;
    Chain::build(rt, alloc, texture, TILE)
}

// The texture of a number.
fn make_texture(alloc: Global, number: u32) -> Result<Image, NoMemory>
    requires { number ≤ most_number }
    ensures { IfOk result (λ texture. texture ≡ trial_texture number) }
{
    let mut room = vec![in alloc; 0; 3 * SIDE as usize]?;
    let row = room.as_mut_slice();
    let mut samples = Vec::with_capacity(alloc, 3 * (SIDE * SIDE) as usize)?;
    for y in 0..SIDE {
        make_row(number, y, SIDE, row);
        samples.extend_from_slice(row)?;
    }
    Ok(Image::new(1, SIDE, SIDE, samples))
}

// Writes the store of the chain of a trial, and walks settled over it and a path.
#[tactic(auto, using(crate::proofs::Trying::fresh_open, crate::proofs::Trying::settings_lawful))]
fn walk_over<'a, Rt: Threads + Wait + Sync, D: Folder, G: Gate + Sync>(
    rt: &Rt,
    alloc: Global,
    folder: &mut D,
    chain: &Chain,
    path: &Path,
    gate: &G,
) -> Result<Walked, Refusal<'a>>
    requires depth { chain.now.base.depth ≡ 1 }
    requires sides { shape_of chain.now.base.width chain.now.base.height chain.now.tile ≡ trial_shape }
    ensures { WalksOver path.now result }
{
    let names = Names {
        store: "store",
        prefix: "picture",
        journal: "journal",
    };
    let Ok(store) = make_store(alloc, folder, chain, names.store) else {
        return Err(Refusal::NoMemory);
    };
    let settings = Settings {
        frames: 64,
        pinned: 1,
        crew: Crew {
            samplers: 4,
            loaders: 3,
            batch: 16,
        },
    };
    let mut log = MemorySink::new(alloc, Fails::new(alloc));
    let walked = walk_counted::<Rt, WordMachine<D::File>, D, MemorySink, G>(
        rt, alloc, folder, store, path, &names, &settings, true, &mut log, gate,
    );
    answer_of(walked)
}

// The answer of the walk of a trial.
fn answer_of<'a>(walked: Result<Walked, WalkError>) -> Result<Walked, Refusal<'a>>
    ensures { result ≡ answer_of_trial walked }
{
    match walked {
        Ok(walked) => Ok(walked),
        Err(
            WalkError::DoesNotFit {
                picture,
                wanted,
                room,
            },
        ) => Err(Refusal::DoesNotFit {
            picture,
            wanted,
            room,
        }),
        Err(WalkError::TooFewFrames { .. }) => Err(Refusal::NoMemory),
        Err(WalkError::Failed) => Err(Refusal::NoMemory),
        Err(WalkError::NoMemory) => Err(Refusal::NoMemory),
    }
}

// Makes a name hold the store of the chain of a trial, and opens it. Its bytes are known, so its header need not be
// read.
fn make_store<D: Folder>(
    alloc: Global,
    folder: &mut D,
    chain: &Chain,
    name: &str,
) -> Result<Store<D::File>, NoMemory>
    requires depth { chain.now.base.depth ≡ 1 }
    requires sides { shape_of chain.now.base.width chain.now.base.height chain.now.tile ≡ trial_shape }
    ensures shape { IfOk result (λ store. store.shape ≡ trial_shape) }
    ensures depth { IfOk result (λ store. store.depth ≡ 1) }
    ensures bytes { IfOk result (λ store. D.File.bytes store.file ≡ bytes_at (D.files folder.new) name.now) }
    ensures known_too { IfOk result (λ store. is_some (D.File.bytes store.file) ≡ is_some (D.files folder.new)) }
    ensures asked { IfOk result (λ store. D.File.asked store.file ≡ option_map (λ _. []) (D.asked folder.new)) }
    ensures named { IfOk result (λ store. OnSome (D.asked folder.new) (D.File.name store.file ≡ name.now)) }
{
    let Ok(geometry) = Geometry::new(SIDE, SIDE, TILE) else {
        return Err(NoMemory);
    };
    let Ok(()) = write_store(alloc, chain, &geometry, folder, name) else {
        return Err(NoMemory);
    };
    match folder.open(name) {
        Ok(file) => Ok(Store::same(file, &geometry, 1)),
        Err(_) => Err(NoMemory),
    }
}

// Compares the pictures of a walk with the plain ones.
fn compare<'a, Rt: Threads + Sync>(
    rt: &Rt,
    alloc: Global,
    folder: &MemoryFolder,
    chain: &Chain,
    path: &Path,
    walked: Walked,
) -> Result<Tried, Refusal<'a>>
    requires { chain.now.base.depth ≡ 1 }
    ensures { Compares walked result }
{
    let Ok(differ) = count_differing(rt, alloc, folder, chain, path) else {
        return Err(Refusal::NoMemory);
    };
    if differ > 0 {
        return Err(Refusal::NoMemory);
    }
    Ok(Tried { walked, differ })
}

// How many bytes of the pictures in a folder are other than those of the plain pictures; it is at the end of its
// type.
fn count_differing<Rt: Threads + Sync>(
    rt: &Rt,
    alloc: Global,
    folder: &MemoryFolder,
    chain: &Chain,
    path: &Path,
) -> Result<u64, OutsideError>
    requires { chain.now.base.depth ≡ 1 }
    ensures { IfOk result (λ n. n ≡ added 0 (differing_together (memory_files folder.now) chain.now path.now
        (length path.now.cameras))) }
{
    let mut count: u64 = 0;
    for picture in 0..path.pictures() {
        let differing = picture_differing(rt, alloc, folder, chain, path, picture)?;
        count = count.saturating_add(differing);
    }
    Ok(count)
}

// How many bytes of a picture in a folder are other than those of the plain picture; all, where it is missing.
fn picture_differing<Rt: Threads + Sync>(
    rt: &Rt,
    alloc: Global,
    folder: &MemoryFolder,
    chain: &Chain,
    path: &Path,
    picture: u32,
) -> Result<u64, OutsideError>
    requires depth { chain.now.base.depth ≡ 1 }
    requires picture { picture < length path.now.cameras }
    requires few { picture < four_digit_numbers }
    ensures { IfOk result (λ n. n ≡ differing_in (memory_files folder.now) chain.now path.now picture) }
{
    let samples = draw_plain(rt, alloc, chain, path, picture)?;
    let plain = encode(alloc, path.width(), path.height(), &samples)?;
    let name = picture_name(alloc, "picture", picture)?;
    match folder.bytes_of(name.as_str()) {
        Some(drawn) => Ok(count_other(drawn, &plain)),
        None => Ok(plain.len() as u64),
    }
}

// How many bytes of two texts are other, place by place; what one has more counts too.
fn count_other(a: &[u8], b: &[u8]) -> u64
    ensures { result ≡ differing a.now b.now }
{
    let shared = a.len().min(b.len());
    let mut count = 0;
    for i in 0..shared {
        if a[i] != b[i] {
            count += 1;
        }
    }
    (a.len() - shared) as u64 + (b.len() - shared) as u64 + count
}
