// A run of the words of a command over a folder in memory.

use crate::gates::{Meeting, Meetings};
use std::alloc::{AllocError, Global};
use std::sync::Wait;
use std::thread::Threads;
use vt_command_words::MachineChoice;
use vt_outside::{Fail, Fails, MemoryFile, MemoryFolder, MemorySink, NoMemory};
use vt_top_call::{
    BlendMachine, StealMachine, SwapMachine, WordMachine, choice_of, read_command, refuse_unread,
    run_one,
};

/// What commands run over: a folder in memory, the output and the error output, and the gate of their workers.
#[derive(Drop)]
pub struct Scene {
    pub folder: MemoryFolder,
    pub out: MemorySink,
    pub err: MemorySink,
    pub gate: Meetings,
}

impl Scene {
    // An empty folder and empty outputs with these calls that fail, and a gate at which nobody waits.
    fn with_fails(alloc: Global, on_folder: Fails, on_out: Fails, on_err: Fails) -> Scene {
        Scene {
            folder: MemoryFolder::new(alloc, on_folder),
            out: MemorySink::new(alloc, on_out),
            err: MemorySink::new(alloc, on_err),
            gate: Meetings::new(Meeting::Nobody),
        }
    }

    /// An empty folder and empty outputs, on which no call fails, and a gate at which nobody waits.
    pub fn new(alloc: Global) -> Scene {
        Scene::with_fails(
            alloc,
            Fails::new(alloc),
            Fails::new(alloc),
            Fails::new(alloc),
        )
    }

    /// The same with one call that fails, if there is one, on the folder or the output, and one on the error output.
    pub fn failing(
        alloc: Global,
        fail: Option<Fail>,
        err_fail: Option<Fail>,
    ) -> Result<Scene, NoMemory> {
        let on_folder = one_fail(alloc, fail)?;
        let on_out = one_fail(alloc, fail)?;
        let on_err = one_fail(alloc, err_fail)?;
        Ok(Scene::with_fails(alloc, on_folder, on_out, on_err))
    }

    /// The same with several calls that fail on the folder or the output.
    pub fn failing_each(alloc: Global, fails: &[Fail]) -> Result<Scene, NoMemory> {
        let on_folder = Fails::from_slice(alloc, fails)?;
        let on_out = Fails::from_slice(alloc, fails)?;
        Ok(Scene::with_fails(alloc, on_folder, on_out, Fails::new(alloc)))
    }

    /// The output and the error output hold these bytes.
    pub fn printed(&self, out: &[u8], err: &[u8]) -> bool {
        self.out.bytes() == out && self.err.bytes() == err
    }
}

// No failing call, or one.
fn one_fail(alloc: Global, fail: Option<Fail>) -> Result<Fails, NoMemory> {
    let mut fails = Fails::new(alloc);
    if let Some(fail) = fail {
        fails.reserve(1)?;
        fails.push(fail);
    }
    Ok(fails)
}

// The words of a text, with blanks between them.
fn words_of(alloc: Global, text: &str) -> Result<Vec<String>, AllocError> {
    let mut words = Vec::new(alloc);
    for word in text.split_whitespace() {
        words.push(String::from_str(alloc, word)?)?;
    }
    Ok(words)
}

/// Runs the words, which have blanks between them, and answers the status. Want of memory for the words has the status of the program's.
pub fn play(
    rt: &(impl Threads + Wait + Sync),
    alloc: Global,
    words: &str,
    scene: &mut Scene,
) -> u8 {
    match words_of(alloc, words) {
        Ok(words) => play_words(rt, alloc, &words, scene),
        Err(_) => 1,
    }
}

// Runs the words.
fn play_words(
    rt: &(impl Threads + Wait + Sync),
    alloc: Global,
    words: &[String],
    scene: &mut Scene,
) -> u8 {
    match read_command(alloc, words) {
        Ok(command) => match choice_of(&command) {
            MachineChoice::Standard => run_one::<WordMachine<MemoryFile>, _, _, _, _, _>(
                rt,
                alloc,
                words,
                &mut scene.folder,
                &mut scene.out,
                &mut scene.err,
                &scene.gate,
            ),
            MachineChoice::SwappedTable => run_one::<SwapMachine<MemoryFile>, _, _, _, _, _>(
                rt,
                alloc,
                words,
                &mut scene.folder,
                &mut scene.out,
                &mut scene.err,
                &scene.gate,
            ),
            MachineChoice::SharedRows => run_one::<StealMachine<MemoryFile>, _, _, _, _, _>(
                rt,
                alloc,
                words,
                &mut scene.folder,
                &mut scene.out,
                &mut scene.err,
                &scene.gate,
            ),
            MachineChoice::Bilinear => run_one::<BlendMachine<MemoryFile>, _, _, _, _, _>(
                rt,
                alloc,
                words,
                &mut scene.folder,
                &mut scene.out,
                &mut scene.err,
                &scene.gate,
            ),
        },
        Err(error) => refuse_unread(error, &mut scene.err),
    }
}
