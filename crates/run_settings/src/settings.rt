//! What the words of a command line set.
ghost use Rattle.std.specs.Prelude.{◌≡◌, ◌≤◌, IfOk, Ok};
ghost use Rattle.run_settings.specs.Limits.{least_frames, most_frames};
ghost use Rattle.run_settings.specs.Numbers.{HasRanges};
ghost use Rattle.run_settings.specs.Settings.{check_settings, settings, settings_from, settings_with, IsSettings};
ghost use Rattle.run_settings.specs.Texts.{words_of};

use crate::grants::{Grants, divide_frames};
use crate::limits::{LEAST_FRAMES, MOST_FRAMES};
use crate::sizes::{Sizes, sizes_of};
use crate::status::{Status, UsageFault};
use crate::words::read_texts;
use ooc_types::OutOfMemory;
use std::alloc::Global;
use std::marker::Model;

/// The name of the script, which contracts see as its bytes.
#[derive(Debug, Drop)]
pub struct ScriptName {
    text: String,
}

impl Model for ScriptName {
    ghost use Rattle.std.specs.Prelude.{List, ℕ, string_bytes};

    ghost Value = { List ℕ };

    ghost view = { λ n. string_bytes n.text };
}

impl ScriptName {
    pub fn from_str(alloc: Global, name: &str) -> Result<ScriptName, OutOfMemory>
        ensures { IfOk result (λ n. n ≡ name.now) }
    {
        Ok(ScriptName {
            text: String::from_str(alloc, name)?,
        })
    }

    pub fn as_str(&self) -> &str
        ensures { result.now ≡ self.now }
    {
        self.text.as_str()
    }
}

/// What the words set: the script's name, the threads that are asked for, the bytes of a page, the
/// frames of the pool, the workers, and how many frames each of them gets.
#[derive(Debug, Drop)]
pub struct Settings {
    pub script: ScriptName,
    pub threads: u32,
    pub page: u32,
    pub frames: u32,
    pub workers: u32,
    pub grants: Grants,
}

// The workers that the frames are enough for, and their grants.
fn settings_with(
    alloc: Global,
    frames: u32,
    script: &str,
    sizes: Sizes,
) -> Result<Settings, OutOfMemory>
    requires page { HasRanges sizes }
    requires least { least_frames ≤ frames }
    requires most { frames ≤ most_frames }
    ensures { IfOk result (λ s. settings_with frames script.now sizes ≡ Ok s) }
{
    let workers = sizes.threads.min(frames / 24);
    let script = ScriptName::from_str(alloc, script)?;
    let grants = divide_frames(alloc, workers as usize, frames)?;
    Ok(Settings {
        script,
        threads: sizes.threads,
        page: sizes.page,
        frames,
        workers,
        grants,
    })
}

// As many frames as the limit has room for.
#[tactic(auto, unfolding(crate::specs::Settings::settings_from))]
fn settings_from(alloc: Global, script: &str, sizes: Sizes) -> Result<Settings, Status>
    requires { HasRanges sizes }
    ensures { IsSettings (settings_from script.now sizes) result }
{
    let frames = sizes.limit / u64::from(sizes.page);
    if frames < LEAST_FRAMES {
        Err(Status::Usage(UsageFault::TooFewFrames { frames }))
    } else if frames > MOST_FRAMES {
        Err(Status::Usage(UsageFault::TooManyFrames { frames }))
    } else {
        Ok(settings_with(alloc, frames as u32, script, sizes)?)
    }
}

/// Reads the words of a command line: `[--threads N] [--limit BYTES] [--page BYTES] SCRIPT`.
#[tactic(auto, unfolding(crate::specs::Settings::settings))]
pub fn read_settings(alloc: Global, words: &[String]) -> Result<Settings, Status>
    ensures { IsSettings (settings (words_of words.now)) result }
{
    let texts = read_texts(alloc, words)?;
    match sizes_of(&texts) {
        Some(sizes) => settings_from(alloc, texts.script, sizes),
        None => Err(Status::Usage(UsageFault::Words)),
    }
}

/// The same behind the word `--check`.
#[tactic(auto, unfolding(crate::specs::Settings::check_settings))]
pub fn read_check_settings(alloc: Global, words: &[String]) -> Result<Settings, Status>
    ensures { IsSettings (check_settings (words_of words.now)) result }
{
    match words {
        [first, rest @ ..] if first.as_bytes() == b"--check".as_slice() => {
            read_settings(alloc, rest)
        }
        _ => Err(Status::Usage(UsageFault::Words)),
    }
}
