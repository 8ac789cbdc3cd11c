//! The words of a command line, as texts: `[--threads N] [--limit BYTES] [--page BYTES] SCRIPT`.
ghost use Rattle.std.specs.Prelude.{◌≡◌, ◌≤◌, ◌++◌, IfSome, List, [], ◌∷◌, None, length, map, OnOk};
ghost use Rattle.run_settings.specs.First.{first_said, next_value, then_found, with_found};
ghost use Rattle.run_settings.specs.Settings.{Reads};
ghost use Rattle.run_settings.specs.Texts.{first_now, found_now, option_asked, parts_now, result_asked, result_said, saying_of, sayings_of, text_now, words_of};
ghost use Rattle.run_settings.specs.Words.{Saying, asked, asked_by, at_most_one, behind_dash, is_dashed, is_mark, is_option_name, name_and_value, option_in, said, script, values_of};

use crate::status::{Status, UsageFault};
use ooc_types::OutOfMemory;
use std::alloc::Global;

/// The script's name, and the text of each number that is given.
#[derive(Clone, Copy, Debug)]
pub struct Texts<'a> {
    pub script: &'a str,
    pub threads: Option<&'a str>,
    pub limit: Option<&'a str>,
    pub page: Option<&'a str>,
}

/// One thing that the words say: a value of an option, by the option's name, or the script, under
/// no name.
#[derive(Clone, Copy, Debug)]
pub struct Entry<'a> {
    pub option: &'a str,
    pub text: &'a str,
}

// The mark behind which every word is a script.
fn is_mark(word: &str) -> bool
    ensures { result ≡ is_mark word.now }
{
    word.as_bytes() == b"--".as_slice()
}

// Whether the word begins with a dash and is longer than that.
fn is_dashed(word: &[u8]) -> bool
    ensures { result ≡ is_dashed word.now }
{
    word.len() >= 2 && word.starts_with(b"-")
}

fn is_option_name(name: &[u8]) -> bool
    ensures { result ≡ is_option_name name.now }
{
    name == b"threads".as_slice() || name == b"limit".as_slice() || name == b"page".as_slice()
}

fn behind_dash(word: &str) -> Option<&str>
    ensures { text_now result ≡ behind_dash word.now }
{
    word.strip_prefix('-')
}

// A name, and the value behind the first `=`, where there is one.
fn name_and_value(text: &str) -> (&str, Option<&str>)
    ensures { (result.0.now, text_now result.1) ≡ name_and_value text.now }
{
    match text.split_once('=') {
        Some((name, value)) => (name, Some(value)),
        None => (text, None),
    }
}

// `--name` or `--name=value`, where the name is an option's.
fn option_in(word: &str) -> Option<(&str, Option<&str>)>
    ensures { parts_now result ≡ option_in word.now }
{
    let one = behind_dash(word)?;
    let two = behind_dash(one)?;
    let parts = name_and_value(two);
    if is_option_name(parts.0.as_bytes()) {
        Some(parts)
    } else {
        None
    }
}

// The value in the next word, and the words behind it.
fn next_value<'a>(name: &'a str, words: &'a [String]) -> Option<(Entry<'a>, &'a [String])>
    ensures first { first_now result ≡ next_value name.entry.now (words_of words.entry.now) }
    ensures shorter { IfSome result (λ p. length p.1.now ≤ length words.entry.now) }
{
    match words {
        [text, rest @ ..] if !is_dashed(text.as_bytes()) => {
            let text = text.as_str();
            Some((Entry { option: name, text }, rest))
        }
        _ => None,
    }
}

// The first thing that a word says that is no mark, and the words behind it.
fn first_said<'a>(word: &'a str, words: &'a [String]) -> Option<(Entry<'a>, &'a [String])>
    ensures first { first_now result ≡ first_said word.entry.now (words_of words.entry.now) }
    ensures shorter { IfSome result (λ p. length p.1.now ≤ length words.entry.now) }
{
    if is_dashed(word.as_bytes()) {
        let parts = option_in(word)?;
        match parts.1 {
            Some(text) => Some((
                Entry {
                    option: parts.0,
                    text,
                },
                words,
            )),
            None => next_value(parts.0, words),
        }
    } else {
        Some((
            Entry {
                option: "",
                text: word,
            },
            words,
        ))
    }
}

fn push_said<'a>(all: &mut Vec<Entry<'a>>, one: Entry<'a>) -> Result<(), OutOfMemory>
    ensures { OnOk result (sayings_of all.new.items ≡ sayings_of all.old.items ++ saying_of one.entry ∷ []) }
{
    all.push(one)?;
    Ok(())
}

// Every word is a script.
fn push_scripts<'a>(all: &mut Vec<Entry<'a>>, words: &'a [String]) -> Result<(), OutOfMemory>
    ensures { OnOk result (sayings_of all.new.items ≡ sayings_of all.old.items ++ map script (words_of words.entry.now)) }
{
    let mut left = words;
    while let [word, rest @ ..] = left {
        let text = word.as_str();
        push_said(all, Entry { option: "", text })?;
        left = rest;
    }
    Ok(())
}

// What the words say, one after another.
fn said<'a>(alloc: Global, words: &'a [String]) -> Result<Vec<Entry<'a>>, Status>
    ensures { Reads (said None (words_of words.entry.now)) (result_said result) }
{
    let mut all = Vec::new(alloc);
    let mut left = words;
    while let [word, rest @ ..] = left {
        if is_mark(word.as_str()) {
            push_scripts(&mut all, rest)?;
            return Ok(all);
        }
        match first_said(word.as_str(), rest) {
            Some((one, behind)) => {
                push_said(&mut all, one)?;
                left = behind;
            }
            None => return Err(Status::Usage(UsageFault::Words)),
        }
    }
    Ok(all)
}

// The value that was found, or that of one more thing that is said; nothing where both have one.
fn with_found<'a>(name: &str, found: Option<&'a str>, one: &Entry<'a>) -> Option<Option<&'a str>>
    ensures { (others : List Saying) → with_found (text_now found.entry) (values_of name.now (saying_of one.now ∷ others)) ≡ then_found (found_now result) (values_of name.now others) }
{
    if one.option.as_bytes() != name.as_bytes() {
        return Some(found);
    }
    match found {
        Some(_) => None,
        None => Some(Some(one.text)),
    }
}

// The only value of an option, if there is any; nothing where there are several.
fn only_value<'a>(name: &str, all: &[Entry<'a>]) -> Option<Option<&'a str>>
    ensures { found_now result ≡ at_most_one (values_of name.now (sayings_of all.now)) }
{
    let mut found = None;
    let mut left = all;
    while let [one, rest @ ..] = left {
        found = with_found(name, found, one)?;
        left = rest;
    }
    Some(found)
}

// Each option at most once, and exactly one script.
fn texts_of<'a>(all: &[Entry<'a>]) -> Option<Texts<'a>>
    ensures { option_asked result ≡ asked_by (sayings_of all.now) }
{
    let threads = only_value("threads", all)?;
    let limit = only_value("limit", all)?;
    let page = only_value("page", all)?;
    let scripts = only_value("", all)?;
    let script = scripts?;
    Some(Texts {
        script,
        threads,
        limit,
        page,
    })
}

/// Reads the words as texts.
#[tactic(auto, unfolding(crate::specs::Words::asked))]
pub fn read_texts<'a>(alloc: Global, words: &'a [String]) -> Result<Texts<'a>, Status>
    ensures { Reads (asked (words_of words.entry.now)) (result_asked result) }
{
    let all = said(alloc, words)?;
    match texts_of(all.as_slice()) {
        Some(texts) => Ok(texts),
        None => Err(Status::Usage(UsageFault::Words)),
    }
}
