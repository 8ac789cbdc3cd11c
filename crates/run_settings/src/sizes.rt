//! Threads, limit and page.
ghost use Rattle.std.specs.Prelude.{◌≡◌, IfSome, option_map, true};
ghost use Rattle.run_settings.specs.Limits.{is_page};
ghost use Rattle.run_settings.specs.Numbers.{HasRanges, page_length, sizes_of, thread_count};
ghost use Rattle.run_settings.specs.Texts.{asked_of};

use crate::limits::{DEFAULT_LIMIT, DEFAULT_PAGE, DEFAULT_THREADS};
use crate::numbers::{is_page, is_thread_count, number_or};
use crate::words::Texts;

/// The threads, from 1 to 64, the bytes of all frames, and those of a page.
#[derive(Clone, Copy, Debug, PartialEq, Eq)]
pub struct Sizes {
    pub threads: u32,
    pub limit: u64,
    pub page: u32,
}

fn thread_count(text: Option<&str>) -> Option<u32>
    ensures { result ≡ thread_count (option_map (λ t. t.now) text.entry) }
{
    let count = number_or(DEFAULT_THREADS, text)?;
    if is_thread_count(count) {
        Some(count as u32)
    } else {
        None
    }
}

fn page_length(text: Option<&str>) -> Option<u32>
    ensures length { result ≡ page_length (option_map (λ t. t.now) text.entry) }
    ensures range { IfSome result (λ bytes. is_page bytes ≡ true) }
{
    let bytes = number_or(DEFAULT_PAGE, text)?;
    if is_page(bytes) {
        Some(bytes as u32)
    } else {
        None
    }
}

/// The numbers that are asked for, or those that stand where none is, each in its range.
pub fn sizes_of(texts: &Texts) -> Option<Sizes>
    ensures sizes { result ≡ sizes_of (asked_of texts.now) }
    ensures ranges { IfSome result HasRanges }
{
    let threads = thread_count(texts.threads)?;
    let limit = number_or(DEFAULT_LIMIT, texts.limit)?;
    let page = page_length(texts.page)?;
    Some(Sizes {
        threads,
        limit,
        page,
    })
}
