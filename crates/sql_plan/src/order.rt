//! The order in which the tables of a free FROM are joined.
ghost use Rattle.std.specs.Prelude.{◌≡◌, ◌+◌, ◌-◌, ◌<◌, ◌≤◌, ◌++◌, [], map, take, drop, length, IfOk, IfSome, OnOk};
ghost use Rattle.std.specs.List.{list_any, range_with_len};
ghost use Rattle.plan_tree.specs.Order.{has_column as has, links as links_to, is_linked as linked, linked_first as comes_first, comes_before as before, pick, picks, columns_in};
ghost use Rattle.sql_plan.specs.Chosen.{choice_of, choice_in, chosen_of, places_of_chosen, columns_chosen, columns_limit};

use ooc_types::OutOfMemory;
use plan_tree::{Entry, Linked};
use sqlite_items::Items;
use std::alloc::Global;

/// A table of FROM in the plan's order, and how many of the columns that stand behind it in that order stand before it
/// in FROM.
#[derive(Clone, Copy)]
pub(crate) struct Chosen {
    pub entry: Entry,
    pub before: u32,
}

// A table, and its place among those that are left.
#[derive(Clone, Copy)]
struct Choice {
    place: usize,
    entry: Entry,
}

fn has_column(column: u32, entry: Entry) -> bool
    ensures { result ≡ has column entry }
{
    let column = u64::from(column);
    let start = u64::from(entry.start);
    start <= column && column < start + u64::from(entry.width)
}

fn is_placed(column: u32, placed: &[Entry]) -> bool
    ensures { result ≡ list_any (has column) placed.now }
{
    placed.iter().any(|entry| has_column(column, *entry))
}

fn links(placed: &[Entry], entry: Entry, two: Linked) -> bool
    ensures { result ≡ links_to placed.now entry two }
{
    (has_column(two.left, entry) && is_placed(two.right, placed))
        || (has_column(two.right, entry) && is_placed(two.left, placed))
}

fn is_linked(pool: &[Linked], placed: &[Entry], entry: Entry) -> bool
    ensures { result ≡ linked pool.now placed.now entry }
{
    pool.iter().any(|two| links(placed, entry, *two))
}

fn linked_first(a_linked: bool, b_linked: bool, a: u64, b: u64) -> bool
    ensures { result ≡ comes_first a_linked b_linked a b }
{
    match (a_linked, b_linked) {
        (true, false) => true,
        (false, true) => false,
        _ => a < b,
    }
}

fn comes_before(pool: &[Linked], placed: &[Entry], a: Entry, b: Entry) -> bool
    ensures { result ≡ before pool.now placed.now a b }
{
    match placed {
        [] => b.rows < a.rows,
        _ => linked_first(
            is_linked(pool, placed, a),
            is_linked(pool, placed, b),
            a.rows,
            b.rows,
        ),
    }
}

// The first table before which no other comes.
fn best_choice(pool: &[Linked], placed: &[Entry], first: Entry, rest: &[Entry]) -> Choice
    ensures value { result ≡ choice_of (pick (before pool.now placed.now) first rest.now) }
    ensures within { result.place ≤ length rest.now }
{
    match rest {
        [] => Choice {
            place: 0,
            entry: first,
        },
        [next, rest @ ..] => {
            let one = best_choice(pool, placed, *next, rest);
            if comes_before(pool, placed, one.entry, first) {
                Choice {
                    place: one.place + 1,
                    entry: one.entry,
                }
            } else {
                Choice {
                    place: 0,
                    entry: first,
                }
            }
        }
    }
}

fn choice_among(pool: &[Linked], placed: &[Entry], left: &[Entry]) -> Option<Choice>
    ensures value { result ≡ choice_in pool.now placed.now left.now }
    ensures within { IfSome result (λ one. one.place < length left.now) }
{
    match left {
        [] => None,
        [first, rest @ ..] => Some(best_choice(pool, placed, *first, rest)),
    }
}

fn columns(entries: &[Entry]) -> u32
    requires { columns_in entries.now < columns_limit }
    ensures { result ≡ columns_in entries.now }
{
    let mut columns = 0;
    for entry in entries {
        columns += entry.width;
    }
    columns
}

fn columns_before(entries: &[Entry], place: usize) -> u32
    requires place_in { place < length entries.now }
    requires columns { columns_in entries.now < columns_limit }
    ensures { result ≡ columns_in (take place entries.now) }
{
    columns(&entries[..place])
}

/// The tables in the plan's order.
pub(crate) fn choose(
    alloc: Global,
    pool: &[Linked],
    entries: Items<Entry>,
) -> Result<Items<Chosen>, OutOfMemory>
    requires { columns_in entries < columns_limit }
    ensures { IfOk result (λ chosen. chosen ≡ map chosen_of (picks (length entries) pool.now [] entries)) }
{
    let mut left = entries;
    let mut placed = Items::new(alloc);
    let mut chosen = Items::new(alloc);
    while let Some(one) = choice_among(pool, placed.as_slice(), left.as_slice()) {
        let before = columns_before(left.as_slice(), one.place);
        left.remove(one.place);
        placed.push(one.entry)?;
        chosen.push(Chosen {
            entry: one.entry,
            before,
        })?;
    }
    Ok(chosen)
}

// Each of these places behind the list.
fn add_range(places: &mut Items<u32>, at: u32, end: u32) -> Result<(), OutOfMemory>
    requires { at ≤ end }
    ensures { OnOk result (places.new ≡ places.old ++ range_with_len at (end - at)) }
{
    for place in at..end {
        places.push(place)?;
    }
    Ok(())
}

#[tactic(auto, using(crate::proofs::Lists::take_least))]
fn front(alloc: Global, places: &[u32], count: u32) -> Result<Items<u32>, OutOfMemory>
    ensures { IfOk result (λ front. front ≡ take count places.now) }
{
    let cut = places.len().min(count as usize);
    Ok(Items::from_slice(alloc, &places[..cut])?)
}

#[tactic(auto, using(crate::proofs::Lists::drop_least))]
fn back(alloc: Global, places: &[u32], count: u32) -> Result<Items<u32>, OutOfMemory>
    ensures { IfOk result (λ back. back ≡ drop count places.now) }
{
    let cut = places.len().min(count as usize);
    Ok(Items::from_slice(alloc, &places[cut..])?)
}

// The places from `at` to `end`, put behind as many of the later ones.
fn with_range(
    alloc: Global,
    later: &[u32],
    before: u32,
    at: u32,
    end: u32,
) -> Result<Items<u32>, OutOfMemory>
    requires { at ≤ end }
    ensures { IfOk result (λ all. all ≡ take before later.now ++ (range_with_len at (end - at) ++ drop before later.now)) }
{
    let mut all = front(alloc, later, before)?;
    add_range(&mut all, at, end)?;
    all.append(back(alloc, later, before)?)?;
    Ok(all)
}

/// Where the written columns stand in the plan's row, whose first column here is this one.
pub(crate) fn places(alloc: Global, at: u32, chosen: &[Chosen]) -> Result<Items<u32>, OutOfMemory>
    requires { at + columns_chosen chosen.now < columns_limit }
    ensures { IfOk result (λ places. places ≡ places_of_chosen at chosen.now) }
{
    match chosen {
        [] => Ok(Items::new(alloc)),
        [one, more @ ..] => {
            let end = at + one.entry.width;
            let later = places(alloc, end, more)?;
            with_range(alloc, later.as_slice(), one.before, at, end)
        }
    }
}
