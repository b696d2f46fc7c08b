//! Whether the claims of a test hold of what a run has left.
ghost use Rattle.std.specs.Prelude.{◌≡◌, Bool, None, not, count_by, length, slice_index_or, IfOk};
ghost use Rattle.std.specs.List.{list_all};
ghost use Rattle.find_play.specs.Wanted.{fits};
ghost use Rattle.find_play.specs.Claims.{places_in, same_reply, is_such, is_other, are_alike, is_null_place, has_number, are_one, holds, first_broken, Left};

use crate::rows::{along, follow, number_in, same_name};
use crate::{Claim, Place, Wanted};
use heap_words::NoMemory;
use shen_graph::{GraphText, History, Name, Reply};
use std::alloc::Global;

/// The references at the places of a test: at the hub, and at each further place.
pub fn places_of(
    alloc: Global,
    places: &[Place],
    graph: &GraphText,
) -> Result<Vec<Option<Option<Name>>>, NoMemory>
    ensures { IfOk result (λ found. found.items ≡ places_in graph.now.rows places.now) }
{
    let mut found = Vec::new(alloc);
    let Ok(()) = found.push(Some(Some(Name::HUB))) else {
        return Err(NoMemory);
    };
    for place in places {
        let reference = follow(graph, at(&found, place.from), place.field);
        let Ok(()) = found.push(reference) else {
            return Err(NoMemory);
        };
    }
    Ok(found)
}

// The reference at a place, if it is there.
fn at(places: &[Option<Option<Name>>], place: usize) -> Option<Option<Name>>
    ensures { result ≡ slice_index_or places.now place None }
{
    if place < places.len() {
        places[place]
    } else {
        None
    }
}

// The reply of a note.
fn noted(notes: &[Option<Reply>], note: usize) -> Option<Reply>
    ensures { result ≡ slice_index_or notes.now note None }
{
    if note < notes.len() {
        notes[note]
    } else {
        None
    }
}

// Whether two replies are equal.
fn same_reply(a: Reply, b: Reply) -> bool
    ensures { result ≡ same_reply a b }
{
    match (a, b) {
        (Reply::Ref(one), Reply::Ref(other)) => same_name(one, other),
        (Reply::Number(one), Reply::Number(other)) => one == other,
        (Reply::At(one), Reply::At(other)) => one == other,
        (Reply::Null, Reply::Null)
        | (Reply::Ok, Reply::Ok)
        | (Reply::Yes, Reply::Yes)
        | (Reply::No, Reply::No)
        | (Reply::Bad, Reply::Bad)
        | (Reply::Full, Reply::Full) => true,
        _ => false,
    }
}

// Whether no reply is such.
fn is_never(history: &History, wanted: Wanted) -> bool
    ensures { result ≡ list_all (λ entry. not (fits wanted entry.reply)) history.now.list }
{
    for at in 0..history.len() {
        if wanted.fits(history.entry(at).reply) {
            return false;
        }
    }
    true
}

// Whether there is a reply, and it is such.
fn has(wanted: Wanted, reply: Option<Reply>) -> bool
    ensures { result ≡ is_such wanted reply }
{
    match reply {
        Some(reply) => wanted.fits(reply),
        None => false,
    }
}

// Whether there is a reply, and it is not such.
fn has_other(wanted: Wanted, reply: Option<Reply>) -> bool
    ensures { result ≡ is_other wanted reply }
{
    match reply {
        Some(reply) => !wanted.fits(reply),
        None => false,
    }
}

// How many notes have such a reply.
fn count_of(notes: &[Option<Reply>], wanted: Wanted) -> u64
    ensures { result ≡ count_by (is_such wanted) notes.now }
{
    let mut count = 0u64;
    for note in notes {
        if has(wanted, *note) {
            count += 1;
        }
    }
    count
}

// Whether there are two replies, which are alike, or are not.
fn are_alike(alike: bool, one: Option<Reply>, other: Option<Reply>) -> bool
    ensures { result ≡ are_alike alike one other }
{
    match (one, other) {
        (Some(one), Some(other)) => same_reply(one, other) == alike,
        _ => false,
    }
}

// Whether a reference is there, and null.
fn is_null(reference: Option<Option<Name>>) -> bool
    ensures { result ≡ is_null_place reference }
{
    matches!(reference, Some(None))
}

// Whether an object is there, and has this number.
fn has_number(graph: &GraphText, reference: Option<Option<Name>>, index: u32, value: u64) -> bool
    ensures { result ≡ has_number graph.now.rows index value reference }
{
    match reference {
        Some(Some(name)) => match number_in(graph, name, index) {
            Some(number) => number == value,
            None => false,
        },
        _ => false,
    }
}

// Whether two references are there, and equal.
fn are_one(one: Option<Option<Name>>, other: Option<Option<Name>>) -> bool
    ensures { result ≡ are_one one other }
{
    match (one, other) {
        (Some(Some(one)), Some(Some(other))) => same_name(one, other),
        (Some(None), Some(None)) => true,
        _ => false,
    }
}

// What a run has left.
#[derive(Clone, Copy)]
struct Traces<'a> {
    notes: &'a [Option<Reply>],
    history: &'a History,
    graph: &'a GraphText,
    places: &'a [Option<Option<Name>>],
}

// Whether a fact holds.
fn is_fact(left: Traces, claim: Claim) -> bool
    ensures { result ≡ holds (record { notes = left.entry.notes.now; history = left.entry.history.now.list; rows = left.entry.graph.now.rows; places = left.entry.places.now }) claim }
{
    match claim {
        Claim::Assert | Claim::Or => true,
        Claim::Is { wanted, note } => has(wanted, noted(left.notes, note)),
        Claim::Isnt { wanted, note } => has_other(wanted, noted(left.notes, note)),
        Claim::Never { wanted } => is_never(left.history, wanted),
        Claim::Count { wanted, count } => count_of(left.notes, wanted) == count,
        Claim::Alike { a, b } => are_alike(true, noted(left.notes, a), noted(left.notes, b)),
        Claim::Differ { a, b } => are_alike(false, noted(left.notes, a), noted(left.notes, b)),
        Claim::Number {
            place,
            index,
            value,
        } => has_number(left.graph, at(left.places, place), index, value),
        Claim::Null { place } => is_null(at(left.places, place)),
        Claim::Chain {
            place,
            field,
            length,
        } => is_null(along(left.graph, at(left.places, place), field, length)),
        Claim::Same { a, b } => are_one(at(left.places, a), at(left.places, b)),
    }
}

// The number of the first assertion that does not hold, counted from 1.
fn first_broken(left: Traces, claims: &[Claim]) -> Option<u64>
    ensures { result ≡ first_broken (record { notes = left.entry.notes.now; history = left.entry.history.now.list; rows = left.entry.graph.now.rows; places = left.entry.places.now }) claims.now }
{
    let mut assertion = 0u64;
    // Whether an alternative of the assertion has held, and whether the one at work holds so far.
    let mut held = true;
    let mut holds = true;
    for claim in claims {
        match claim {
            Claim::Assert => {
                if !(held || holds) {
                    return Some(assertion);
                }
                assertion += 1;
                held = false;
                holds = true;
            }
            Claim::Or => {
                held = held || holds;
                holds = true;
            }
            _ => holds = holds && is_fact(left, *claim),
        }
    }
    if held || holds { None } else { Some(assertion) }
}

/// The number of the first assertion that does not hold of a run, counted from 1: of its notes, its history, and the last graph.
pub fn broken(
    alloc: Global,
    places: &[Place],
    claims: &[Claim],
    notes: &[Option<Reply>],
    history: &History,
    graph: &GraphText,
) -> Result<Option<u64>, NoMemory>
    ensures { IfOk result (λ found. found ≡ first_broken (record { notes = notes.now; history = history.now.list; rows = graph.now.rows; places = places_in graph.now.rows places.now }) claims.now) }
{
    let found = places_of(alloc, places, graph)?;
    let left = Traces {
        notes,
        history,
        graph,
        places: &found,
    };
    Ok(first_broken(left, claims))
}
