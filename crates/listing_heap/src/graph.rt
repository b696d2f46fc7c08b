//! The object graph with which a listing ends, where all machines are idle.
ghost use Rattle.std.specs.Prelude.{◌≡◌, ◌<◌, ◌≤◌, ℕ, length};
ghost use Rattle.shen_graph.specs.GraphText.{row_of};

use listing::{Row, json_key, json_text, put_name};
use shen_base::{Block, Sink};
use shen_graph::{Command, GraphText, Name};

// The number of roots of a thread.
const ROOTS: usize = Command::ROOTS as usize;

// The number of pin slots of a thread.
const SLOTS: u32 = Command::SLOTS;

// Puts a reference as an answer spells it.
fn put_name_or_none(row: &mut Row, reference: Option<Name>) {
    match reference {
        Some(name) => put_name(row, name),
        None => row.put(b"-"),
    }
}

// Puts the line of an object.
fn put_object(row: &mut Row, graph: &GraphText, at: usize)
    requires { at < length graph.now.rows }
{
    row.put(b"object ");
    put_name(row, graph.name_at(at));
    for index in 0..graph.refs_at(at) {
        row.put(b" ");
        put_name_or_none(row, graph.reference_at(at, index));
    }
    row.put(b" /");
    for index in 0..graph.nums_at(at) {
        row.put(b" ");
        row.put_number(graph.number_at(at, index));
    }
}

// Puts the line of the roots of a thread, counted from 1.
fn put_roots(row: &mut Row, graph: &GraphText, thread: u32)
    requires { (1 ≤ thread) × (thread ≤ length graph.now.roots) }
{
    row.put(b"roots ");
    row.put_number(thread as u64);
    for index in 0..ROOTS {
        row.put(b" ");
        put_name_or_none(row, graph.root_at(thread, index));
    }
}

// Puts the line of the pin slots of a thread, counted from 1.
fn put_pins(row: &mut Row, graph: &GraphText, thread: u32)
    requires { (1 ≤ thread) × (thread ≤ length graph.now.roots) }
{
    row.put(b"pins ");
    row.put_number(thread as u64);
    for slot in 0..SLOTS {
        row.put(b" ");
        put_name_or_none(row, graph.pin_at(thread, slot));
    }
}

/// Writes the graph as the answer to a trace of a version has it.
pub fn put_graph<K: Sink>(
    row: &mut Row,
    block: &mut Block,
    sink: &mut K,
    version: u32,
    graph: &GraphText,
)
    requires { length graph.now.roots ≤ 8 }
{
    row.put(b"graph");
    row.send(block, sink);
    for at in 0..graph.rows() {
        put_object(row, graph, at);
        row.send(block, sink);
    }
    for mutator in 0..graph.mutators() {
        put_roots(row, graph, mutator as u32 + 1);
        row.send(block, sink);
    }
    if version >= 2 {
        for mutator in 0..graph.mutators() {
            put_pins(row, graph, mutator as u32 + 1);
            row.send(block, sink);
        }
    }
}

// Puts a reference as an element of a list.
fn json_name_or_null(row: &mut Row, reference: Option<Name>) {
    if row.last() != b'[' {
        row.put(b",");
    }
    match reference {
        Some(name) => {
            row.put(b"\"");
            put_name(row, name);
            row.put(b"\"");
        }
        None => row.put(b"null"),
    }
}

// Puts the object of an object: its name, its references and its numbers.
fn json_object(row: &mut Row, graph: &GraphText, at: usize)
    requires { at < length graph.now.rows }
{
    row.put(b"{");
    json_key(row, b"object");
    row.put(b"\"");
    put_name(row, graph.name_at(at));
    row.put(b"\"");
    json_key(row, b"fields");
    row.put(b"[");
    for index in 0..graph.refs_at(at) {
        json_name_or_null(row, graph.reference_at(at, index));
    }
    row.put(b"]");
    json_key(row, b"numbers");
    row.put(b"[");
    for index in 0..graph.nums_at(at) {
        if index > 0 {
            row.put(b",");
        }
        row.put_number(graph.number_at(at, index));
    }
    row.put(b"]}");
}

// Puts the list of the roots of a thread, counted from 1.
fn json_roots(row: &mut Row, graph: &GraphText, thread: u32)
    requires { (1 ≤ thread) × (thread ≤ length graph.now.roots) }
{
    row.put(b"[");
    for index in 0..ROOTS {
        json_name_or_null(row, graph.root_at(thread, index));
    }
    row.put(b"]");
}

// Puts the list of the pin slots of a thread, counted from 1.
fn json_pins(row: &mut Row, graph: &GraphText, thread: u32)
    requires { (1 ≤ thread) × (thread ≤ length graph.now.roots) }
{
    row.put(b"[");
    for slot in 0..SLOTS {
        json_name_or_null(row, graph.pin_at(thread, slot));
    }
    row.put(b"]");
}

// Puts the member that is the list of all threads' pin slots.
fn json_all_pins<K: Sink>(row: &mut Row, block: &mut Block, sink: &mut K, graph: &GraphText)
    requires { length graph.now.roots ≤ 8 }
{
    json_key(row, b"pins");
    row.put(b"[");
    for mutator in 0..graph.mutators() {
        if mutator > 0 {
            row.put(b",");
        }
        json_pins(row, graph, mutator as u32 + 1);
        row.pass(block, sink);
    }
    row.put(b"]");
}

/// Writes the graph that the answer to a trace of a version has as an object of JSON.
pub fn json_graph<K: Sink>(
    row: &mut Row,
    block: &mut Block,
    sink: &mut K,
    version: u32,
    graph: &GraphText,
)
    requires { length graph.now.roots ≤ 8 }
{
    row.put(b"{");
    json_text(row, b"kind", b"graph");
    json_key(row, b"objects");
    row.put(b"[");
    for at in 0..graph.rows() {
        if at > 0 {
            row.put(b",");
        }
        json_object(row, graph, at);
        row.pass(block, sink);
    }
    row.put(b"]");
    json_key(row, b"roots");
    row.put(b"[");
    for mutator in 0..graph.mutators() {
        if mutator > 0 {
            row.put(b",");
        }
        json_roots(row, graph, mutator as u32 + 1);
        row.pass(block, sink);
    }
    row.put(b"]");
    if version >= 2 {
        json_all_pins(row, block, sink, graph);
    }
    row.put(b"}");
    row.send(block, sink);
}
