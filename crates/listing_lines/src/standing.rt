//! How a listing ends: where each machine stands, the replies so far, and why a schedule does not go on.
ghost use Rattle.std.specs.Prelude.{◌≡◌, All};
ghost use Rattle.shen_graph.specs.declared.order.Order.TheVariants.{Nothing};
ghost use Rattle.shen_core.specs.State.{orders_of};
ghost use Rattle.shen_core.specs.Progress.{CanRun};

use heap_words::{Config, Item, Place, WordName};
use listing::{
    Event, Row, json_flag, json_key, json_number, json_text, put_command, put_item, put_machine,
    put_reply,
};
use shen_base::{Block, Sink, WriteFault};
use shen_core::Plain;
use shen_graph::{Command, Reply, Work};
use trace_reading::Trace;

// The version of the form of the objects.
const VERSION: u64 = 2;

// Where a list goes on in a new line.
const INDENT: usize = 6;

/// The machine of an item.
pub fn machine_of(item: Item) -> usize {
    match item {
        Item::Steps { number, .. } => number,
        Item::Until { number, .. } => number,
        Item::Replies { number, .. } => number,
    }
}

/// Puts members for a machine: its number in a schedule, its role, and its number in that role.
pub fn json_seat(row: &mut Row, config: Config, seat: usize) {
    json_number(row, b"machine", (seat as u64).saturating_add(1));
    if seat < config.mutators() {
        json_text(row, b"role", b"thread");
        json_number(row, b"index", seat as u64 + 1);
    } else if seat < config.mutators() + config.helpers() {
        json_text(row, b"role", b"helper");
        json_number(row, b"index", (seat - config.mutators()) as u64 + 1);
    } else {
        json_text(row, b"role", b"control");
    }
}

/// Puts the member that is a command as a trace spells it.
pub fn json_command(row: &mut Row, key: &[u8], command: Command) {
    json_key(row, key);
    row.put(b"\"");
    put_command(row, command);
    row.put(b"\"");
}

/// Puts the member that is a reply as an answer spells it.
pub fn json_reply(row: &mut Row, key: &[u8], reply: Reply) {
    json_key(row, key);
    row.put(b"\"");
    put_reply(row, reply);
    row.put(b"\"");
}

// Puts where a machine stands: at a place, between two calls, or at its end.
fn put_stand(row: &mut Row, plain: &Plain, seat: usize)
    requires { All (λ order. order ≡ Nothing) (orders_of plain.now) }
{
    if seat >= plain.seats() {
        return;
    }
    match plain.place(seat) {
        Some(place) => {
            row.put(b" at ");
            row.put(&place.code());
        }
        None if plain.has_next(seat) => row.put(b" is between two calls"),
        None => row.put(b" has ended"),
    }
}

// Goes on in a new line where the row goes beyond a column.
fn wrap<K: Sink>(row: &mut Row, block: &mut Block, sink: &mut K, wide: usize) {
    if row.width() > wide {
        row.send(block, sink);
        row.tab(INDENT);
    }
}

// Writes where each machine stands.
fn put_stands<K: Sink>(row: &mut Row, block: &mut Block, sink: &mut K, plain: &Plain, wide: usize)
    requires { All (λ order. order ≡ Nothing) (orders_of plain.now) }
{
    row.put(b"machines:");
    for seat in 0..plain.seats() {
        if seat > 0 {
            row.put(b",");
        }
        wrap(row, block, sink, wide);
        row.put(b" ");
        put_machine(row, plain.config(), seat);
        put_stand(row, plain, seat);
    }
    row.send(block, sink);
}

// Writes the replies of a mutator.
fn put_replies<K: Sink>(
    row: &mut Row,
    block: &mut Block,
    sink: &mut K,
    config: Config,
    mutator: usize,
    replies: &[Reply],
    wide: usize,
) {
    row.put(b"replies of ");
    put_machine(row, config, mutator);
    row.put(b":");
    for reply in replies {
        wrap(row, block, sink, wide);
        row.put(b" ");
        put_reply(row, *reply);
    }
    row.send(block, sink);
}

/// Writes where each machine stands, and the replies of each thread, in lines that end behind a column.
pub fn put_end<K: Sink>(
    row: &mut Row,
    block: &mut Block,
    sink: &mut K,
    plain: &Plain,
    work: &Work,
    wide: usize,
)
    requires { CanRun plain.now work.now }
{
    put_stands(row, block, sink, plain, wide);
    for mutator in 0..plain.config().mutators() {
        put_replies(
            row,
            block,
            sink,
            plain.config(),
            mutator,
            work.replies(mutator).list(),
            wide,
        );
    }
}

// Puts the object of where a machine stands.
fn json_stand(row: &mut Row, plain: &Plain, seat: usize)
    requires { All (λ order. order ≡ Nothing) (orders_of plain.now) }
{
    row.put(b"{");
    json_seat(row, plain.config(), seat);
    if seat < plain.seats() {
        match plain.place(seat) {
            Some(place) => json_text(row, b"at", &place.code()),
            None => json_flag(row, b"ended", !plain.has_next(seat)),
        }
    }
    row.put(b"}");
}

// Puts the list of the replies of a mutator.
fn json_replies<K: Sink>(row: &mut Row, block: &mut Block, sink: &mut K, replies: &[Reply]) {
    row.put(b"[");
    for reply in replies {
        json_next(row);
        row.put(b"\"");
        put_reply(row, *reply);
        row.put(b"\"");
        row.pass(block, sink);
    }
    row.put(b"]");
}

/// Writes the object of how all stands: the events, each machine, and the replies of each thread.
pub fn json_end<K: Sink>(
    row: &mut Row,
    block: &mut Block,
    sink: &mut K,
    plain: &Plain,
    work: &Work,
    events: u64,
)
    requires { CanRun plain.now work.now }
{
    row.put(b"{");
    json_text(row, b"kind", b"end");
    json_number(row, b"events", events);
    json_flag(row, b"finished", !plain.any_next());
    json_key(row, b"machines");
    row.put(b"[");
    for seat in 0..plain.seats() {
        if seat > 0 {
            row.put(b",");
        }
        json_stand(row, plain, seat);
    }
    row.put(b"]");
    json_key(row, b"replies");
    row.put(b"[");
    for mutator in 0..plain.config().mutators() {
        if mutator > 0 {
            row.put(b",");
        }
        json_replies(row, block, sink, work.replies(mutator).list());
    }
    row.put(b"]}");
    row.send(block, sink);
}

// Puts the comma before an element of a list but the first.
fn json_next(row: &mut Row) {
    if row.last() != b'[' {
        row.put(b",");
    }
}

// Writes a script as a list of commands.
fn json_script<K: Sink>(row: &mut Row, block: &mut Block, sink: &mut K, script: &[Command]) {
    json_next(row);
    row.put(b"[");
    for command in script {
        json_next(row);
        row.put(b"\"");
        put_command(row, *command);
        row.put(b"\"");
        row.pass(block, sink);
    }
    row.put(b"]");
}

/// Writes the object with which a listing begins: its version, the sizes of the heap, the scripts, and the schedule.
pub fn write_head<K: Sink>(trace: &Trace, sink: &mut K) -> Result<(), WriteFault> {
    let mut row = Row::new();
    let mut block = Block::new();
    json_head(&mut row, &mut block, sink, trace);
    block.finish(sink)
}

// Sends the object of a trace.
fn json_head<K: Sink>(row: &mut Row, block: &mut Block, sink: &mut K, trace: &Trace) {
    let config = trace.config;
    row.put(b"{");
    json_text(row, b"kind", b"head");
    json_number(row, b"version", VERSION);
    json_number(row, b"regions", config.regions() as u64);
    json_number(row, b"region_words", config.region_words() as u64);
    json_number(row, b"reserve", config.reserve() as u64);
    json_number(row, b"threads", config.mutators() as u64);
    json_number(row, b"helpers", config.helpers() as u64);
    json_key(row, b"scripts");
    row.put(b"[");
    for script in trace.scripts.list() {
        json_script(row, block, sink, script.list());
    }
    row.put(b"]");
    json_key(row, b"schedule");
    row.put(b"[");
    for item in trace.schedule.list() {
        json_next(row);
        row.put(b"\"");
        put_item(row, *item);
        row.put(b"\"");
        row.pass(block, sink);
    }
    row.put(b"]}");
    row.send(block, sink);
}

// The machine whose state a load is of, if it is of one.
fn awaited(config: Config, last: &Event) -> Option<usize> {
    let at = last.access.at();
    if last.place != Place::P2 || at >= config.table_words() {
        return None;
    }
    match config.name_of(at) {
        WordName::State { seat } => Some(seat),
        _ => None,
    }
}

// For whom a machine waits that has made this load in vain: a pause for a machine that is inside; all others for the control, but
// one without room for its copy for those that copy. The control may wait itself.
fn put_awaited(row: &mut Row, plain: &Plain, last: &Event, control: Option<Event>) {
    let config = plain.config();
    let own = plain.seats() - 1;
    match (last.place, &control) {
        (Place::P2, _) => put_who(row, plain, awaited(config, last).unwrap_or(own)),
        (Place::XW, _) => row.put(b"those that copy, which have no turn"),
        (_, Some(other)) if other.place == Place::P2 => {
            row.put(b"control, which waits at P2 for ");
            put_who(row, plain, awaited(config, other).unwrap_or(own));
        }
        _ => put_who(row, plain, own),
    }
}

// Puts a machine that has no turn, and where it stands.
fn put_who(row: &mut Row, plain: &Plain, seat: usize) {
    put_machine(row, plain.config(), seat);
    if seat < plain.seats() {
        if let Some(place) = plain.place(seat) {
            row.put(b", which stands at ");
            row.put(&place.code());
            row.put(b" and has no turn");
        }
    }
}

/// Puts that an item, counted from 1, cannot end, and for whom its machine waits, if it does not go round: by its last event, and
/// that of the control.
pub fn put_stuck(
    row: &mut Row,
    plain: &Plain,
    number: usize,
    item: Item,
    last: Option<Event>,
    control: Option<Event>,
) {
    row.put(b"-- item ");
    row.put_number(number as u64);
    row.put(b", ");
    put_item(row, item);
    row.put(b", never ends: ");
    put_machine(row, plain.config(), machine_of(item));
    match &last {
        Some(last) if last.next == Some(last.place) => {
            row.put(b" waits at ");
            row.put(&last.place.code());
            row.put(b" for ");
            put_awaited(row, plain, last, control);
        }
        _ => row.put(b" goes round and finds nothing to do"),
    }
}

// Puts members for whom a machine waits that has made this load in vain, as `put_awaited` says it; those that copy are nobody by name.
fn json_awaited(row: &mut Row, plain: &Plain, last: &Event, control: Option<Event>) {
    let config = plain.config();
    let own = plain.seats() - 1;
    let seat = match (last.place, &control) {
        (Place::XW, _) => return,
        (Place::P2, _) => awaited(config, last).unwrap_or(own),
        (_, Some(other)) if other.place == Place::P2 => awaited(config, other).unwrap_or(own),
        _ => own,
    };
    json_number(row, b"waits_for", (seat as u64).saturating_add(1));
}

/// Puts the object for an item, counted from 1, that cannot end: by the last event of its machine, and that of the control.
pub fn json_stuck(
    row: &mut Row,
    plain: &Plain,
    number: usize,
    item: Item,
    last: Option<Event>,
    control: Option<Event>,
) {
    row.put(b"{");
    json_text(row, b"kind", b"stuck");
    json_number(row, b"item", number as u64);
    json_key(row, b"text");
    row.put(b"\"");
    put_item(row, item);
    row.put(b"\"");
    json_seat(row, plain.config(), machine_of(item));
    match &last {
        Some(last) if last.next == Some(last.place) => {
            json_text(row, b"at", &last.place.code());
            json_awaited(row, plain, last, control);
        }
        _ => json_flag(row, b"goes_round", true),
    }
    row.put(b"}");
}
