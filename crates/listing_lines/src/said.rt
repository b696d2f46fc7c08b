//! What the step of an event says, behind its access and the word found.

use crate::columns::SAYS;
use crate::tally::Tally;
use heap_words::{Access, Config, Took};
use listing::{Event, Row, put_command, put_machine, put_reply};
use shen_graph::{Command, Entry, Reply};

// What is known of the line that is set.
#[derive(Drop)]
pub(crate) struct Said {
    // Whether what is found and said stands in columns.
    pub(crate) in_columns: bool,
    // Whether the line is of a call's begin, reply or effect, and whether it says anything.
    pub(crate) is_of_call: bool,
    has_said: bool,
    // Behind which column its text stands, which the number of its event is before.
    pub(crate) behind: usize,
}

impl Said {
    // Nothing is said yet.
    pub(crate) fn new(in_columns: bool) -> Said {
        Said {
            in_columns,
            is_of_call: false,
            has_said: false,
            behind: 0,
        }
    }

    // A line is begun that says nothing yet.
    fn restart(&mut self) {
        self.is_of_call = false;
        self.has_said = false;
    }

    // Goes on at a column, or behind a text where there are none.
    pub(crate) fn go_on(&self, row: &mut Row, column: usize, text: &[u8]) {
        if self.in_columns {
            row.tab(column);
        } else {
            row.put(text);
        }
    }

    // Puts something that the step says.
    fn say(&mut self, row: &mut Row, text: &[u8]) {
        if self.has_said {
            row.put(b", ");
        } else {
            self.go_on(row, SAYS, b"; ");
        }
        self.has_said = true;
        row.put(text);
    }

    // Puts that the step begins a call.
    fn put_begun(&mut self, row: &mut Row, command: Command) {
        self.say(row, b"begins ");
        put_command(row, command);
        self.is_of_call = true;
    }

    // Puts the entry of the history that the step settles, and its number there.
    fn put_settled(&mut self, row: &mut Row, config: Config, entry: Entry, number: u64) {
        if entry.reply == Reply::Full {
            self.say(row, b"settles full of ");
            put_machine(row, config, (entry.thread as usize).saturating_sub(1));
        } else {
            self.say(row, b"settles ");
            put_reply(row, entry.reply);
        }
        self.say(row, b"entry ");
        row.put_number(number);
        self.is_of_call = true;
    }

    // Puts whether an exchange was won.
    fn put_won(&mut self, row: &mut Row, event: &Event) {
        if let Access::Exchange { expect, .. } = event.access {
            self.say(
                row,
                if event.found == expect {
                    b"won"
                } else {
                    b"lost"
                },
            );
        }
    }

    // Puts the reply of the call that has ended.
    fn put_replied(&mut self, row: &mut Row, reply: Reply) {
        self.say(row, b"replies ");
        put_reply(row, reply);
        self.is_of_call = true;
    }

    // Puts what the step of a machine says: the command that it begins, what it settles, and the reply of the call that has ended.
    pub(crate) fn put(
        &mut self,
        row: &mut Row,
        config: Config,
        tally: &Tally,
        event: &Event,
        begun: Option<Command>,
        reply: Option<Reply>,
    ) {
        self.restart();
        self.put_won(row, event);
        if let Some(command) = begun {
            self.put_begun(row, command);
        }
        if let Some(entry) = tally.settled {
            self.put_settled(row, config, entry, tally.entry_number());
        }
        if event.said == Took::Again {
            self.say(row, b"again");
        }
        if let Some(reply) = reply {
            self.put_replied(row, reply);
        }
    }
}
