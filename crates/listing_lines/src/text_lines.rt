//! The line of an event as text.

use crate::columns::{ACCESS, FOUND, MACHINE, PLACE, column_of};
use crate::course::Listing;
use listing::{Event, NUMBER, put_access, put_machine, put_value};
use shen_graph::{Command, Reply};

impl Listing {
    // Sets the columns of an event up to its access.
    pub(crate) fn set_machine(&mut self, event: &Event) {
        let config = self.words.config();
        let row = &mut self.pen.row;
        row.put_number_to(event.number, NUMBER);
        self.said.behind = row.width();
        if self.wanted.columns {
            row.tab(column_of(event.seat, config.seats(), self.wanted.width));
            row.put(&event.place.code());
            row.put(b" ");
            return;
        }
        row.tab(MACHINE);
        put_machine(row, config, event.seat);
        row.tab(PLACE);
        row.put(&event.place.code());
        row.tab(ACCESS);
    }

    // Sets the line of an event. The command is the one that it begins, and the reply that of the call that has ended.
    pub(crate) fn set(&mut self, event: &Event, begun: Option<Command>, reply: Option<Reply>) {
        let within = self.hands.within(&self.words.table, event);
        self.set_machine(event);
        let table = &self.words.table;
        let row = &mut self.pen.row;
        let kind = put_access(row, table, event.access, within);
        self.said.go_on(row, FOUND, b" = ");
        put_value(row, table, kind, event.found);
        self.said
            .put(row, table.config(), &self.tally, event, begun, reply);
    }

    // Behind which column names and words stand that are looked for.
    fn access_column(&self) -> usize {
        if self.wanted.columns { MACHINE } else { ACCESS }
    }

    // Whether the line that is set is listed, by what it names and says.
    pub(crate) fn is_listed(&self) -> bool {
        (self.said.is_of_call || !self.filter.calls)
            && self.filter.has_line(&self.pen.row, self.access_column())
    }
}
