use crate::filter::{Filter, Needle};
use trace_reading::number_in;

/// The events that are made at most where the words name no number.
const USUAL_STEPS: u64 = 100_000_000;

/// The most that the words may name.
const MOST_STEPS: u64 = 4_000_000_000;

/// How pauses are listed.
#[derive(Clone, Copy, PartialEq, Eq)]
pub enum PauseForm {
    /// Each as one line.
    Line,
    /// Each as one line, and the changed words below it.
    Changed,
    /// Each event of it, and then the line.
    Full,
}

/// What the words of the command line ask for.
#[derive(Clone, Copy)]
pub struct Wanted {
    /// The events that are made at most.
    pub steps: u64,
    /// The first event that is listed, counted from 1.
    pub from: u64,
    /// The last event that is listed.
    pub to: u64,
    /// The one item whose events are listed, counted from 1; None for all.
    pub item: Option<u64>,
    /// Whether the heap is shown after each part.
    pub heap: bool,
    /// Whether what of it an event has changed is shown behind that.
    pub heap_changes: bool,
    /// The event after which the heap is shown, or 0.
    pub heap_at: u64,
    /// The columns of a line, as far as is known.
    pub width: u64,
    /// How pauses are listed.
    pub pauses: PauseForm,
    /// Whether runs of like events are one line.
    pub folds: bool,
    /// Whether each machine has a column of its own.
    pub columns: bool,
    /// Whether the lines are JSON.
    pub json: bool,
    /// Whether lines have the colours of their machines.
    pub colours: bool,
    /// Whether the events that were made are told of on the way.
    pub progress: bool,
}

impl Wanted {
    /// Whether a line has room for columns and bars.
    pub fn is_wide(&self) -> bool {
        self.width >= WIDE
    }

    /// Whether what is found and said stands in columns.
    pub fn in_columns(&self) -> bool {
        self.is_wide() && !self.columns
    }

    /// Whether the listing may begin behind the first event.
    pub fn begins_later(&self) -> bool {
        self.from > 1 || self.item.is_some()
    }
}

// The columns of a line that has room for columns and bars, at least.
const WIDE: u64 = 100;

/// Why words are refused.
pub enum Refusal {
    /// They have not the form.
    Form,
    /// No place has a code that they name.
    NoPlace(Needle),
}

/// The form of the words, as a line.
pub const FORM: &[u8] =
    b"bad words: the form is shensteps [--steps N] [--from N] [--to N] [--item N] [--only MACHINE,..] [--place CODE,..] [--object NAME] [--word WORD] [--calls] [--pauses line|changed|full] [--no-fold] [--columns] [--heap [changed]] [--heap-at N] [--json] [--color always|never|auto] [--progress]\n";

/// What the words have asked for so far.
#[derive(Drop)]
pub struct Asked {
    /// What is listed, and how.
    pub wanted: Wanted,
    /// Which events are listed.
    pub filter: Filter,
    // Which words were given, by their order in `WORDS`.
    given: [bool; 17],
}

// The words, those with a value behind them first.
const WITH_VALUE: [&str; 11] = [
    "--steps",
    "--from",
    "--to",
    "--item",
    "--heap-at",
    "--only",
    "--place",
    "--object",
    "--word",
    "--pauses",
    "--color",
];

const ALONE: [&str; 6] = [
    "--heap",
    "--calls",
    "--no-fold",
    "--columns",
    "--json",
    "--progress",
];

// The place of a word among those with a value.
fn value_word(word: &str) -> Option<usize> {
    let words = &WITH_VALUE;
    for at in 0..11 {
        if words[at] == word {
            return Some(at);
        }
    }
    None
}

// The place of a word among those that stand alone.
fn lone_word(word: &str) -> Option<usize> {
    let words = &ALONE;
    for at in 0..6 {
        if words[at] == word {
            return Some(at);
        }
    }
    None
}

// The form of pauses that a word names.
fn form_of(word: &str) -> Option<PauseForm> {
    if word == "line" {
        Some(PauseForm::Line)
    } else if word == "changed" {
        Some(PauseForm::Changed)
    } else if word == "full" {
        Some(PauseForm::Full)
    } else {
        None
    }
}

// Whether colours are wanted, by the word of when; what is automatic is for the script to say.
fn colours_of(word: &str) -> Option<bool> {
    if word == "always" {
        Some(true)
    } else if word == "never" || word == "auto" {
        Some(false)
    } else {
        None
    }
}

impl Asked {
    // Nothing was asked for yet.
    fn new(width: u64) -> Asked {
        Asked {
            wanted: Wanted {
                steps: USUAL_STEPS,
                from: 1,
                to: MOST_STEPS,
                item: None,
                heap: false,
                heap_changes: false,
                heap_at: 0,
                width,
                pauses: PauseForm::Line,
                folds: true,
                columns: false,
                json: false,
                colours: false,
                progress: false,
            },
            filter: Filter::all(),
            given: [false; 17],
        }
    }

    // Takes down that a word was given. None where it was before.
    fn once(&mut self, at: usize) -> Option<()> {
        let slot = at % 17;
        if self.given[slot] {
            return None;
        }
        self.given[slot] = true;
        Some(())
    }

    // Takes a word that stands alone.
    fn take_alone(&mut self, at: usize) -> Option<()> {
        self.once(at.saturating_add(11))?;
        match at {
            0 => self.wanted.heap = true,
            1 => self.filter.calls = true,
            2 => self.wanted.folds = false,
            3 => self.wanted.columns = true,
            4 => self.wanted.json = true,
            _ => self.wanted.progress = true,
        }
        Some(())
    }

    // Takes a word with a number behind it.
    fn take_number(&mut self, at: usize, value: &str) -> Option<()> {
        let number = number_in(MOST_STEPS, value.as_bytes())?;
        match at {
            0 => self.wanted.steps = number,
            1 => self.wanted.from = number,
            2 => self.wanted.to = number,
            3 => self.wanted.item = Some(number),
            _ => self.wanted.heap_at = number,
        }
        Some(())
    }

    // Takes a word with a value behind it.
    fn take_value(&mut self, at: usize, value: &str) -> Option<()> {
        self.once(at)?;
        match at {
            5 => self.filter.take_machines(value.as_bytes())?,
            6 => self.filter.take_places(value.as_bytes())?,
            7 => self.filter.object = Some(Needle::of(value.as_bytes())?),
            8 => self.filter.word = Some(Needle::of(value.as_bytes())?),
            9 => self.wanted.pauses = form_of(value)?,
            10 => self.wanted.colours = colours_of(value)?,
            _ => self.take_number(at, value)?,
        }
        Some(())
    }

    // Takes the word at this place, with its value if it has one. The place behind them; None for any other words.
    fn take(&mut self, words: &[String], at: usize) -> Option<usize> {
        let next = at.saturating_add(1);
        let word = words.get(at)?.as_str();
        if let Some(alone) = lone_word(word) {
            self.take_alone(alone)?;
            if alone == 0 && words.get(next).is_some_and(|it| it.as_str() == "changed") {
                self.wanted.heap = false;
                self.wanted.heap_changes = true;
                return Some(next.saturating_add(1));
            }
            return Some(next);
        }
        let with_value = value_word(word)?;
        self.take_value(with_value, words.get(next)?.as_str())?;
        Some(next.saturating_add(1))
    }
}

// Takes all words. None for any that are refused.
fn take_all(asked: &mut Asked, words: &[String]) -> Option<()> {
    let mut at: usize = 0;
    for _ in 0..18 {
        if at < words.len() {
            at = asked.take(words, at)?;
        }
    }
    if at < words.len() { None } else { Some(()) }
}

/// What the words ask for: each word once at most, in any order, with a number from 1 to 4000000000 or another value behind those
/// that want one. Any other words are refused. Lines have so many columns, as far as is known.
pub fn asked_by(words: &[String], width: u64) -> Result<Asked, Refusal> {
    let mut asked = Asked::new(width);
    match (take_all(&mut asked, words), asked.filter.no_place) {
        (Some(()), _) => Ok(asked),
        (None, Some(code)) => Err(Refusal::NoPlace(code)),
        (None, None) => Err(Refusal::Form),
    }
}
