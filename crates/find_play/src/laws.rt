//! Laws of tests and their lines.
ghost use Rattle.std.specs.Prelude.{◌≡◌, ◌⊎◌, ◌≤◌, ℕ, List, Ok, length};
ghost use Rattle.trace_reading.specs.Grammar.{most_bytes};
ghost use Rattle.find_play.specs.declared.fault.TestWhy.{TestWhy as Said};
ghost use Rattle.find_play.specs.declared.kind.LineKind.{LineKind as Kind};
ghost use Rattle.find_play.specs.declared.slot.Value.{Value as Word};
ghost use Rattle.find_play.specs.Told.{Told};
ghost use Rattle.find_play.specs.Lines.{line_in};
ghost use Rattle.find_play.specs.Spelling.{IsLineSaid};
ghost use Rattle.find_play.specs.Tests.{TestSaid, IsTest, RefusesTest};

/// A law: what is read of the words of a line is a line of these words, which may stand there; and such a line is read as that.
pub fn lines_are_of_their_words()
    ensures said { (told : Told) (words : List (List ℕ)) (kind : Kind) (values : List Word) → line_in told words ≡ Ok (kind, values) → IsLineSaid told words kind values }
    ensures read { (told : Told) (words : List (List ℕ)) (kind : Kind) (values : List Word) → IsLineSaid told words kind values → line_in told words ≡ Ok (kind, values) }
{}

/// A law: bytes are one test at most.
pub fn tests_are_read_once()
    ensures { (bytes : List ℕ) (test other : TestSaid) → IsTest bytes test → IsTest bytes other → test ≡ other }
{}

/// A law: bytes within the limit are a test, or are refused at a line for a cause; never both, and never at two lines or for two
/// causes.
pub fn bytes_are_a_test_or_refused()
    ensures either { (bytes : List ℕ) → length bytes ≤ most_bytes → ((test : TestSaid) × IsTest bytes test) ⊎ ((line_number : ℕ) × (why : Said) × RefusesTest bytes line_number why) }
    ensures never_both { (bytes : List ℕ) (test : TestSaid) (line_number : ℕ) (why : Said) → IsTest bytes test → RefusesTest bytes line_number why → ⊥ }
    ensures once { (bytes : List ℕ) (line_number other_line_number : ℕ) (why other_why : Said) → RefusesTest bytes line_number why → RefusesTest bytes other_line_number other_why → (line_number ≡ other_line_number) × (why ≡ other_why) }
{}
