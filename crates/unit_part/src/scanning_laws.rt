//! That a scan finds each address that is grey and not black: a law, as a theorem and no code.

ghost use Rattle.unit_part.specs.Unscanned.{UnscannedIsFound};

/// A law: the address that is scanned next is the lowest of its word that is grey and not black, and a unit ends where there is
/// none.
pub fn unscanned_is_found()
    ensures { UnscannedIsFound }
{}
