ghost use Rattle.std.specs.Prelude.{◌≡◌, ◌≢◌, ◌↔◌, IsTrue, IfSome, IfNone};
ghost use Rattle.heap_words.specs.Place.{code_of, same_place};
ghost use Rattle.heap_words.specs.declared.place.Place.{Place};

use std::fmt;
use std::fmt::{Debug, Formatter, Write};

/// The place of a machine: the access that it makes next. Each has a code of two letters or digits.
#[derive(Clone, Copy, PartialEq, Eq)]
pub enum Place {
    /// Entering: stores IN into the state word of the seat.
    E1,
    /// Entering: loads the pause word after the state word was stored.
    E2,
    /// Entering: stores OUT again, since a pause is wanted.
    E3,
    /// Entering: waits for the pause word to be 0.
    E4,
    /// Loads the phase, which the call keeps.
    PH,
    /// Loads the collection set, which the call keeps.
    CS,
    /// Leaving: stores OUT into the state word of the seat.
    LV,
    /// A mutator at its end takes itself off the mutators that are left.
    ML,
    /// A helper outside: loads the word of the end.
    H0,
    /// Loads a root that the command reads.
    RL,
    /// Loads the shape of the object that the command is on.
    SH,
    /// Loads a reference field.
    FL,
    /// Stores a reference field.
    FS,
    /// Swaps a reference field.
    FX,
    /// Exchanges a reference field from the value that was loaded.
    CX,
    /// Loads a number field.
    NL,
    /// Stores a number field.
    NS,
    /// Loads the name of the object that the reply is to name.
    NM,
    /// Stores the root that the command writes.
    RS,
    /// Asks for a cycle.
    AK,
    /// Loads a pin slot.
    PB,
    /// Stores a pin slot.
    PN,
    /// Store barrier: loads the count of the SATB buffer.
    BC,
    /// Store barrier: loads an entry of the full SATB buffer.
    BL,
    /// Greys an object.
    GO,
    /// Store barrier: stores 0 as the count of the SATB buffer.
    BZ,
    /// Store barrier: stores the old reference as an entry of the SATB buffer.
    BE,
    /// Store barrier: stores the count of the SATB buffer, one more.
    BN,
    /// Taking room: loads the seat's buffer.
    TC,
    /// Taking room: loads the shared region.
    TR,
    /// Taking room: loads the top of the shared region.
    TT,
    /// Taking room: carves a buffer out of the shared region by raising its top.
    TX,
    /// Taking room: loads the free word.
    TF,
    /// Taking room: clears the bit of a free region.
    TG,
    /// Taking room: makes the region the shared one.
    TV,
    /// Taking room: gives the region back, since another was faster.
    TQ,
    /// Taking room: stores a filler over the free words of the old buffer.
    TZ,
    /// Taking room: stores the seat's buffer, without the words of the object.
    TS,
    /// Stores a word of the fresh object.
    IW,
    /// A New without room: stores the request.
    WS,
    /// A New without room: asks for a pause.
    WK,
    /// A New without room: stores OUT into the state word of the seat.
    WO,
    /// A New without room: waits for an answer.
    WP,
    /// A New that has waited: loads the answer.
    WL,
    /// A New that has waited: stores 0 as the answer.
    WC,
    /// Load reference barrier: loads the header.
    HL,
    /// Evacuation: loads the count of the copiers.
    XL,
    /// Evacuation: raises the count of the copiers.
    XC,
    /// Evacuation: loads the shape of the object to be copied.
    SL,
    /// Evacuation: loads a word of the object.
    CL,
    /// Evacuation: stores a word of the copy.
    CP,
    /// Evacuation: stores the header of the copy.
    HI,
    /// Evacuation: exchanges the header of the object for one that names the copy.
    HX,
    /// Evacuation: gives back the room of a copy that came too late.
    GB,
    /// Evacuation: takes itself off the copiers.
    XS,
    /// Out of room: loads the count of the copiers.
    OL,
    /// Out of room: marks the count of the copiers, and takes itself off.
    OX,
    /// Out of room: waits until nobody copies.
    XW,
    /// Out of room: loads the header once nobody copies.
    HR,
    /// Marking: loads the next unit of work.
    MC,
    /// Evacuating: loads the next unit of work.
    EC,
    /// Updating references: loads the next unit of work.
    UC,
    /// Claims a unit of work.
    KX,
    /// Marking: loads a grey word.
    MG,
    /// Marking: loads the black word beside it.
    MB,
    /// Marking: blackens an object.
    MO,
    /// Marking: loads the shape of the object.
    MS,
    /// Marking: loads a reference field of the object.
    MF,
    /// Evacuating: loads the top of the region.
    ET,
    /// Evacuating: loads the header where the walk stands, an object's or a filler's.
    EF,
    /// Evacuating: loads the shape of the next object.
    ES,
    /// Evacuating: loads the black word of the object.
    EB,
    /// Updating references: loads the limit of the region.
    UL,
    /// Updating references: loads the top at mark start of the region.
    UT,
    /// Updating references: loads the header where the walk stands, an object's or a filler's.
    UG,
    /// Updating references: loads the shape of the next object.
    US,
    /// Updating references: loads the black word of the object.
    UB,
    /// Updating references: loads a reference field.
    UF,
    /// Updating references: loads the header of the object that the field names.
    UH,
    /// Updating references: exchanges the field for the copy's address.
    UX,
    /// The control: loads the count of the mutators that are left.
    I0,
    /// The control: stores the word of the end.
    IE,
    /// The control: loads the word of what is asked for.
    I1,
    /// The control: loads the free word.
    I2,
    /// Pausing: stores 1 into the pause word.
    P1,
    /// Pausing: waits until a seat is out.
    P2,
    /// Pausing: loads a word of the image.
    PL,
    /// Pausing: stores a word of the image.
    PS,
    /// Pausing: stores 0 into the pause word.
    P3,
}

/// Each place with its code, in the order of the places.
const CODES: [(Place, [u8; 2]); 89] = [
    (Place::E1, *b"E1"),
    (Place::E2, *b"E2"),
    (Place::E3, *b"E3"),
    (Place::E4, *b"E4"),
    (Place::PH, *b"PH"),
    (Place::CS, *b"CS"),
    (Place::LV, *b"LV"),
    (Place::ML, *b"ML"),
    (Place::H0, *b"H0"),
    (Place::RL, *b"RL"),
    (Place::SH, *b"SH"),
    (Place::FL, *b"FL"),
    (Place::FS, *b"FS"),
    (Place::FX, *b"FX"),
    (Place::CX, *b"CX"),
    (Place::NL, *b"NL"),
    (Place::NS, *b"NS"),
    (Place::NM, *b"NM"),
    (Place::RS, *b"RS"),
    (Place::AK, *b"AK"),
    (Place::PB, *b"PB"),
    (Place::PN, *b"PN"),
    (Place::BC, *b"BC"),
    (Place::BL, *b"BL"),
    (Place::GO, *b"GO"),
    (Place::BZ, *b"BZ"),
    (Place::BE, *b"BE"),
    (Place::BN, *b"BN"),
    (Place::TC, *b"TC"),
    (Place::TR, *b"TR"),
    (Place::TT, *b"TT"),
    (Place::TX, *b"TX"),
    (Place::TF, *b"TF"),
    (Place::TG, *b"TG"),
    (Place::TV, *b"TV"),
    (Place::TQ, *b"TQ"),
    (Place::TZ, *b"TZ"),
    (Place::TS, *b"TS"),
    (Place::IW, *b"IW"),
    (Place::WS, *b"WS"),
    (Place::WK, *b"WK"),
    (Place::WO, *b"WO"),
    (Place::WP, *b"WP"),
    (Place::WL, *b"WL"),
    (Place::WC, *b"WC"),
    (Place::HL, *b"HL"),
    (Place::XL, *b"XL"),
    (Place::XC, *b"XC"),
    (Place::SL, *b"SL"),
    (Place::CL, *b"CL"),
    (Place::CP, *b"CP"),
    (Place::HI, *b"HI"),
    (Place::HX, *b"HX"),
    (Place::GB, *b"GB"),
    (Place::XS, *b"XS"),
    (Place::OL, *b"OL"),
    (Place::OX, *b"OX"),
    (Place::XW, *b"XW"),
    (Place::HR, *b"HR"),
    (Place::MC, *b"MC"),
    (Place::EC, *b"EC"),
    (Place::UC, *b"UC"),
    (Place::KX, *b"KX"),
    (Place::MG, *b"MG"),
    (Place::MB, *b"MB"),
    (Place::MO, *b"MO"),
    (Place::MS, *b"MS"),
    (Place::MF, *b"MF"),
    (Place::ET, *b"ET"),
    (Place::EF, *b"EF"),
    (Place::ES, *b"ES"),
    (Place::EB, *b"EB"),
    (Place::UL, *b"UL"),
    (Place::UT, *b"UT"),
    (Place::UG, *b"UG"),
    (Place::US, *b"US"),
    (Place::UB, *b"UB"),
    (Place::UF, *b"UF"),
    (Place::UH, *b"UH"),
    (Place::UX, *b"UX"),
    (Place::I0, *b"I0"),
    (Place::IE, *b"IE"),
    (Place::I1, *b"I1"),
    (Place::I2, *b"I2"),
    (Place::P1, *b"P1"),
    (Place::P2, *b"P2"),
    (Place::PL, *b"PL"),
    (Place::PS, *b"PS"),
    (Place::P3, *b"P3"),
];

impl Place {
    /// The code of the place, in ASCII.
    pub fn code(self) -> [u8; 2]
        ensures { result ≡ code_of self }
    {
        let codes = &CODES;
        codes[self as usize].1
    }

    /// The place of a code, or None where no place has it.
    pub fn of(code: [u8; 2]) -> Option<Place>
        ensures found { IfSome result (λ place. code_of place ≡ code) }
        ensures unknown { IfNone result ((place : Place) → code_of place ≢ code) }
        ensures undone { (place : Place) → code_of place ≡ code → result ≡ Some place }
    {
        for (place, spelled) in &CODES {
            if *spelled == code {
                return Some(*place);
            }
        }
        None
    }

    /// Whether two places are one. It compares two numbers and looks at no code.
    pub fn is(self, other: Place) -> bool
        ensures same { IsTrue result ↔ (self ≡ other) }
        ensures test { result ≡ same_place self other }
    {
        self == other
    }
}

/// Written as its code.
impl Debug for Place {
    fn fmt<W: Write>(&self, f: &mut Formatter<W>) -> fmt::Result {
        let [one, two] = self.code();
        f.write_char(char::from(one))?;
        f.write_char(char::from(two))
    }
}
