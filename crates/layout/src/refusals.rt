// Why an input, a build or a question is refused, and at which place.
ghost use Rattle.std.specs.Prelude.{◌≡◌, ℕ};
ghost use Rattle.layout.specs.Refusals.{number_of, refusal_at, refusal_pair};

// The reasons, with the papers' numbers.
#[derive(Clone, Copy, Debug, PartialEq, Eq)]
pub enum Reason {
    TextTooLong = 1,
    NotAForm = 2,
    BadWord = 3,
    LineOrder = 4,
    TooManyLines = 5,
    TooManyStatements = 6,
    TooDeep = 7,
    TooWide = 8,
    LineTables = 21,
    NodeTables = 22,
    EdgeTables = 23,
    NoNode = 24,
    Outside = 25,
    NoStatement = 26,
    NotFound = 27,
    NoRoom = 28,
    NotARow = 31,
    WrongRow = 32,
    EndsEarly = 33,
    ForeignByte = 34,
    Lacking = 35,
}

// A reason, and the place that the papers give with it.
#[derive(Clone, Copy, Debug, PartialEq, Eq)]
pub struct Refusal {
    pub reason: Reason,
    pub place: usize,
}

impl Reason {
    // The papers' number.
    pub fn number(self) -> u8
        ensures { result ≡ number_of self }
    {
        self as u8
    }

    // The refusal for this reason at that place.
    pub fn at(self, place: usize) -> Refusal
        ensures { result ≡ refusal_at self place }
    {
        Refusal {
            reason: self,
            place,
        }
    }
}

// What tells that something is refused: a number and a place. What hands a refusal on or prints it takes any of these.
pub trait Refused: Copy {
    ghost as_pair: { Self → ℕ × ℕ };

    // For this reason, at that place.
    fn refused(reason: Reason, place: usize) -> Self
        ensures { as_pair result ≡ (number_of reason, place) };

    fn number(self) -> u8
        ensures { result ≡ (as_pair self).0 };

    fn place(self) -> usize
        ensures { result ≡ (as_pair self).1 };

    // The same number, at another place.
    fn moved(self, place: usize) -> Self
        ensures { as_pair result ≡ ((as_pair self).0, place) };
}

// One of the papers' numbers.
impl Refused for Refusal {
    ghost as_pair = { refusal_pair };

    fn refused(reason: Reason, place: usize) -> Refusal {
        reason.at(place)
    }

    fn number(self) -> u8 {
        self.reason.number()
    }

    fn place(self) -> usize {
        self.place
    }

    fn moved(self, place: usize) -> Refusal {
        self.reason.at(place)
    }
}

// Any number that a byte holds.
impl Refused for (u8, usize) {
    ghost as_pair = { λ pair. pair };

    fn refused(reason: Reason, place: usize) -> (u8, usize) {
        (reason.number(), place)
    }

    // Kept: this and the next are of one shape: each reads one field, the first and the second.
    fn number(self) -> u8 {
        self.0
    }

    // Kept: as above.
    fn place(self) -> usize {
        self.1
    }

    fn moved(self, place: usize) -> (u8, usize) {
        (self.0, place)
    }
}
