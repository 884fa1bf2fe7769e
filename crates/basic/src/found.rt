// What is found in a line, and where what follows it begins; or the place of what stands instead.
ghost use Rattle.std.specs.Prelude.{◌≡◌};
ghost use Rattle.layout.specs.Refusals.{refusal_at};
ghost use Rattle.layout.specs.declared.refusals.Reason.TheVariants.{Lacking};

use super::cursors::Cursor;
use layout::refusals::{Reason, Refusal};

// A number, a name's key, a statement, how many items stand in a list.
#[derive(Clone, Copy)]
pub struct Found<A> {
    pub value: A,
    pub next: Cursor,
}

impl<A: Copy> Found<A> {
    // Another value, found at the same place.
    pub(crate) fn with<B>(self, value: B) -> Found<B>
        ensures { result ≡ record { value = value; next = self.next } }
    {
        Found {
            value,
            next: self.next,
        }
    }
}

// The place of what stands where something is due.
#[derive(Clone, Copy, Debug, PartialEq, Eq)]
pub struct Lack {
    pub place: usize,
}

// "lacks .. a line number": the place that 35 names.
impl From<Lack> for Refusal {
    ghost from_gives = { λ l r. r ≡ refusal_at Lacking l.place };

    fn from(lack: Lack) -> Refusal {
        Reason::Lacking.at(lack.place)
    }
}
