// The graph given beside the graph due, byte by byte; the first row that is not the one due decides.
ghost use Rattle.std.specs.Prelude.{ℕ, List, ◌≡◌, true, ◌<◌, ◌≤◌, eqb, length, drop};
ghost use Rattle.listings.specs.Bytes.{pick};
ghost use Rattle.comparing.specs.Judging.{start, lost};
ghost use Rattle.comparing.specs.JudgeStates.{reading_of};
ghost use Rattle.comparing.specs.Comparing.{same, differs, begins, differing, fed_byte, fed, place_at, ruled};
ghost use Rattle.comparing.specs.ComparingStates.{standing_as, verdict_as};
ghost use Rattle.comparing.specs.Feeding.{RowsDue, FedTo};

use crate::judge::Judge;
use layout::refusals::{Reason, Refused};

// How many bytes of the graph due were met, and where the row stands beside its form.
#[derive(Clone, Copy)]
pub struct Reached {
    pub at: usize,
    pub judge: Judge,
}

// All that was given is due so far; this row is not the one due; a row was not, and has ended. What is refused then stands
// at the byte where that row differed, and `rule` moves it to the row.
#[derive(Clone, Copy)]
pub enum Comparing<R> {
    Same(Reached),
    Differs(Reached),
    Ended(R),
}

// What was found so far, and what is left of a piece.
#[derive(Clone, Copy)]
struct Fed<'a, R> {
    state: Comparing<R>,
    left: &'a [u8],
}

// Whether byte b is the next one due.
// Kept: `due` and `at`, here and below: callers lend the graph due with each piece, and of what is left of it alone the
// row that `at` stands in could not be told.
fn is_due(due: &[u8], at: usize, b: u8) -> bool
    ensures { (result ≡ begins (drop at due.now) b) × (result ≡ true → at < length due.now) }
{
    due.get(at) == Some(&b)
}

// Where the last row ended, behind byte b, the last of i.
fn row_behind(b: u8, i: usize, m: usize) -> usize
    ensures { result ≡ pick (eqb b 10) i m }
{
    if b == b'\n' {
        return i;
    }
    m
}

// How many bytes of a piece that begins a row are rows due. Such rows need no judge.
// Kept: by place, at each byte of the graph due as `is_due` reads it: tried as a `zip` with what is left of that graph,
// under `enumerate`, and proved, but each byte took two instructions more, and `flowcheck` 3 % more.
fn rows_due(at: usize, due: &[u8], piece: &[u8]) -> usize
    ensures { RowsDue due.now at piece.now result }
{
    if at >= due.len() {
        return 0;
    }
    let mut m: usize = 0;
    for (i, b) in piece.iter().enumerate() {
        if !is_due(due, at + i, *b) {
            return m;
        }
        m = row_behind(*b, i + 1, m);
    }
    m
}

// The row in which byte `at` of the graph due stands: so many end before it.
fn place_at(due: &[u8], at: usize) -> usize
    ensures { result ≡ place_at due.now at }
{
    due.iter().take(at).filter(|b| **b == b'\n').count()
}

// The bytes of a row in no form, up to its end or that of the piece: only where it ends matters.
fn lost_on<'a, R: Refused>(at: usize, piece: &'a [u8]) -> Fed<'a, R>
    requires { 0 < length piece.now }
    ensures { (due : List ℕ) → FedTo due (differs at lost) piece.now (standing_as R.as_pair result.state) result.left.now }
{
    for (i, b) in piece.iter().enumerate() {
        if *b == b'\n' {
            return Fed {
                state: Comparing::Ended(R::refused(Reason::NotARow, at)),
                left: &piece[i + 1..],
            };
        }
    }
    let judge = Judge::Lost;
    Fed {
        state: Comparing::Differs(Reached { at, judge }),
        left: &[],
    }
}

impl Reached {
    // A byte of a row that is not the one due.
    #[tactic(auto, using(std::proofs::lemmas::Bool::Decides::nat_tests), unfolding(crate::specs::Comparing::differing, crate::specs::ComparingStates::standing_as))]
    fn differ<R: Refused>(self, b: u8) -> Comparing<R>
        ensures { standing_as R.as_pair result ≡ differing self.at (reading_of self.judge) b }
    {
        if b == b'\n' {
            return Comparing::Ended(R::refused(self.judge.row_reason(), self.at));
        }
        Comparing::Differs(Reached {
            at: self.at,
            judge: self.judge.judge_byte(b),
        })
    }

    // The bytes of a row that is not the one due, up to its end or that of the piece.
    // Kept: a loop of its own, and one for a row in no form: with a turn of `feed` for each byte, which hands all of the
    // state on, a row of 100 MB in no form took 1.7 times as long.
    fn differ_on<'a, R: Refused>(self, piece: &'a [u8]) -> Fed<'a, R>
        requires { 0 < length piece.now }
        ensures { (due : List ℕ) → FedTo due (differs self.at (reading_of self.judge)) piece.now (standing_as R.as_pair result.state) result.left.now }
    {
        if let Judge::Lost = self.judge {
            return lost_on(self.at, piece);
        }
        let mut judge = self.judge;
        for (i, b) in piece.iter().enumerate() {
            if *b == b'\n' {
                return Fed {
                    state: Comparing::Ended(R::refused(judge.row_reason(), self.at)),
                    left: &piece[i + 1..],
                };
            }
            judge = judge.judge_byte(*b);
        }
        Fed {
            state: Comparing::Differs(Reached { at: self.at, judge }),
            left: &[],
        }
    }

    // One byte more, where all was as due.
    #[tactic(auto, unfolding(crate::specs::Comparing::fed_byte, crate::specs::ComparingStates::standing_as))]
    fn feed_same<R: Refused>(self, due: &[u8], b: u8) -> Comparing<R>
        ensures { standing_as R.as_pair result ≡ fed_byte due.now (same self.at (reading_of self.judge)) b }
    {
        if is_due(due, self.at, b) {
            return Comparing::Same(Reached {
                at: self.at + 1,
                judge: self.judge.next_judge(b),
            });
        }
        self.differ(b)
    }

    // Where all was as due: rows that are due at once, else one byte.
    fn feed_rows<'a, R: Refused>(self, due: &[u8], piece: &'a [u8]) -> Fed<'a, R>
        requires { 0 < length piece.now }
        ensures { FedTo due.now (same self.at (reading_of self.judge)) piece.now (standing_as R.as_pair result.state) result.left.now }
    {
        let m = if self.judge.is_start() {
            rows_due(self.at, due, piece)
        } else {
            0
        };
        if m == 0 {
            return Fed {
                state: self.feed_same(due, piece[0]),
                left: &piece[1..],
            };
        }
        Fed {
            state: Comparing::Same(Reached {
                at: self.at + m,
                judge: Judge::Start,
            }),
            left: &piece[m..],
        }
    }

    // The graph given ends, and all was as due.
    #[tactic(auto, using(crate::specs::ComparingStates::nothing_left, crate::specs::ComparingStates::something_left), unfolding(crate::specs::Comparing::ruled, crate::specs::ComparingStates::verdict_as))]
    fn rule_same<R: Refused>(self, due: &[u8]) -> Result<(), R>
        ensures { verdict_as R.as_pair result ≡ ruled due.now (same self.at (reading_of self.judge)) }
    {
        if !self.judge.is_start() {
            return Err(R::refused(Reason::NotARow, place_at(due, self.at)));
        }
        if due.len() <= self.at {
            return Ok(());
        }
        Err(R::refused(Reason::WrongRow, place_at(due, self.at)))
    }
}

impl<R: Refused> Comparing<R> {
    // Before the first byte.
    #[tactic(auto, unfolding(crate::specs::JudgeStates::reading_of, crate::specs::ComparingStates::standing_as))]
    pub fn begin() -> Comparing<R>
        ensures { standing_as R.as_pair result ≡ same 0 start }
    {
        Comparing::Same(Reached {
            at: 0,
            judge: Judge::Start,
        })
    }

    // At least one byte more; behind a row that was not due nothing counts.
    fn feed_more<'a>(self, due: &[u8], piece: &'a [u8]) -> Fed<'a, R>
        requires { 0 < length piece.now }
        ensures { FedTo due.now (standing_as R.as_pair self) piece.now (standing_as R.as_pair result.state) result.left.now }
    {
        match self {
            Comparing::Same(r) => r.feed_rows(due, piece),
            Comparing::Differs(r) => r.differ_on(piece),
            Comparing::Ended(_) => Fed {
                state: self,
                left: &[],
            },
        }
    }

    // One piece more of the graph given.
    // Kept: `while`, since a turn takes one byte or many rows: an iterator of such steps would be no plainer.
    pub fn feed(self, due: &[u8], piece: &[u8]) -> Comparing<R>
        ensures { standing_as R.as_pair result ≡ fed due.now (standing_as R.as_pair self) piece.now }
    {
        let mut s = self;
        let mut left = piece;
        while !left.is_empty() {
            let f = s.feed_more(due, left);
            s = f.state;
            left = f.left;
        }
        s
    }

    // The graph given ends: right, or refused at the first row that is not the one due.
    #[tactic(auto, unfolding(crate::specs::Comparing::ruled, crate::specs::ComparingStates::standing_as, crate::specs::ComparingStates::verdict_as))]
    pub fn rule(self, due: &[u8]) -> Result<(), R>
        ensures { verdict_as R.as_pair result ≡ ruled due.now (standing_as R.as_pair self) }
    {
        match self {
            Comparing::Same(r) => r.rule_same(due),
            Comparing::Differs(r) => Err(R::refused(Reason::NotARow, place_at(due, r.at))),
            Comparing::Ended(r) => Err(r.moved(place_at(due, r.place()))),
        }
    }
}
