// Whether a row is one that a graph prints, judged byte by byte: its length has no limit.
ghost use Rattle.std.specs.Prelude.{◌≡◌, true, ◌||◌, [], eqb};
ghost use Rattle.listings.specs.Rows.{is_digit};
ghost use Rattle.listings.specs.Bytes.{pick};
ghost use Rattle.layout.specs.Refusals.{number_of};
ghost use Rattle.graph.specs.Check.{outside, inside, begun, outside_step, digit_step, step, may_end};
ghost use Rattle.comparing.specs.Judging.{start, beside, chosen, met, good, stepped_to};
ghost use Rattle.comparing.specs.Comparing.{is_start, rows_number};
ghost use Rattle.comparing.specs.JudgeStates.{passes, Passed, left_of, reading_of};

use layout::limits::MAX_NUMBER;
use layout::refusals::Reason;
use tokens::numbers::{is_digit, with_digit};

// What is left of a form, where `#` is a number, `*` numbers with a space before each, `%` numbers with a space between
// them and `?` one number with a space before it, or none; in a list, one more number may come first.
// Kept: forms are texts with four signs, as the definition's `row_forms` are, from which they are checked.
// Kept: `list` beside what is left, and no enum of an open list and none: what is left is there in both, and each
// reader would take it out by a `match`.
#[derive(Clone, Copy)]
pub struct Place {
    left: &'static [u8],
    list: bool,
}

// Nothing read; a bracket; no form; beside a form: outside numbers, where one must begin, in one of that value.
// Kept: `Lost`, and no `Result` of a judge: a state as the others, in which the row is read to its end.
#[derive(Clone, Copy)]
pub enum Judge {
    Start,
    Opened,
    Lost,
    Outside(Place),
    Begins(Place),
    Inside { value: u32, place: Place },
}

// Whether c stands for a list, or for a number that may be missing, that byte b does not go on with.
#[tactic(auto, unfolding(crate::specs::JudgeStates::passes))]
fn passes_list(c: u8, b: u8) -> bool
    ensures { result ≡ passes c b }
{
    match c {
        b'*' | b'?' => b != b' ',
        b'%' => !is_digit(b),
        _ => false,
    }
}

// What is left of a form behind such lists and numbers.
fn pass_lists(left: &'static [u8], b: u8) -> &'static [u8]
    ensures { Passed left.now b result.now }
{
    let n = left
        .iter()
        .position(|c| !passes_list(*c, b))
        .unwrap_or(left.len());
    &left[n..]
}

// A byte outside numbers, where a form goes on with what is left.
fn form_step(left: &'static [u8], b: u8) -> Judge
    ensures { reading_of result ≡ stepped_to (outside_step left.now b) }
{
    let Some((c, behind)) = pass_lists(left, b).split_first() else {
        return Judge::Lost;
    };
    let next = Place {
        left: behind,
        list: false,
    };
    let open = Place {
        left: behind,
        list: true,
    };
    match *c {
        b'#' => next.begin_number(b),
        b'*' => Judge::Begins(open),
        b'%' => open.begin_number(b),
        b'?' => Judge::Begins(next),
        d if d == b => Judge::Outside(next),
        _ => Judge::Lost,
    }
}

// Beside a form, with so much of it left.
#[tactic(auto, unfolding(crate::specs::JudgeStates::reading_of, crate::specs::JudgeStates::left_of))]
fn beside_form(left: &'static [u8]) -> Judge
    ensures { reading_of result ≡ beside (outside, left.now) }
{
    Judge::Outside(Place { left, list: false })
}

// The byte behind a bracket: no two forms have the same one.
#[tactic(auto, unfolding(crate::specs::Judging::chosen, crate::specs::JudgeStates::reading_of, crate::specs::Judging::form_rest, graph::specs::Check::row_forms, listings::specs::Bytes::bytes))]
fn second_byte(b: u8) -> Judge
    ensures { reading_of result ≡ chosen b }
{
    match b {
        b'g' => beside_form(b"raph # #"),
        b'n' => beside_form(b"ode # # # (%) (in?) (succ*) (pred*))"),
        b'e' => beside_form(b"ntry # #)"),
        b'r' => beside_form(b"eturns*)"),
        b'b' => beside_form(b"ack # #)"),
        _ => Judge::Lost,
    }
}

// The first byte of a row.
#[tactic(auto, unfolding(crate::specs::Judging::met, crate::specs::JudgeStates::reading_of))]
fn first_byte(b: u8) -> Judge
    ensures { reading_of result ≡ met start b }
{
    match b {
        b'(' => Judge::Opened,
        b')' => beside_form(b""),
        _ => Judge::Lost,
    }
}

// Whether c stands for a list, or for a number that may be missing.
fn is_list(c: u8) -> bool
    ensures { result ≡ (eqb c 42 || (eqb c 37 || eqb c 63)) }
{
    matches!(c, b'*' | b'%' | b'?')
}

// Whether what is left of a form are only such.
fn only_lists(left: &[u8]) -> bool
    ensures { result ≡ may_end left.now }
{
    left.iter().all(|c| is_list(*c))
}

impl Place {
    // A byte that begins a number; this is the place behind it.
    #[tactic(auto, using(listing_laws::specs::NumberText::digit_range), unfolding(crate::specs::JudgeStates::reading_of, graph::specs::Check::begun, crate::specs::Judging::stepped_to))]
    fn begin_number(self, b: u8) -> Judge
        ensures { reading_of result ≡ stepped_to (begun (left_of self) b) }
    {
        if is_digit(b) {
            return Judge::Inside {
                value: u32::from(b - b'0'),
                place: self,
            };
        }
        Judge::Lost
    }

    // A byte outside numbers: a list that is open goes on, or the form does.
    #[tactic(auto, using(crate::specs::JudgeStates::list_goes_on, crate::specs::JudgeStates::form_goes_on))]
    fn outside_step(self, b: u8) -> Judge
        ensures { reading_of result ≡ stepped_to (outside_step (left_of self) b) }
    {
        if self.list && b == b' ' {
            return Judge::Begins(self);
        }
        form_step(self.left, b)
    }

    // A digit more of a number.
    fn digit_step(self, value: u32, b: u8) -> Judge
        requires { is_digit b ≡ true }
        ensures { reading_of result ≡ stepped_to (digit_step value (left_of self) b) }
    {
        if value == 0 {
            return Judge::Lost;
        }
        match with_digit(value, u32::from(b - b'0'), MAX_NUMBER as u32) {
            Some(value) => Judge::Inside { value, place: self },
            None => Judge::Lost,
        }
    }

    // A byte behind a digit.
    #[tactic(auto, unfolding(graph::specs::Check::step))]
    fn inside_step(self, value: u32, b: u8) -> Judge
        ensures { reading_of result ≡ stepped_to (step (inside value) (left_of self) b) }
    {
        if is_digit(b) {
            return self.digit_step(value, b);
        }
        self.outside_step(b)
    }
}

impl Judge {
    // One byte more of a row.
    #[tactic(auto, unfolding(crate::specs::Judging::met, crate::specs::JudgeStates::reading_of, graph::specs::Check::step))]
    pub fn judge_byte(self, b: u8) -> Judge
        ensures { reading_of result ≡ met (reading_of self) b }
    {
        match self {
            Judge::Start => first_byte(b),
            Judge::Opened => second_byte(b),
            Judge::Lost => Judge::Lost,
            Judge::Outside(p) => p.outside_step(b),
            Judge::Begins(p) => p.begin_number(b),
            Judge::Inside { value, place } => place.inside_step(value, b),
        }
    }

    // Whether the row is in form if it ends here.
    #[tactic(auto, unfolding(graph::specs::Check::ends, crate::specs::Judging::good, crate::specs::JudgeStates::reading_of))]
    pub fn in_form(self) -> bool
        ensures { result ≡ good (reading_of self) }
    {
        match self {
            Judge::Outside(p) => only_lists(p.left),
            Judge::Inside { value: _, place } => only_lists(place.left),
            _ => false,
        }
    }

    // The judge behind a byte that is due: a row's end begins the next row.
    #[tactic(auto, using(std::proofs::lemmas::Bool::Decides::nat_tests), unfolding(crate::specs::JudgeStates::reading_of))]
    pub(crate) fn next_judge(self, b: u8) -> Judge
        ensures { reading_of result ≡ pick (eqb b 10) start (met (reading_of self) b) }
    {
        if b == b'\n' {
            return Judge::Start;
        }
        self.judge_byte(b)
    }

    // Why a row is refused that is not the one due.
    #[tactic(auto, unfolding(crate::specs::Comparing::rows_number))]
    pub(crate) fn row_reason(self) -> Reason
        ensures { number_of result ≡ rows_number (reading_of self) }
    {
        if self.in_form() {
            return Reason::WrongRow;
        }
        Reason::NotARow
    }

    // Whether nothing of a row was read.
    #[tactic(auto, using(crate::specs::ComparingStates::begun_lem), unfolding(crate::specs::Comparing::is_start, crate::specs::JudgeStates::reading_of))]
    pub(crate) fn is_start(self) -> bool
        ensures { result ≡ is_start (reading_of self) }
    {
        matches!(self, Judge::Start)
    }
}
