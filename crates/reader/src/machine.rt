// The row machine: where reading stands, and what each row does to it.
ghost use Rattle.std.specs.Prelude.{◌≡◌, ◌+◌, ◌*◌, ◌≤◌, ◌<◌, ◌^◌, ◌/◌, ◌%◌, ◌&&◌, eqb, Ok};
ghost use Rattle.listings.specs.Read.{start};
ghost use Rattle.reader.specs.CodedRows.{place_number, cond_index, cond_by, is_second};
ghost use Rattle.reader.specs.Machine.{deepest, due, room, as_state, outside, moved, one_more, stepped, step_module, step_line, step_simple, step_cond, may_branch, is_complete, step_stmts, step_to, reason_at, end_of_stmts, step_end, step_row};

use super::rows::{Misfit, Position, Row, Which};
use layout::limits::{MAX_ARGS, MAX_DEPTH, MAX_LINES, MAX_STMTS};
use layout::refusals::Reason;
use tokens::numbers::ascends;
use tokens::words::Cond;

// An IF's word, and how many of its branches were read.
#[derive(Clone, Copy)]
pub(crate) struct Branches {
    pub(crate) word: Cond,
    pub(crate) read: u64,
    pub ghost two: { read ≤ 2 },
}

impl Branches {
    // Of an IF that begins.
    fn none(word: Cond) -> Branches
        ensures { (result.word ≡ word) × (result.read ≡ 0) }
    {
        Branches { word, read: 0 }
    }

    // May one more branch follow: IF has one, the others two.
    fn may_follow(self) -> bool
        ensures { result ≡ may_branch self.word self.read }
    {
        match self.word {
            Cond::If => self.read == 0,
            Cond::IfElse | Cond::Rcomp => self.read < 2,
        }
    }

    // Are the branches all that the word must have: IFELSE needs two.
    fn are_all(self) -> bool
        ensures { result ≡ is_complete self.word self.read }
    {
        match self.word {
            Cond::If => self.read == 1,
            Cond::IfElse => self.read == 2,
            Cond::Rcomp => self.read == 1 || self.read == 2,
        }
    }

    // While the next branch is read, as one digit to the base 8: twice the word's number, and 1 in a second branch.
    fn digit(self) -> u64
        ensures { (result ≡ cond_index self.word * 2 + self.read) × (result ≤ 6) }
    {
        self.word as u64 * 2 + self.read
    }

    // The same when that branch has ended.
    // Kept: by hand, and no `From<u64>`: it takes `digit` back and counts the branch that has ended; of numbers that
    // are no digit nothing is meant.
    fn behind(digit: u64) -> Branches
        ensures { (result.word ≡ cond_by (digit / 2)) × (result.read ≡ digit % 2 + 1) }
    {
        let word = match digit / 2 {
            0 => Cond::If,
            1 => Cond::IfElse,
            _ => Cond::Rcomp,
        };
        let read = digit % 2 + 1;
        Branches { word, read }
    }
}

// last: the last line's number. lines, stmts: how many were begun.
// depth, open_conds: the IFs in whose branches the next row stands, packed to the base 8, the innermost lowest.
// branches: of the IF whose branches are due; elsewhere none of an If.
// Kept: the open IFs as one number, as the state in specs/ has them (`open_conds`): of an array `state_of`, by which
// the clauses speak of a state, would have to leave out what stands above `depth`.
// Kept: `branches` beside the position; one that carried them could not be what a misfit names as due, and a second
// enum of the same five places without them would be its twin.
#[derive(Clone, Copy)]
pub(crate) struct State {
    pub(crate) position: Position,
    pub(crate) handlers: bool,
    pub(crate) last: Option<u16>,
    pub(crate) lines: usize,
    pub(crate) stmts: usize,
    pub(crate) depth: usize,
    pub(crate) open_conds: u64,
    pub(crate) branches: Branches,
    pub ghost shallow: { depth ≤ deepest position },
    pub ghost fits: { open_conds < 8 ^ depth },
}

impl State {
    ghost use Rattle.reader.specs.States.{state_of};

    // Before the first row.
    pub(crate) fn start() -> State
        ensures { state_of result ≡ as_state start }
    {
        State {
            position: Position::Begin,
            handlers: false,
            last: None,
            lines: 0,
            stmts: 0,
            depth: 0,
            open_conds: 0,
            branches: Branches::none(Cond::If),
        }
    }

    // Whether the next row stands there.
    pub(crate) fn is_at(&self, position: Position) -> bool
        ensures { result ≡ eqb (place_number self.now.position) (place_number position) }
    {
        self.position == position
    }

    // In which branch of the innermost open IF the next row stands.
    pub(crate) fn branch_open(&self) -> Which
        ensures { is_second result ≡ eqb (self.now.open_conds % 2) 1 }
    {
        if self.open_conds % 2 == 1 {
            return Which::Second;
        }
        Which::First
    }

    // Which branch of the IF whose branches are due comes next.
    pub(crate) fn branch_due(&self) -> Which
        ensures { is_second result ≡ eqb self.now.branches.read 1 }
    {
        if self.branches.read == 1 {
            return Which::Second;
        }
        Which::First
    }

    // A row is a form only where such a row is due.
    fn is_due(&self, position: Position) -> Result<(), Reason>
        ensures { result ≡ due (eqb (place_number self.now.position) (place_number position)) }
    {
        if self.is_at(position) {
            return Ok(());
        }
        Err(Reason::NotAForm)
    }

    // A branch is a form only where one is due.
    fn may_branch(&self) -> Result<(), Reason>
        ensures { result ≡ due (eqb (place_number self.now.position) 4 && may_branch self.now.branches.word self.now.branches.read) }
    {
        if self.is_at(Position::InCond) && self.branches.may_follow() {
            return Ok(());
        }
        Err(Reason::NotAForm)
    }

    // Whether there is room for one statement more; the reasons in the order of their numbers.
    fn has_room(&self) -> Result<(), Reason>
        ensures { result ≡ room (state_of self.now) }
    {
        if MAX_STMTS <= self.stmts {
            return Err(Reason::TooManyStatements);
        }
        if MAX_DEPTH < self.depth {
            return Err(Reason::TooDeep);
        }
        Ok(())
    }

    // Outside of all lines.
    fn outside(&mut self, position: Position)
        ensures { state_of self.new ≡ outside (state_of self.old) position }
    {
        self.depth = 0;
        self.open_conds = 0;
        self.moved(position, Branches::none(Cond::If));
    }

    // At another position, as deep as before.
    fn moved(&mut self, position: Position, branches: Branches)
        requires { self.old.depth ≤ deepest position }
        ensures { state_of self.new ≡ moved (state_of self.old) position branches.word branches.read }
    {
        self.position = position;
        self.branches = branches;
    }

    // With one statement more.
    fn one_more(&mut self, position: Position, word: Cond)
        requires { (self.old.stmts < MAX_STMTS) × (self.old.depth ≤ deepest position) }
        ensures { state_of self.new ≡ one_more (state_of self.old) position word }
    {
        self.stmts += 1;
        self.moved(position, Branches::none(word));
    }

    // The module's row comes first, and once.
    fn step_module(&mut self, h: bool) -> Result<(), Reason>
        ensures { stepped result (state_of self.new) ≡ step_module (state_of self.old) h }
    {
        self.is_due(Position::Begin)?;
        self.handlers = h;
        self.outside(Position::InModule);
        Ok(())
    }

    // A line above the last one; line 1,025 is one too many.
    fn step_line(&mut self, n: u16) -> Result<(), Reason>
        ensures { stepped result (state_of self.new) ≡ step_line (state_of self.old) n }
    {
        self.is_due(Position::InModule)?;
        if !ascends(self.last, n) {
            return Err(Reason::LineOrder);
        }
        if MAX_LINES <= self.lines {
            return Err(Reason::TooManyLines);
        }
        self.last = Some(n);
        self.lines += 1;
        self.outside(Position::InStmts);
        Ok(())
    }

    // A statement that holds none.
    fn step_simple(&mut self, count: usize) -> Result<(), Reason>
        ensures { stepped result (state_of self.new) ≡ step_simple (state_of self.old) count }
    {
        self.is_due(Position::InStmts)?;
        self.has_room()?;
        if MAX_ARGS < count {
            return Err(Reason::TooWide);
        }
        self.one_more(Position::InStmts, Cond::If);
        Ok(())
    }

    // An IF opens; its branches are due next.
    fn step_cond(&mut self, word: Cond) -> Result<(), Reason>
        ensures { stepped result (state_of self.new) ≡ step_cond (state_of self.old) word }
    {
        self.is_due(Position::InStmts)?;
        self.has_room()?;
        self.one_more(Position::InCond, word);
        Ok(())
    }

    // A branch opens: the IF goes to the packed shape until it ends.
    #[tactic(auto, using(crate::specs::MachineLaws::few_open))]
    fn step_stmts(&mut self) -> Result<(), Reason>
        ensures { stepped result (state_of self.new) ≡ step_stmts (state_of self.old) }
    {
        self.may_branch()?;
        let digit = self.branches.digit();
        self.moved(Position::InStmts, Branches::none(Cond::If));
        self.depth += 1;
        self.open_conds = digit + 8 * self.open_conds;
        Ok(())
    }

    // A branch that only names a line.
    fn step_to(&mut self) -> Result<(), Reason>
        ensures { stepped result (state_of self.new) ≡ step_to (state_of self.old) }
    {
        self.may_branch()?;
        let Branches { word, read } = self.branches;
        let read = read + 1;
        self.branches = Branches { word, read };
        Ok(())
    }

    // Why a row is refused here: for its own reason where it is due, and there only where a branch may follow. Outside
    // of branches none of an If were read, and one may.
    pub(crate) fn reason_at(&self, m: Misfit) -> Reason
        ensures { result ≡ reason_at (state_of self.now) m }
    {
        if !self.is_at(m.due) || !self.branches.may_follow() {
            return Reason::NotAForm;
        }
        m.reason
    }

    // `)` after statements: a line ends, or the innermost IF goes on.
    #[tactic(auto, using(crate::specs::MachineLaws::one_closed))]
    fn end_of_stmts(&mut self)
        ensures { Ok (state_of self.new) ≡ end_of_stmts (state_of self.old) }
    {
        if self.depth == 0 {
            self.outside(Position::InModule);
            return;
        }
        let branches = Branches::behind(self.open_conds % 8);
        self.depth -= 1;
        self.open_conds /= 8;
        self.moved(Position::InCond, branches);
    }

    // A `)`: of statements, of an IF with all its branches, or of the module.
    fn step_end(&mut self) -> Result<(), Reason>
        ensures { stepped result (state_of self.new) ≡ step_end (state_of self.old) }
    {
        match self.position {
            Position::InStmts => self.end_of_stmts(),
            Position::InCond if self.branches.are_all() => {
                self.moved(Position::InStmts, Branches::none(Cond::If));
            }
            Position::InModule => self.outside(Position::Ended),
            _ => return Err(Reason::NotAForm),
        }
        Ok(())
    }

    // What a row does, whatever it says.
    pub(crate) fn step_row(&mut self, row: Row) -> Result<(), Reason>
        ensures { stepped result (state_of self.new) ≡ step_row (state_of self.old) (Ok row) }
    {
        match row {
            Row::End => self.step_end(),
            Row::Stmts => self.step_stmts(),
            Row::Module(h) => self.step_module(h),
            Row::Line(n) => self.step_line(n),
            Row::To(_) => self.step_to(),
            Row::Simple { word: _, count } => self.step_simple(count),
            Row::Cond(word) => self.step_cond(word),
        }
    }
}
