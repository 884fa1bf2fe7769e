// The statement at a path, and a node's statement. Nothing is assumed of the tables.
ghost use Rattle.std.specs.Prelude.{◌≡◌, ◌*◌, ◌≤◌, ◌<◌, length};
ghost use Rattle.layout.specs.declared.columns.TheConstants.{STMT_ENTRIES};
ghost use Rattle.tables.specs.Columns.{holder_of, index_of, line_of, word_of};
ghost use Rattle.tables.specs.OneMore.{one_more};
ghost use Rattle.tables.specs.Told.{told};
ghost use Rattle.statements.specs.StatementWords.{no_statement_word};
ghost use Rattle.statements.specs.StatementAt.{branching_word, record_outside, stands_at, child_at, statement_from, stmt_at, path_statement, climb as climbed, no_statement, no_statement_in, refused_by, node_statement};

use layout::columns::{HOLDER, INDEX, LINE, STMT_ENTRIES, WORD};
use layout::limits::MAX_DEPTH;
use layout::refusals::{Reason, Refusal};
use layout::words::{IF, IFELSE, LINE as LINE_WORD, MODULE, PLAIN, RCOMP, STMTS, TO};
use tables::counts::Counts;

// Whether a statement with this opening word holds others.
#[tactic(auto, unfolding(crate::specs::StatementAt::branching_word))]
fn is_branching(word: u16) -> bool
    ensures { result ≡ branching_word word }
{
    matches!(word, IF | IFELSE | RCOMP)
}

// Whether no statement opens with this word: PLAIN is the last of the 28.
#[tactic(auto, unfolding(crate::specs::StatementWords::no_statement_word))]
fn no_statement_word(word: u16) -> bool
    ensures { result ≡ no_statement_word word }
{
    matches!(word, MODULE | LINE_WORD | TO | STMTS) || PLAIN < word
}

// The records of n statements that stand on so many lines.
// Kept: not `Records`, whose nodes are no more than a graph has: these may be.
#[derive(Clone, Copy)]
struct Statements<'a> {
    lines: usize,
    stmts: &'a [u16],
    n: usize,
    ghost rows: { n * STMT_ENTRIES ≤ length stmts.now },
}

impl<'a> Statements<'a> {
    // The number of node i's opening word.
    // Kept: this and those below read one column each, of a node: by `tables::nodes::entry`, of any number (proved, six
    // lines fewer), `flowask` took 9 % more instructions on its stored questions; an `entry` of their own, as `Records`
    // has, would be a contract more.
    #[tactic(auto, unfolding(tables::specs::Columns::word_of))]
    fn word(&self, i: usize) -> u16
        requires { i < self.now.n }
        ensures { result ≡ word_of self.now.stmts.now i }
    {
        self.stmts[i * STMT_ENTRIES + WORD]
    }

    // The index of the line that it stands in.
    fn line(&self, i: usize) -> usize
        requires { i < self.now.n }
        ensures { result ≡ line_of self.now.stmts.now i }
    {
        usize::from(self.stmts[i * STMT_ENTRIES + LINE])
    }

    // One more than the IF that holds it, or 0.
    // Kept: the number: `stands_at` compares it, `holder` alone takes it apart.
    fn held_by(&self, i: usize) -> usize
        requires { i < self.now.n }
        ensures { result ≡ holder_of self.now.stmts.now i }
    {
        usize::from(self.stmts[i * STMT_ENTRIES + HOLDER])
    }

    // The IF itself, or none.
    fn holder(&self, i: usize) -> Option<usize>
        requires { i < self.now.n }
        ensures { one_more result ≡ holder_of self.now.stmts.now i }
    {
        self.held_by(i).checked_sub(1)
    }

    // The last number of its path.
    fn index(&self, i: usize) -> u16
        requires { i < self.now.n }
        ensures { result ≡ index_of self.now.stmts.now i }
    {
        self.stmts[i * STMT_ENTRIES + INDEX]
    }

    // Whether the record of node i points outside: its word opens no statement, or its line index is none of the lines.
    #[tactic(auto, unfolding(crate::specs::StatementAt::record_outside))]
    fn record_outside(&self, i: usize) -> bool
        requires { i < self.now.n }
        ensures { result ≡ record_outside self.now.lines self.now.stmts.now i }
    {
        no_statement_word(self.word(i)) || self.lines <= self.line(i)
    }

    // Whether node i has that number under its holder, as a record says it: one more than an IF, or 0 for the line.
    // Kept: that number and no `Option`, by which path questions take 1.8 times as many instructions.
    #[tactic(auto, unfolding(crate::specs::StatementAt::stands_at, crate::specs::StatementAt::held_in))]
    fn stands_at(&self, i: usize, line: usize, holder: usize, index: u16) -> bool
        requires { (i < self.now.n) × (holder ≤ self.now.n) }
        ensures { result ≡ stands_at self.now.stmts.now line holder index i }
    {
        if self.held_by(i) != holder || self.index(i) != index {
            return false;
        }
        match holder.checked_sub(1) {
            None => self.line(i) == line,
            Some(held) => is_branching(self.word(held)),
        }
    }

    // The first node that stands there.
    fn find(&self, line: usize, holder: Option<usize>, index: u16) -> Option<usize>
        requires { one_more holder ≤ self.now.n }
        ensures { one_more result ≡ child_at self.now.stmts.now self.now.n line (one_more holder) index }
    {
        let number = holder.map_or(0, |node| node + 1);
        (0..self.n).find(|&i| self.stands_at(i, line, number, index))
    }

    // The node, if there is one, and the number of its opening word.
    fn state(&self, at: Option<usize>) -> Result<(usize, usize), Refusal>
        requires { one_more at ≤ self.now.n }
        ensures { told result ≡ stmt_at self.now.stmts.now (one_more at) }
    {
        let node = at.ok_or(Reason::NoStatement.at(0))?;
        Ok((node, usize::from(self.word(node))))
    }

    // Down from the line, number by number; each record is read before what it holds.
    fn follow(&self, line: usize, path: &[u16]) -> Result<(usize, usize), Refusal>
        ensures { told result ≡ statement_from self.now.lines self.now.stmts.now self.now.n line 0 path.now }
    {
        let mut at = None;
        for &index in path {
            let node = self.find(line, at, index).ok_or(Reason::NoStatement.at(0))?;
            if self.record_outside(node) {
                return Err(Reason::Outside.at(0));
            }
            at = Some(node);
        }
        self.state(at)
    }

    // Whether a record with that holder gives a path, or the refusal. Up from holder to holder, `MAX_DEPTH` of them at
    // most.
    // Kept: a `while`: `iter::successors` asks for the next holder before the loop sees whether this one is a node,
    // and has a record.
    fn climb(&self, holder: Option<usize>) -> Result<(), Refusal>
        ensures { told result ≡ refused_by (climbed self.now.lines self.now.stmts.now self.now.n MAX_DEPTH (one_more holder)) }
    {
        let mut at = holder;
        let mut left: usize = MAX_DEPTH;
        while let Some(node) = at {
            if self.n <= node || self.record_outside(node) {
                return Err(Reason::Outside.at(0));
            }
            if left == 0 || !is_branching(self.word(node)) {
                return Err(Reason::NoStatement.at(0));
            }
            at = self.holder(node);
            left -= 1;
        }
        Ok(())
    }

    // Whether the record of a node is a statement's and has a path, or the refusal.
    fn check_record(&self, node: usize) -> Result<(), Refusal>
        requires { node < self.now.n }
        ensures { told result ≡ refused_by (no_statement self.now.lines self.now.stmts.now self.now.n node) }
    {
        if self.record_outside(node) {
            return Err(Reason::Outside.at(0));
        }
        self.climb(self.holder(node))
    }
}

// The statement at a path, a line index and numbers: its node and the number of its opening word.
pub fn ask_path(
    counts: &[u32; 6],
    stmts: &[u16],
    line: usize,
    path: &[u16],
) -> Result<(usize, usize), Refusal>
    ensures { told result ≡ path_statement counts.now stmts.now line path.now }
{
    let used = Counts(counts);
    let lines = used.lines();
    let n = used.nodes();
    if stmts.len() < n * STMT_ENTRIES {
        return Err(Reason::Outside.at(0));
    }
    if lines <= line {
        return Err(Reason::NoStatement.at(0));
    }
    Statements { lines, stmts, n }.follow(line, path)
}

// Whether the record of any node of any table is a statement's and has a path: refused 25 where n statements have no
// record of it there. By division, so that no product can wrap.
pub fn no_statement(lines: usize, stmts: &[u16], n: usize, node: usize) -> Result<(), Refusal>
    ensures { told result ≡ refused_by (no_statement_in lines stmts.now n node) }
{
    if n <= node || stmts.len() / STMT_ENTRIES < n {
        return Err(Reason::Outside.at(0));
    }
    Statements { lines, stmts, n }.check_record(node)
}

// A node's statement, if its record has a path: the node itself, and the number of its opening word.
// Kept: the length is tested here and in `ask_path`: one function that answers the `Statements` or the refusal would be
// longer than these lines.
pub fn ask_statement(
    counts: &[u32; 6],
    stmts: &[u16],
    node: usize,
) -> Result<(usize, usize), Refusal>
    ensures { told result ≡ node_statement counts.now stmts.now node }
{
    let used = Counts(counts);
    let n = used.nodes();
    if n <= node {
        return Err(Reason::NoNode.at(node));
    }
    if stmts.len() < n * STMT_ENTRIES {
        return Err(Reason::Outside.at(0));
    }
    let lines = used.lines();
    let statements = Statements { lines, stmts, n };
    statements.check_record(node)?;
    Ok((node, usize::from(statements.word(node))))
}
