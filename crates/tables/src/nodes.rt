// What n nodes are and where they lead: tables that are read together, with what is known of their lengths. What is
// read of them is 0 where a table ends before it.
ghost use Rattle.std.specs.Prelude.{◌≡◌, ◌+◌, ◌*◌, ◌≤◌, ◌<◌, length, get_or, take, drop};
ghost use Rattle.layout.specs.declared.columns.TheConstants.{STMT_ENTRIES, FALL_ENTRIES, LINK_ENTRIES};
ghost use Rattle.layout.specs.declared.limits.TheConstants.{MAX_STMTS};
ghost use Rattle.tables.specs.OneMore.{one_more};

use layout::columns::{
    ARG_ENTRIES, COUNT, DETAIL, END, FALL_ENTRIES, HOLDER, INDEX, LINE, LINK_ENTRIES, SECOND,
    STMT_ENTRIES, WORD,
};
use layout::limits::MAX_STMTS;
use std::ops::Range;

// Entry k of a table, or 0 where the table ends before it.
pub fn entry(table: &[u16], k: usize) -> u16
    ensures { result ≡ get_or table.now k 0 }
{
    table.get(k).copied().unwrap_or(0)
}

// Where the words of node i stand in a table with 64 for each node: its links, its arguments or its set.
pub fn words_of(i: usize) -> Range<usize>
    ensures { i < MAX_STMTS → (result.start ≡ i * ARG_ENTRIES) × (result.end ≡ i * ARG_ENTRIES + ARG_ENTRIES) }
{
    let start = i.saturating_mul(ARG_ENTRIES);
    start..start.saturating_add(ARG_ENTRIES)
}

// The records of n statements.
// Kept: that i is one of the n nodes stands in contracts: a type of nodes would hold the records that it is one of, and
// loops over `0..n` would make each anew.
#[derive(Clone, Copy)]
pub struct Records<'a> {
    pub stmts: &'a [u16],
    pub n: usize,
    pub ghost few: { n ≤ MAX_STMTS },
    pub ghost rows: { n * STMT_ENTRIES ≤ length stmts.now },
}

impl<'a> Records<'a> {
    // Entry k of node i's record. Where i is a node, no end is tested: loops over nodes read as fast as by hand.
    fn entry(&self, i: usize, k: usize) -> u16
        requires { k < STMT_ENTRIES }
        ensures { result ≡ get_or self.now.stmts.now (i * STMT_ENTRIES + k) 0 }
    {
        if i < self.n {
            return self.stmts[i * STMT_ENTRIES + k];
        }
        entry(self.stmts, i.saturating_mul(STMT_ENTRIES).saturating_add(k))
    }

    // The number of node i's opening word.
    // Kept: this and those below are of one shape: each reads one column, by its name.
    pub fn word(&self, i: usize) -> u16
        ensures { result ≡ get_or self.now.stmts.now (i * STMT_ENTRIES) 0 }
    {
        self.entry(i, WORD)
    }

    // The index of the line that it stands in.
    pub fn line(&self, i: usize) -> usize
        ensures { result ≡ get_or self.now.stmts.now (i * STMT_ENTRIES + LINE) 0 }
    {
        usize::from(self.entry(i, LINE))
    }

    // The IF that holds it, or none.
    pub fn holder(&self, i: usize) -> Option<usize>
        ensures { one_more result ≡ get_or self.now.stmts.now (i * STMT_ENTRIES + HOLDER) 0 }
    {
        usize::from(self.entry(i, HOLDER)).checked_sub(1)
    }

    // The last number of its path.
    pub fn index(&self, i: usize) -> u16
        ensures { result ≡ get_or self.now.stmts.now (i * STMT_ENTRIES + INDEX) 0 }
    {
        self.entry(i, INDEX)
    }

    // The node behind all that it holds.
    pub fn end(&self, i: usize) -> usize
        ensures { result ≡ get_or self.now.stmts.now (i * STMT_ENTRIES + END) 0 }
    {
        usize::from(self.entry(i, END))
    }

    // The node behind the first branch of an IF, where a second one would begin.
    // Kept: the number: it is asked of an IF alone, and tested there whether it stands behind the IF, not past its end.
    pub fn second(&self, i: usize) -> usize
        ensures { result ≡ get_or self.now.stmts.now (i * STMT_ENTRIES + SECOND) 0 }
    {
        usize::from(self.entry(i, SECOND))
    }

    // How many arguments it has.
    pub fn count(&self, i: usize) -> usize
        ensures { result ≡ get_or self.now.stmts.now (i * STMT_ENTRIES + COUNT) 0 }
    {
        usize::from(self.entry(i, COUNT))
    }

    // Its tier or its mark, by its number.
    pub fn detail(&self, i: usize) -> u16
        ensures { result ≡ get_or self.now.stmts.now (i * STMT_ENTRIES + DETAIL) 0 }
    {
        self.entry(i, DETAIL)
    }

    // Where its arguments stand in a table with 64 entries for each node: as many as it has.
    pub fn args_of(&self, i: usize) -> Range<usize>
        ensures { i < self.now.n → (result.start ≡ i * ARG_ENTRIES) × (result.end ≡ i * ARG_ENTRIES + get_or self.now.stmts.now (i * STMT_ENTRIES + COUNT) 0) }
    {
        let start = i.saturating_mul(ARG_ENTRIES);
        start..start.saturating_add(usize::from(self.entry(i, COUNT)))
    }
}

// And where they fall, and where the numbers of their arguments lead.
#[derive(Clone, Copy)]
pub struct Nodes<'a> {
    pub records: Records<'a>,
    pub falls: &'a [u16],
    pub links: &'a [u16],
    pub ghost fall_rows: { records.n * FALL_ENTRIES ≤ length falls.now },
    pub ghost link_rows: { records.n * LINK_ENTRIES ≤ length links.now },
}

impl<'a> Nodes<'a> {
    // Where node i falls: one more than the node, or 0.
    // Kept: the number: most callers hand it on to `add_edge` or compare it as the tables have it; those few that take
    // it apart do so by `checked_sub(1)`.
    pub fn fall(&self, i: usize) -> u16
        ensures { result ≡ get_or self.now.falls.now (i * FALL_ENTRIES) 0 }
    {
        if i < self.records.n {
            return self.falls[i * FALL_ENTRIES];
        }
        entry(self.falls, i.saturating_mul(FALL_ENTRIES))
    }

    // Where the numbers of node i's arguments lead, for as many as it has; what there is of them where the table ends
    // before.
    pub fn targets(&self, i: usize) -> &'a [u16]
        ensures { result.now ≡ take (get_or self.now.records.stmts.now (i * STMT_ENTRIES + COUNT) 0) (drop (i * LINK_ENTRIES) self.now.links.now) }
    {
        let start = i.saturating_mul(LINK_ENTRIES).min(self.links.len());
        let end = start
            .saturating_add(self.records.count(i))
            .min(self.links.len());
        &self.links[start..end]
    }
}
