// Whether the tables that a graph is written from can be read, whoever wrote them; where they cannot, it is refused 25.
ghost use Rattle.std.specs.Prelude.{◌≡◌, ◌+◌, ◌*◌, ◌≤◌, ◌<◌, length};
ghost use Rattle.tables.specs.Readable.{every_below};
ghost use Rattle.storing.specs.JoinedReturns.{set_readable, joined_return, joined_returns};
ghost use Rattle.storing.specs.StoredGraph.{returns_readable};
ghost use Rattle.storing.specs.FromSource.{SourceAnswered};

use crate::source::Source;
use layout::limits::{MAX_LINES, MAX_STMTS};
use layout::refusals::{Reason, Refusal};
use layout::words::RETURN;
use tables::readable::{ids_below, lists_readable};
use walks::readable::nodes_of;
use walks::sets::{Sets, WORDS, join_set, members, no_words};

// The set of node i is joined, where that is a RETURN.
#[tactic(auto, unfolding(crate::specs::JoinedReturns::joined_return, tables::specs::Columns::word_of, passes::specs::ReturnSets::set_of))]
fn join_return(sets: &Sets<'_>, i: usize, all: &mut [u64; WORDS])
    requires { i < sets.now.records.n }
    ensures { all.new ≡ joined_return sets.now.records.stmts.now sets.now.words.now i all.old }
{
    if sets.records.word(i) == RETURN {
        join_set(all, sets.of(i));
    }
}

// The sets of all RETURNs in one.
#[tactic(auto, using(crate::specs::JoinedReturns::join_next), unfolding(crate::specs::JoinedReturns::joined_returns))]
fn join_returns(sets: &Sets<'_>) -> [u64; WORDS]
    ensures { result ≡ joined_returns sets.now.records.stmts.now sets.now.words.now sets.now.records.n }
{
    let mut all = no_words();
    for i in 0..sets.records.n {
        join_return(sets, i, &mut all);
    }
    all
}

// Whether the sets of all RETURNs have ids of these nodes only. They are joined, so that only one is listed.
fn sets_readable(sets: &Sets<'_>, buffer: &mut [u16; MAX_STMTS]) -> bool
    ensures { result ≡ every_below (set_readable sets.now.records.stmts.now sets.now.words.now sets.now.records.n) sets.now.records.n }
{
    let all = join_returns(sets);
    let count = members(&all, buffer);
    ids_below(&buffer[..count], sets.records.n)
}

// With handlers the return targets, without them the sets.
// Kept: `handlers` says what the listing has, a word of the paper and of every definition here; an enum would be taken
// apart at each clause.
#[tactic(auto, unfolding(crate::specs::StoredGraph::returns_readable))]
fn returns_readable(
    handlers: bool,
    sets: &Sets<'_>,
    returns: &[u16],
    targets: usize,
    buffer: &mut [u16; MAX_STMTS],
) -> bool
    ensures { result ≡ returns_readable handlers sets.now.records.stmts.now sets.now.words.now sets.now.records.n returns.now targets }
{
    if handlers {
        return targets <= returns.len() && ids_below(&returns[..targets], sets.records.n);
    }
    sets_readable(sets, buffer)
}

// What a graph is written from, where the tables can be read: records, calls, lists in scratch, sets.
// Kept: `returns, targets` and no slice: that there are so many is part of what is asked, with handlers alone.
// Kept: tables one by one, as `write_graph` has them, its one caller.
// Kept: `handlers`, as `returns_readable`.
pub(crate) fn source_of<'a>(
    handlers: bool,
    stmts: &'a [u16],
    args: &[u64],
    falls: &'a [u16],
    links: &'a [u16],
    n: usize,
    rows: usize,
    lists: &[u16],
    scratch: &'a [u16],
    returns: &'a [u16],
    targets: usize,
    buffer: &mut [u16; MAX_STMTS],
) -> Result<Source<'a>, Refusal>
    ensures { SourceAnswered handlers stmts.now args.now falls.now links.now n rows lists.now scratch.now returns.now targets result }
{
    let outside = Reason::Outside.at(0);
    if MAX_LINES < rows || MAX_STMTS < targets || !lists_readable(lists, scratch, n) {
        return Err(outside);
    }
    let Some(nodes) = nodes_of(stmts, falls, links, n, args) else {
        return Err(outside);
    };
    let records = nodes.records;
    let words = args;
    let sets = Sets { records, words };
    if !returns_readable(handlers, &sets, returns, targets, buffer) {
        return Err(outside);
    }
    Ok(Source {
        handlers,
        nodes,
        rows,
        scratch,
        returns,
        targets,
    })
}
