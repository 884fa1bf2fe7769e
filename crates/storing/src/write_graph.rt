// The graph goes into its tables.
ghost use Rattle.std.specs.Prelude.{◌≡◌, ◌<◌, length, set};
ghost use Rattle.storing.specs.StoredGraph.{EdgesStored, GraphAnswered};
ghost use Rattle.storing.specs.FromSource.{lists_from, GraphReadFrom, GraphReadyFrom, GraphStoredFrom, AnsweredFrom};

use crate::edge_count::{count_lists, edges_fit};
use crate::final_lists::write_lists;
use crate::predecessors::write_predecessors;
use crate::readable::source_of;
use crate::source::Source;
use layout::columns::{EDGE_COUNT, ROW_COUNT, TARGET_COUNT};
use layout::limits::MAX_STMTS;
use layout::refusals::{Reason, Refusal};
use layout::zeroing::all_of;
use walks::clearing::clear_sets;

// The successor lists, then the predecessor lists; how many edges there are.
// Kept: tables that are written go one by one; of a struct of `&mut` a clause names what is left behind it by nested
// pairs.
fn write_edges(
    source: &Source<'_>,
    args: &[u64],
    lists: &mut [u16],
    succ: &mut [u16],
    pred: &mut [u16],
    buffer: &mut [u16; MAX_STMTS],
) -> usize
    requires { GraphReadyFrom source.now args.now lists.old (length succ.old) (length pred.old) }
    ensures { EdgesStored source.now.nodes.records.n lists.old lists.new succ.old succ.new pred.old pred.new (lists_from source.now args.now lists.old) result }
{
    let total = write_lists(source, args, lists, succ, buffer);
    write_predecessors(&succ[..total], lists, source.nodes.records.n, pred);
    total
}

// The counts that are not the reader's, which stand behind its own.
fn put_edge_counts(counts: &mut [u32; 6], edges: usize, targets: usize, rows: usize)
    requires { (edges < 65536) × (targets < 65536) × (rows < 65536) }
    ensures { counts.new ≡ set (set (set counts.old EDGE_COUNT edges) TARGET_COUNT targets) ROW_COUNT rows }
{
    counts[EDGE_COUNT..].copy_from_slice(&[edges as u32, targets as u32, rows as u32]);
}

// The lists, both ways, and the counts; the RETURNs' sets are cleared.
// Kept: tables that are written go one by one, as above.
fn write_tables(
    source: &Source<'_>,
    args: &mut [u64],
    counts: &mut [u32; 6],
    lists: &mut [u16],
    succ: &mut [u16],
    pred: &mut [u16],
    buffer: &mut [u16; MAX_STMTS],
)
    requires { GraphReadyFrom source.now args.old lists.old (length succ.old) (length pred.old) }
    ensures { GraphStoredFrom source.now args.old counts.old lists.old succ.old pred.old counts.new args.new lists.new succ.new pred.new }
{
    let total = write_edges(source, args, lists, succ, pred, buffer);
    let records = &source.nodes.records;
    clear_sets(records.stmts, args, records.n);
    put_edge_counts(counts, total, source.targets, source.rows);
}

// From tables that can be read: the edges are counted first, and nothing is written where they do not fit.
// Kept: tables that are written go one by one, as above.
fn write_fitting(
    source: &Source<'_>,
    args: &mut [u64],
    counts: &mut [u32; 6],
    lists: &mut [u16],
    succ: &mut [u16],
    pred: &mut [u16],
    buffer: &mut [u16; MAX_STMTS],
) -> Result<usize, Refusal>
    requires { GraphReadFrom source.now args.old lists.old }
    ensures { AnsweredFrom source.now args.old counts.old lists.old succ.old pred.old counts.new args.new lists.new succ.new pred.new result }
{
    let edges = count_lists(source, args, lists, buffer);
    if !edges_fit(edges, succ.len(), pred.len()) {
        return Err(Reason::EdgeTables.at(edges));
    }
    write_tables(source, args, counts, lists, succ, pred, buffer);
    Ok(edges)
}

// The graph of n nodes and so many rows of entries goes into its tables; how many edges it has. A RETURN's list from
// the return targets or its set, a call's from its targets, any other's from scratch, where its row says. Refused 25
// where the tables cannot be read, 23 where the edges do not fit; then nothing is written.
// Kept: tables one by one: `Nodes` and `Source` have as their invariant what is tested here, and a plain struct would
// be filled from a `Nodes` by the caller, one by one too.
// Kept: `handlers`, as `readable::returns_readable`.
pub fn write_graph<'a>(
    handlers: bool,
    stmts: &'a [u16],
    args: &mut [u64],
    falls: &'a [u16],
    links: &'a [u16],
    n: usize,
    rows: usize,
    counts: &mut [u32; 6],
    lists: &mut [u16],
    scratch: &'a [u16],
    returns: &'a [u16],
    targets: usize,
    succ: &mut [u16],
    pred: &mut [u16],
) -> Result<usize, Refusal>
    ensures { GraphAnswered handlers stmts.now args.old falls.now links.now n rows counts.old lists.old scratch.now returns.now targets succ.old pred.old counts.new args.new lists.new succ.new pred.new result }
{
    let mut buffer = all_of::<u16, MAX_STMTS>(0);
    let source = source_of(
        handlers,
        stmts,
        args,
        falls,
        links,
        n,
        rows,
        lists,
        scratch,
        returns,
        targets,
        &mut buffer,
    )?;
    write_fitting(&source, args, counts, lists, succ, pred, &mut buffer)
}
