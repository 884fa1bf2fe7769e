// Where each RETURN goes back to, by rows of bits: regions by closed rows in place of walks.
ghost use Rattle.std.specs.Prelude.{◌≡◌, ◌*◌, ◌≤◌, ◌<◌, length, take};
ghost use Rattle.passes.specs.ByRows.{ByRowsAnswered};
ghost use Rattle.walks.specs.FromListed.{ByRowsReadyFrom};
ghost use Rattle.walks.specs.FromNodes.{CallsReadFrom, EntryByRowsFrom, EntriesByRowsFrom};

use crate::clearing::clear_returns;
use crate::closure::{close_rows, list_row};
use crate::readable::nodes_of;
use crate::regions::join_region;
use crate::sets::{Sets, WORDS};
use crate::spans::{Calls, no_spans};
use layout::limits::MAX_STMTS;
use layout::zeroing::all_of;
use tables::nodes::Nodes;

// The entry e, if it is called: its region by its closed row, listed in `work`.
// Kept: only the list differs from regions::join_called, but a closure for it would have to take the rows, which are
// written meanwhile and which a walk does not read.
fn join_by_rows(
    g: &Nodes<'_>,
    calls: &Calls<'_>,
    e: usize,
    work: &mut [u16; MAX_STMTS],
    rows: &mut [u64],
)
    requires { ByRowsReadyFrom g.now calls.now rows.old × (e < g.now.records.n) }
    ensures { EntryByRowsFrom g.now e rows.old rows.new }
{
    let Some(called) = calls.of_entry(e) else {
        return;
    };
    let records = g.records;
    let list = list_row(
        &Sets {
            records,
            words: rows,
        },
        e,
        work,
    );
    join_region(g, called, e, list, rows);
}

// All called entries.
// Kept: alike with regions::join_entries is the `for` alone; a closure in place of the call would hold `work` and
// `rows`, which are written.
fn join_entries_by_rows(
    g: &Nodes<'_>,
    calls: &Calls<'_>,
    work: &mut [u16; MAX_STMTS],
    rows: &mut [u64],
)
    requires { ByRowsReadyFrom g.now calls.now rows.old }
    ensures { EntriesByRowsFrom g.now g.now.records.n rows.old rows.new }
{
    for e in 0..g.records.n {
        join_by_rows(g, calls, e, work, rows);
    }
}

// All entries of all calls: where the rows of nodes that are no RETURN are closed, the sets of RETURNs grow.
// Kept: alike with regions::join_regions are the arrays alone, as there.
fn join_regions_by_rows(g: &Nodes<'_>, rows: &mut [u64])
    requires { CallsReadFrom g.now × (g.now.records.n * WORDS ≤ length rows.old) }
    ensures { EntriesByRowsFrom g.now g.now.records.n rows.old rows.new }
{
    let mut list = all_of::<u16, MAX_STMTS>(0);
    let mut spans = no_spans();
    let calls = Calls::among(g, &mut list, &mut spans);
    let mut work = all_of::<u16, MAX_STMTS>(0);
    join_entries_by_rows(g, &calls, &mut work, rows);
}

// A row of bits for each of n nodes says where it leads; that of a RETURN becomes its set, where it goes back to, and
// any other all that can be reached from it. Answers whether the tables can be read; where they cannot, nothing is
// written.
// Kept: tables one by one, and a `bool`, as regions::region_return_edges; the reasons stand there.
pub fn return_edges_by_rows<'a>(
    stmts: &'a [u16],
    falls: &'a [u16],
    links: &'a [u16],
    n: usize,
    rows: &mut [u64],
) -> bool
    ensures { ByRowsAnswered stmts.now falls.now links.now n rows.old rows.new result }
{
    let Some(nodes) = nodes_of(stmts, falls, links, n, rows) else {
        return false;
    };
    clear_returns(&nodes.records, rows);
    close_rows(rows, n);
    join_regions_by_rows(&nodes, rows);
    true
}
