// Frames and dispatched FORs; then the lists of the nodes: counted, and written where they fit.
ghost use Rattle.wiring.specs.Wiring.{WireReady, WiredTo};
ghost use Rattle.wiring.specs.FromLeads.{CountReadyFrom, CountedFrom, FramesIn, ReturnsFoundFrom, ReturnsReadyFrom};

use crate::by_rows::return_edges_by_filled_rows;
use crate::entries::Entries;
use crate::frames::stack_frames;
use crate::leads::{Frame, Leads};
use crate::return_targets::list_return_targets;
use crate::skip_lists::{SCRATCH, store_skip_lists};
use layout::limits::{MAX_EDGES, MAX_STMTS};
use layout::refusals::{Reason, Refusal};
use layout::zeroing::all_of;
use storing::edge_count::edges_fit;
use storing::write_graph::write_graph;
use tables::nodes::{Nodes, Records};
use walks::lists::list_dispatched;
use walks::regions::region_return_edges;
use walks::return_totals::count_returns;

// How many edges the graph has, and how many return targets.
#[derive(Drop)]
struct Counted {
    edges: usize,
    targets: usize,
}

// Without handlers, the set of each RETURN goes into its row of arguments: by walks over the stored lists, or where
// these are too long, by rows of bits. All other nodes have `own` edges. That the tables can be read is proved, so what
// `region_return_edges` answers is not looked at.
// Kept: `handlers` says what the listing has, a word of the paper and of every definition here; an enum would be taken
// apart at each clause.
fn find_returns(
    g: &Leads<'_, '_>,
    handlers: bool,
    own: usize,
    args: &mut [u64],
    lists: &[u16],
    scratch: &[u16; SCRATCH],
    buffer: &mut [u16; MAX_STMTS],
)
    requires { ReturnsReadyFrom g.now own args.old lists.now scratch.now MAX_STMTS }
    ensures { ReturnsFoundFrom g.now handlers own args.old lists.now scratch.now args.new }
{
    if handlers {
        return;
    }
    if MAX_EDGES < own {
        return_edges_by_filled_rows(g, args, buffer);
        return;
    }
    region_return_edges(
        g.nodes.records.stmts,
        g.nodes.falls,
        g.nodes.links,
        lists,
        scratch,
        g.nodes.records.n,
        args,
    );
}

// The edges of all nodes, RETURNs too, and the return targets.
// Kept: `handlers`, as above; tables that are written go one by one, as in `wire_lists`.
fn count_graph(
    g: &Leads<'_, '_>,
    handlers: bool,
    args: &mut [u64],
    lists: &mut [u16],
    scratch: &mut [u16; SCRATCH],
    returns: &mut [u16],
    buffer: &mut [u16; MAX_STMTS],
) -> Counted
    requires { CountReadyFrom g.now handlers args.old lists.old scratch.old returns.old MAX_STMTS }
    ensures { CountedFrom g.now handlers args.old args.new lists.new scratch.new returns.new result.edges result.targets }
{
    let own = store_skip_lists(g, args, lists, scratch, buffer);
    let targets = list_return_targets(g, returns);
    find_returns(g, handlers, own, args, lists, scratch, buffer);
    let back = count_returns(
        handlers,
        g.nodes.records.stmts,
        args,
        g.nodes.records.n,
        targets,
    );
    Counted {
        edges: own + back,
        targets,
    }
}

// The lists of all nodes. The tables are a listing's and the edges are counted before, so writing is never refused.
// Kept: the answer of `write_graph` goes by `let _`: that it is `Ok` is proved; tried by a `match`, in every branch it
// had to be shown again that each table keeps its length.
// Kept: tables that are written go one by one; of a struct of `&mut` a clause names what is left behind it by nested
// pairs.
// Kept: `handlers`, as above.
fn wire_lists(
    g: &Leads<'_, '_>,
    handlers: bool,
    counts: &mut [u32; 6],
    args: &mut [u64],
    lists: &mut [u16],
    returns: &mut [u16],
    succ: &mut [u16],
    pred: &mut [u16],
) -> Result<(), Refusal>
    requires wire_ready { WireReady handlers g.now.entries.count g.now.nodes.records.n counts.old g.now.nodes.records.stmts.now args.old g.now.entries.rows.now g.now.nodes.falls.now g.now.nodes.links.now lists.old returns.old succ.old pred.old }
    requires frames_made { FramesIn g.now }
    ensures { WiredTo handlers g.now.entries.count g.now.nodes.records.n g.now.nodes.records.stmts.now args.old g.now.entries.rows.now g.now.nodes.falls.now g.now.nodes.links.now counts.old succ.old pred.old counts.new args.new lists.new returns.new succ.new pred.new result }
{
    let mut scratch = all_of::<u16, SCRATCH>(0);
    // room for one list
    let mut buffer = all_of::<u16, MAX_STMTS>(0);
    let c = count_graph(g, handlers, args, lists, &mut scratch, returns, &mut buffer);
    if edges_fit(c.edges, succ.len(), pred.len()) {
        let _ = write_graph(
            handlers,
            g.nodes.records.stmts,
            args,
            g.nodes.falls,
            g.nodes.links,
            g.nodes.records.n,
            g.entries.count,
            counts,
            lists,
            &scratch,
            returns,
            c.targets,
            succ,
            pred,
        );
        return Ok(());
    }
    Err(Reason::EdgeTables.at(c.edges))
}

// The lists of all nodes. Their frames and dispatched FORs are in arrays of its own, since nothing else reads them.
// Kept: tables that are written go one by one, as above; of the four that are read, three would be a `Nodes`, which the
// borrow checker does not cover where the caller makes it (tried): its records and its tables are lent there for
// lifetimes of their own.
// Kept: `handlers`, as above.
pub(crate) fn wire_graph<'a>(
    r: &Records<'a>,
    w: &Entries<'a>,
    falls: &'a [u16],
    links: &'a [u16],
    handlers: bool,
    counts: &mut [u32; 6],
    args: &mut [u64],
    lists: &mut [u16],
    returns: &mut [u16],
    succ: &mut [u16],
    pred: &mut [u16],
) -> Result<(), Refusal>
    requires { WireReady handlers w.now.count r.now.n counts.old r.now.stmts.now args.old w.now.rows.now falls.now links.now lists.old returns.old succ.old pred.old }
    ensures { WiredTo handlers w.now.count r.now.n r.now.stmts.now args.old w.now.rows.now falls.now links.now counts.old succ.old pred.old counts.new args.new lists.new returns.new succ.new pred.new result }
{
    let mut frames = all_of::<Frame, MAX_STMTS>(Frame::default());
    let mut buffer = all_of::<u16, MAX_STMTS>(0);
    stack_frames(r, &mut frames);
    let records = *r;
    let nodes = Nodes {
        records,
        falls,
        links,
    };
    let m = list_dispatched(&nodes, &mut buffer);
    let entries = *w;
    let leads = Leads {
        nodes,
        entries,
        frames: &frames,
        dispatched: &buffer[..m],
    };
    wire_lists(&leads, handlers, counts, args, lists, returns, succ, pred)
}
