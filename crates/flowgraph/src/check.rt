// A graph that came from elsewhere, beside its listing.
// Kept: C lends the tables one by one.
ghost use Rattle.passes.specs.TableForms.{sizes_of};
ghost use Rattle.flowgraph.specs.CheckNumbers.{CheckNumbered};

use c_answers::build::number_of_done;
use checking::check::check_graph;
use printing::list::MAX_PRINTED;

// `check_graph` for C: 0 where the graph is the listing's, or the refusal's number and its place.
#[unsafe(no_mangle)]
pub extern "C" fn flow_check(
    text: &[u8],
    graph: &[u8],
    counts: &mut [u32; 6],
    lines: &mut [u16],
    stmts: &mut [u16],
    args: &mut [u64],
    entries: &mut [u16],
    falls: &mut [u16],
    links: &mut [u16],
    lists: &mut [u16],
    returns: &mut [u16],
    succ: &mut [u16],
    pred: &mut [u16],
    page: &mut [u8; MAX_PRINTED],
    place: &mut [usize; 1],
) -> u8
    ensures { CheckNumbered text.now graph.now (sizes_of lines.old stmts.old args.old entries.old falls.old links.old lists.old returns.old succ.old pred.old) counts.new lines.new stmts.new args.new entries.new falls.new links.new lists.new returns.new succ.new pred.new page.old page.new result place.new }
{
    let verdict = check_graph(
        text, graph, counts, lines, stmts, args, entries, falls, links, lists, returns, succ, pred,
        page,
    );
    number_of_done(verdict, place)
}
