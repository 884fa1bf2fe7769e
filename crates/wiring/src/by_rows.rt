// Where each RETURN goes back to, where all lists together are too long to store: regions by closed rows of bits in
// place of walks.
ghost use Rattle.wiring.specs.FromLeads.{FillReadyFrom, ReturnsByRowsFrom};

use crate::fill_rows::fill_rows;
use crate::leads::Leads;
use layout::limits::MAX_STMTS;
use walks::by_rows::return_edges_by_rows;

// The rows of arguments become rows of bits, closed, and then the RETURNs' rows their sets. What stood in the arguments
// is lost. That the tables can be read is proved, so what `return_edges_by_rows` answers is not looked at.
pub(crate) fn return_edges_by_filled_rows(
    g: &Leads<'_, '_>,
    args: &mut [u64],
    buffer: &mut [u16; MAX_STMTS],
)
    requires { FillReadyFrom g.now args.old MAX_STMTS }
    ensures { ReturnsByRowsFrom g.now args.old args.new }
{
    fill_rows(g, args, buffer);
    return_edges_by_rows(
        g.nodes.records.stmts,
        g.nodes.falls,
        g.nodes.links,
        g.nodes.records.n,
        args,
    );
}
