// The rows of arguments, filled with where the nodes step on a skipping path, for the closure.
ghost use Rattle.std.specs.Prelude.{◌≡◌, length, ◌<◌};
ghost use Rattle.graph_laws.specs.EdgeBounds.{Ids};
ghost use Rattle.passes.specs.Closure.{RowIs};
ghost use Rattle.passes.specs.FillRows.{in_pass};
ghost use Rattle.wiring.specs.Passes.{are_nexts};
ghost use Rattle.wiring.specs.FromLeads.{FillReadyFrom, PassFilledFrom, PassReadyFrom, RowFilledFrom, RowReadyFrom, RowsFilledFrom};

use crate::leads::Leads;
use crate::list_of::list_of;
use crate::skip_lists::skip_list;
use layout::limits::MAX_STMTS;
use layout::words::NEXT;
use tables::nodes::words_of;
use walks::sets::{WORDS, insert};

// The nodes of a list, and no others, as a row.
fn put_set(row: &mut [u64], list: &[u16])
    requires { (length row.old ≡ WORDS) × Ids MAX_STMTS list.now }
    ensures { RowIs list.now row.new }
{
    row.fill(0);
    for &id in list {
        insert(row, usize::from(id));
    }
}

// NEXTs are in one pass, all other nodes in the other.
// Kept: an enum and no closure: clauses of three functions say which pass it is (`are_nexts`); a closure's would have
// to hold for each test that answers as it does.
#[derive(Clone, Copy, Debug, PartialEq, Eq)]
pub(crate) enum Pass {
    Nexts,
    Others,
}

impl Pass {
    // Whether a node with that word is in it.
    #[tactic(auto, using(std::proofs::lemmas::Bool::Decides::nat_tests), unfolding(passes::specs::FillRows::in_pass))]
    fn has(self, word: u16) -> bool
        ensures { result ≡ in_pass (are_nexts self) word }
    {
        match self {
            Pass::Nexts => word == NEXT,
            Pass::Others => word != NEXT,
        }
    }
}

// Row i becomes the set of its skip list, in the pass that it belongs to.
fn fill_row(g: &Leads<'_, '_>, args: &mut [u64], i: usize, pass: Pass, part: &mut [u16; MAX_STMTS])
    requires in_bounds { i < g.now.nodes.records.n }
    requires ready { RowReadyFrom g.now args.old i (are_nexts pass) MAX_STMTS }
    ensures { RowFilledFrom g.now args.old i (are_nexts pass) args.new }
{
    if !pass.has(g.nodes.records.word(i)) {
        return;
    }
    let count = list_of(g, args, i, part);
    let kept = skip_list(g, i, part, count);
    put_set(&mut args[words_of(i)], &part[..kept]);
}

// All rows of one pass: those of the NEXTs, or all others.
fn fill_pass(g: &Leads<'_, '_>, args: &mut [u64], pass: Pass, part: &mut [u16; MAX_STMTS])
    requires { PassReadyFrom g.now args.old (are_nexts pass) MAX_STMTS }
    ensures { PassFilledFrom g.now args.old (are_nexts pass) g.now.nodes.records.n args.new }
{
    for i in 0..g.nodes.records.n {
        fill_row(g, args, i, pass, part);
    }
}

// The NEXTs come first: their lists read their own arguments and the names of FORs.
pub(crate) fn fill_rows(g: &Leads<'_, '_>, args: &mut [u64], part: &mut [u16; MAX_STMTS])
    requires { FillReadyFrom g.now args.old MAX_STMTS }
    ensures { RowsFilledFrom g.now args.old args.new }
{
    fill_pass(g, args, Pass::Nexts, part);
    fill_pass(g, args, Pass::Others, part);
}
