// What later nodes add to a node's list: where the closer of its frame falls, and where the ELSEs of a DOIF fall.
// Kept: contracts ask for room (`Fits`), though `NodeList` needs none: each of `add_elses` and `add_doif` promises that
// the list still fits (`ElsesMade`, `DoifMade`), and the tables' facts have to be asked for all the same, since without
// the order of the ELSEs `add_elses` would not end.
ghost use Rattle.std.specs.Prelude.{◌≡◌, length, ◌<◌};
ghost use Rattle.passes.specs.Closing.{ElsesFit, DoifFits, joins_word, closer_from, ClosingReady};
ghost use Rattle.wiring.specs.FromLeads.{frames_of};
ghost use Rattle.wiring.specs.OnLists.{Fits, ElsesMade, DoifMade, ClosingMade};
ghost use Rattle.storing.specs.NodeLists.{AddedTo};
ghost use Rattle.tables.specs.OneMore.{one_more};

use crate::leads::Leads;
use layout::words::{DOIF, ELSE, EXIT, EXITIF};
use storing::growing::NodeList;

// Adds where the ELSEs fall that are linked from the ELSE `first` on.
// Kept: a `while let`; tried as a `for` over `std::iter::successors`: its proof has to show first that no later call of
// the closure can fail, and nothing reads plainer.
fn add_elses(list: &mut NodeList<'_>, g: &Leads<'_, '_>, first: Option<usize>)
    requires { Fits list.old × ElsesFit (frames_of g.now) g.now.nodes.falls.now (length list.old.part.now) (one_more first) }
    ensures { ElsesMade g.now.nodes.falls.now (frames_of g.now) (one_more first) list.old list.new }
{
    let mut next = first;
    while let Some(j) = next {
        list.add_edge(g.nodes.fall(j));
        next = g.next_else(j);
    }
}

// A DOIF goes to where its ELSEs fall; where its DONE falls if it has none.
fn add_doif(list: &mut NodeList<'_>, g: &Leads<'_, '_>, i: usize)
    requires { Fits list.old × DoifFits g.now.nodes.falls.now (frames_of g.now) (length list.old.part.now) i }
    ensures { DoifMade g.now.nodes.falls.now (frames_of g.now) i list.old list.new }
{
    match g.next_else(i) {
        None => list.add_edge(g.fall_of(g.closer(i))),
        first => add_elses(list, g, first),
    }
}

// Where the closer of the frame of that opener falls, if there is one.
fn add_closer(list: &mut NodeList<'_>, g: &Leads<'_, '_>, opener: Option<usize>)
    ensures { AddedTo list.old list.new (closer_from g.now.nodes.falls.now (frames_of g.now) (one_more opener)) }
{
    if let Some(o) = opener {
        list.add_edge(g.fall_of(g.closer(o)));
    }
}

// The words that go to where the closer of their frame falls.
// Kept: a test of its own, since the laws of what it adds (`closing-joined`, `closing-none`) go by `joins_word`; tried
// as arms of the match, which its proof has to take apart into ranges of words again, in four goals.
#[tactic(auto, using(std::proofs::lemmas::Bool::Decides::nat_tests), unfolding(passes::specs::Closing::joins_word))]
fn joins_frame(word: u16) -> bool
    ensures { result ≡ joins_word word }
{
    matches!(word, EXIT | EXITIF | ELSE)
}

// Adds what later nodes add to node i's list.
pub(crate) fn add_closing(list: &mut NodeList<'_>, g: &Leads<'_, '_>, i: usize)
    requires in_bounds { i < g.now.nodes.records.n }
    requires ready { Fits list.old × ClosingReady g.now.nodes.records.stmts.now g.now.nodes.falls.now (frames_of g.now) i (length list.old.part.now) }
    ensures { ClosingMade g.now.nodes.records.stmts.now g.now.nodes.falls.now (frames_of g.now) i list.old list.new }
{
    let word = g.nodes.records.word(i);
    match word {
        DOIF => add_doif(list, g, i),
        _ if joins_frame(word) => add_closer(list, g, g.opener(i)),
        _ => {}
    }
}
