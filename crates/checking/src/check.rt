// A listing's graph, built and printed, beside the graph that was given.
ghost use Rattle.std.specs.Prelude.{◌≡◌};
ghost use Rattle.comparing.specs.Judging.{start};
ghost use Rattle.comparing.specs.Comparing.{same, fed};
ghost use Rattle.comparing.specs.ComparingStates.{standing_as, verdict_as, verdict_of};
ghost use Rattle.passes.specs.TableForms.{sizes_of};
ghost use Rattle.wiring.specs.BuiltAnswer.{built_as, built_told};
ghost use Rattle.checking.specs.Checking.{concluded, GraphChecked};

use comparing::compare::Comparing;
use layout::refusals::{Refusal, Refused};
use printing::list::{MAX_PRINTED, list_graph};

// The graph given ends: the listing's refusal, whatever was given, or what the comparison says.
pub fn conclude<R: Refused>(built: Result<(), R>, s: Comparing<R>, due: &[u8]) -> Result<(), R>
    ensures { verdict_as R.as_pair result ≡ concluded (built_as R.as_pair built) (standing_as R.as_pair s) due.now }
{
    built?;
    s.rule(due)
}

// The graph given beside the one due, as it stands on a page.
fn check_page(built: Result<(), Refusal>, due: &[u8], graph: &[u8]) -> Result<(), Refusal>
    ensures { verdict_of result ≡ concluded (built_told built) (fed due.now (same 0 start) graph.now) due.now }
{
    let s = Comparing::begin().feed(due, graph);
    conclude(built, s, due)
}

// Builds the graph of a text in the lent tables, prints it on the lent page, and compares the graph given with it.
// Kept: the C interface lends the tables one by one.
pub fn check_graph(
    text: &[u8],
    graph: &[u8],
    counts: &mut [u32; 6],
    lines: &mut [u16],
    stmts: &mut [u16],
    args: &mut [u64],
    entries: &mut [u16],
    falls: &mut [u16],
    links: &mut [u16],
    lists: &mut [u16],
    returns: &mut [u16],
    succ: &mut [u16],
    pred: &mut [u16],
    page: &mut [u8; MAX_PRINTED],
) -> Result<(), Refusal>
    ensures { GraphChecked text.now graph.now (sizes_of lines.old stmts.old args.old entries.old falls.old links.old lists.old returns.old succ.old pred.old) counts.new lines.new stmts.new args.new entries.new falls.new links.new lists.new returns.new succ.new pred.new page.old page.new (verdict_of result) }
{
    let listed = list_graph(
        text, counts, lines, stmts, args, entries, falls, links, lists, returns, succ, pred, page,
    );
    check_page(listed.built, &page[..listed.len], graph)
}
