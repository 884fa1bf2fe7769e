// Where in the list of calls those of an entry stand, from the first of them to behind the last; none where no call has
// it among its targets. So the calls of an entry are looked for among few.
ghost use Rattle.std.specs.Prelude.{◌≡◌, ℕ, ◌+◌, ◌-◌, ◌*◌, ◌≤◌, ◌<◌, length, get_or, take, drop, replicate, Option, Some, None, IfSome, IfNone};
ghost use Rattle.listings.specs.Every.{All};
ghost use Rattle.graph.specs.Lists.{each};
ghost use Rattle.graph_laws.specs.Adding.{decode};
ghost use Rattle.passes.specs.Spans.{SpansTo, SpansGrow};
ghost use Rattle.passes.specs.declared.spans.Span.{Span};
ghost use Rattle.walks.specs.FromNodes.{CallsReadFrom, TargetsFitFrom, entries_from, CallsReadyFrom, SpannedFrom};

use crate::lists::list_calls;
use layout::limits::MAX_STMTS;
use layout::zeroing::all_of;
use passes::spans::Span;
use tables::nodes::Nodes;

// Place k, the last so far, comes into the span of the entry t - 1, where t is not 0.
// Kept: the number, as the links have it: its one caller would take each apart by this same line.
fn span_some(t: u16, k: u16, spans: &mut [Option<Span>; MAX_STMTS])
    requires { (t ≤ MAX_STMTS) × (k < MAX_STMTS) }
    ensures { SpansGrow k (decode t) spans.old spans.new }
{
    if let Some(a) = t.checked_sub(1) {
        let e = usize::from(a);
        let first = spans[e].map_or(k, |s| s.first);
        spans[e] = Some(Span { first, end: k + 1 });
    }
}

// It comes into those of the entries that a row of links names.
fn span_row(row: &[u16], k: u16, spans: &mut [Option<Span>; MAX_STMTS])
    requires { All (λ (t : ℕ). t ≤ MAX_STMTS) row.now × (k < MAX_STMTS) }
    ensures { SpansGrow k (each decode row.now) spans.old spans.new }
{
    for &t in row {
        span_some(t, k, spans);
    }
}

// Call c stands at place k.
fn span_call(g: &Nodes<'_>, c: usize, k: u16, spans: &mut [Option<Span>; MAX_STMTS])
    requires { TargetsFitFrom g.now c × (k < MAX_STMTS) }
    ensures { SpansGrow k (entries_from g.now c) spans.old spans.new }
{
    span_row(g.targets(c), k, spans);
}

// The spans of all calls of a list.
fn span_calls(g: &Nodes<'_>, calls: &[u16], spans: &mut [Option<Span>; MAX_STMTS])
    requires { All (TargetsFitFrom g.now) calls.now × (length calls.now ≤ MAX_STMTS) × (spans.old ≡ replicate MAX_STMTS None) }
    ensures { SpannedFrom g.now calls.now spans.new }
{
    for (k, &c) in calls.iter().enumerate() {
        span_call(g, usize::from(c), k as u16, spans);
    }
}

// No span yet.
pub(crate) fn no_spans() -> [Option<Span>; MAX_STMTS]
    ensures { result ≡ replicate MAX_STMTS None }
{
    all_of(None)
}

// The calls among the nodes, and where in their list those of each entry stand.
#[derive(Clone, Copy)]
pub(crate) struct Calls<'a> {
    pub list: &'a [u16],
    pub spans: &'a [Option<Span>; MAX_STMTS],
    ghost within: { SpansTo spans.now (length list.now) },
}

impl<'a> Calls<'a> {
    // Those of these nodes, in two arrays of the caller's, where they stay.
    pub(crate) fn among(
        g: &Nodes<'_>,
        list: &'a mut [u16; MAX_STMTS],
        spans: &'a mut [Option<Span>; MAX_STMTS],
    ) -> Calls<'a>
        requires { CallsReadFrom g.now × (spans.old ≡ replicate MAX_STMTS None) }
        ensures ready { CallsReadyFrom g.now result.list.now }
        ensures spanned { SpannedFrom g.now result.list.now result.spans.now }
    {
        // later loops run over these alone
        let list = list_calls(&g.records, list);
        span_calls(g, list, spans);
        Calls { list, spans }
    }

    // The part of the list with all calls that have the entry e among their targets, if there is one.
    pub(crate) fn of_entry(&self, e: usize) -> Option<&'a [u16]>
        requires { e < MAX_STMTS }
        ensures uncalled { IfNone result (get_or self.now.spans.now e None ≡ None) }
        ensures called { IfSome result (λ l. (s : Span) × (get_or self.now.spans.now e None ≡ Some s) × (l.now ≡ take (s.end - s.first) (drop s.first self.now.list.now))) }
    {
        let span = self.spans[e]?;
        Some(&self.list[usize::from(span.first)..usize::from(span.end)])
    }
}
