// What a graph is written from, and is only read while it is written.
ghost use Rattle.std.specs.Prelude.{◌≡◌, true, ◌≤◌, length};
ghost use Rattle.layout.specs.declared.limits.TheConstants.{MAX_LINES, MAX_STMTS};

use tables::nodes::Nodes;

// n nodes with so many rows of entries. In scratch stands each node's own list; a RETURN goes with handlers to the
// first `targets` of `returns`, without them to its set.
// Kept: `handlers` beside `targets`, since the count of targets goes into the graph without handlers too; an enum would
// hold it twice.
// Kept: without `args`, though what reads a source reads them too: at last they are cleared, while the source is lent.
// Kept: `returns, targets` and no slice: without handlers `returns` may be shorter, and nothing of it is read.
// Kept: what goes over it stands as functions in modules of their own, by what they are for: methods would be one
// `impl` a module.
#[derive(Clone, Copy)]
pub(crate) struct Source<'a> {
    pub handlers: bool,
    pub nodes: Nodes<'a>,
    pub rows: usize,
    pub scratch: &'a [u16],
    pub returns: &'a [u16],
    pub targets: usize,
    pub ghost few_rows: { rows ≤ MAX_LINES },
    pub ghost few_targets: { targets ≤ MAX_STMTS },
    pub ghost in_returns: { handlers ≡ true → targets ≤ length returns.now },
}
