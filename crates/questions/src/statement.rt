// A node's statement, and the statement at a path.
ghost use Rattle.std.specs.Prelude.{◌≡◌};
ghost use Rattle.tables.specs.Told.{told};
ghost use Rattle.statements.specs.StatementAt.{node_statement, path_statement};

use layout::refusals::Refusal;
use statements::statement::{ask_path, ask_statement};

// The statement of a node: the node, and the number of its opening word.
pub fn stmt_at(counts: &[u32; 6], stmts: &[u16], node: usize) -> Result<(usize, usize), Refusal>
    ensures { told result ≡ node_statement counts.now stmts.now node }
{
    ask_statement(counts, stmts, node)
}

// The statement at a path: a line index and numbers.
pub fn resolve_path(
    counts: &[u32; 6],
    stmts: &[u16],
    line: usize,
    path: &[u16],
) -> Result<(usize, usize), Refusal>
    ensures { told result ≡ path_statement counts.now stmts.now line path.now }
{
    ask_path(counts, stmts, line, path)
}
