// Whether tables can be read, whoever wrote them; where they cannot, a call is refused 25.
ghost use Rattle.std.specs.Prelude.{◌≡◌, ◌+◌, ◌*◌, ◌≤◌, ◌<◌, length};
ghost use Rattle.tables.specs.Readable.{ids_below, list_readable, lists_readable};

use crate::lists::list_ends;
use layout::columns::LIST_ENTRIES;
use layout::limits::MAX_STMTS;

// Whether every id of a list is that of one of n nodes.
// Kept: not by `all`, which stops at the first that is not, and takes half as long again.
pub fn ids_below(l: &[u16], n: usize) -> bool
    ensures { result ≡ ids_below n l.now }
{
    let mut good = true;
    for &id in l {
        good &= usize::from(id) < n;
    }
    good
}

// Whether node v's list lies in the edge table and has ids of n nodes only.
fn list_readable(lists: &[u16], edges: &[u16], n: usize, v: usize) -> bool
    ensures { result ≡ list_readable lists.now edges.now n v }
{
    let ends = list_ends(lists, v);
    ends.end <= edges.len() && ids_below(&edges[ends], n)
}

// Whether the lists of all n nodes do, and n is no more than a graph may have.
pub fn lists_readable(lists: &[u16], edges: &[u16], n: usize) -> bool
    ensures { result ≡ lists_readable lists.now edges.now n }
{
    n <= MAX_STMTS
        && n * LIST_ENTRIES <= lists.len()
        && (0..n).all(|v| list_readable(lists, edges, n, v))
}
