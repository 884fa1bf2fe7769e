// Line entries: rows of a line's number and one more than the node where it enters, or 0, ascending by number;
// and the search in them.
ghost use Rattle.std.specs.Prelude.{◌≡◌, ◌+◌, ◌*◌, ◌≤◌, ◌<◌, get_or, length};
ghost use Rattle.std.specs.Option.{IfSome};
ghost use Rattle.layout.specs.declared.columns.TheConstants.{ENTRY_ENTRIES};
ghost use Rattle.tables.specs.EntryRows.{entry_column};
ghost use Rattle.passes.specs.LineSearch.{LineFound, EntryFound};
ghost use Rattle.tables.specs.OneMore.{one_more};

use layout::columns::{ENTRY_ENTRIES, ENTRY_NODE, ENTRY_NUMBER};

// The entries of `count` lines, once they are computed.
// Kept: rows and how many, not `&[[u16; 2]]`: definitions read the flat table (`entry_column`), and each clause would
// flatten the rows again.
#[derive(Clone, Copy)]
pub(crate) struct Entries<'a> {
    pub rows: &'a [u16],
    pub count: usize,
    pub ghost fit: { count * ENTRY_ENTRIES ≤ length rows.now },
}

impl<'a> Entries<'a> {
    // The index of the row with that number. The numbers ascend.
    // Kept: a `while`; `binary_search_by_key` over `as_chunks` does not stop where it has found: ONs of 64 numbers took
    // 1.42 times as long.
    // Kept: two tests; tried by `match at.cmp(&number)`, `flowlist` took 4.6 % more instructions on ONs of 64 numbers.
    fn find_line(&self, number: u16) -> Option<usize>
        ensures within { IfSome result (λ k. k < self.now.count) }
        ensures found { LineFound (entry_column 0 self.now.count self.now.rows.now) number (one_more result) }
    {
        let mut low: usize = 0;
        let mut high = self.count;
        while low < high {
            let mid = low + (high - low) / 2;
            let at = self.rows[mid * ENTRY_ENTRIES + ENTRY_NUMBER];
            if at == number {
                return Some(mid);
            }
            if at < number {
                low = mid + 1;
            } else {
                high = mid;
            }
        }
        None
    }

    // The node where the line of row k enters: one more than it, or 0.
    // Kept: the number: callers put it into a table as it is, or hand it on to `add_edge`.
    pub(crate) fn node(&self, k: usize) -> u16
        requires { k < self.now.count }
        ensures { result ≡ get_or self.now.rows.now (k * ENTRY_ENTRIES + ENTRY_NODE) 0 }
    {
        self.rows[k * ENTRY_ENTRIES + ENTRY_NODE]
    }

    // The entry of the line with that number: one more than the node, or 0 if there is no such line or entry.
    // Kept: the number: both callers put it into a table as it is. A `match`, as `Leads::fall_of`.
    pub fn entry_of(&self, number: u16) -> u16
        ensures { EntryFound self.now.rows.now self.now.count number result }
    {
        match self.find_line(number) {
            Some(k) => self.node(k),
            None => 0,
        }
    }
}
