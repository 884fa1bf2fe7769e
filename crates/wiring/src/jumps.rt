// Where the line numbers lead that statements name.
ghost use Rattle.std.specs.Prelude.{◌≡◌, ◌*◌, ◌≤◌, length};
ghost use Rattle.passes.specs.LineSearch.{EntryFound};
ghost use Rattle.passes.specs.Jumps.{names_lines, jump_count, RowLinked, JumpsLinked};

use crate::entries::Entries;
use crate::falls::Rows;
use layout::columns::ARG_ENTRIES;
use layout::limits::MAX_ARGS;
use layout::words::{GOSUB, GOTO, ONGOSUB, ONGOTO, RUN};
use tables::nodes::words_of;

// goto, gosub, run, ongoto and ongosub.
#[tactic(auto, using(std::proofs::lemmas::Bool::Decides::nat_tests), unfolding(passes::specs::Jumps::names_lines))]
fn names_lines(word: u16) -> bool
    ensures { result ≡ names_lines word }
{
    matches!(word, GOTO | GOSUB | RUN | ONGOTO | ONGOSUB)
}

// How many of a statement's arguments are line numbers; more than 64 no statement has.
#[tactic(auto, using(std::proofs::lemmas::Bool::Decides::nat_tests), unfolding(passes::specs::Jumps::jump_count))]
fn jump_count(word: u16, count: usize) -> usize
    ensures { result ≡ jump_count word count }
{
    if names_lines(word) && count <= MAX_ARGS {
        count
    } else {
        0
    }
}

// The entry of the line that an argument names; a number above 65535 is no line's.
// Kept: functions here, no methods of `Entries` and `Rows`, as at `Leads`: an `impl` of either more, for what this
// module alone does. The number, as `Entries::entry_of`.
// Kept: a `match`; tried as `map_or`: the check infers nothing of the closure, since `EntryFound` is no equation; with
// a clause of its own it is longer than the `match`.
fn entry_of_argument(w: &Entries<'_>, number: u64) -> u16
    ensures { EntryFound w.now.rows.now w.now.count number result }
{
    match u16::try_from(number) {
        Ok(line) => w.entry_of(line),
        Err(_) => 0,
    }
}

// One statement's row: where these arguments lead.
// Kept: by index; tried by `iter_mut` and `zip`, and of what is written through these std's laws say the length alone.
#[tactic(auto, using(passes::specs::JumpLaws::link_start))]
fn link_row(w: &Entries<'_>, args: &[u64], links: &mut [u16])
    requires { length args.now ≤ length links.old }
    ensures { RowLinked w.now.rows.now w.now.count args.now (length args.now) links.old links.new }
{
    for (j, &number) in args.iter().enumerate() {
        links[j] = entry_of_argument(w, number);
    }
}

// Where the line numbers of all statements lead; the row of a statement that names no lines stays as it is.
pub(crate) fn link_jumps(g: &Rows<'_, '_>, args: &[u64], links: &mut [u16])
    requires { (g.now.records.n * ARG_ENTRIES ≤ length args.now) × (g.now.records.n * ARG_ENTRIES ≤ length links.old) }
    ensures { JumpsLinked g.now.entries.rows.now g.now.entries.count g.now.records.stmts.now args.now g.now.records.n links.old links.new }
{
    for i in 0..g.records.n {
        let at = i * ARG_ENTRIES;
        let end = at + jump_count(g.records.word(i), g.records.count(i));
        link_row(&g.entries, &args[at..end], &mut links[words_of(i)]);
    }
}
