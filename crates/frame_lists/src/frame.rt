// The frame list.
ghost use Rattle.std.specs.Prelude.{◌≡◌, ◌*◌, length, get_or};
ghost use Rattle.std.specs.Option.{option_to_list};
ghost use Rattle.tables.specs.Columns.{word_of, fall_entry};
ghost use Rattle.graph.specs.Questions.{if_room};
ghost use Rattle.frame_lists.specs.FrameAt.{forgets_word, ends_frame, keeps_shared, part_outside};
ghost use Rattle.frame_slices.specs.FrameAnswer.{FrameAnswered};
ghost use Rattle.frame_lists.specs.FromTables.{short_from, fall_outside_from, FrameInsideFrom, frame_outside_from, frame_read_from, frame_in_from, frame_from};

use adjacency::successors::successors;
use frame_slices::slices::{copy_list, give_fall, give_nothing, keep_shared};
use layout::columns::{ARG_ENTRIES, FALL_ENTRIES, LIST_ENTRIES, STMT_ENTRIES};
use layout::refusals::{Reason, Refusal};
use layout::words::{CLR, FOR, NEXT, RETURN, RUN};
use statements::statement::no_statement;
use tables::calls::is_call;
use tables::counts::Counts;
use tables::lists::list_ends;
use tables::nodes::entry;
use tokens::names::key_of;

// The tables that the question reads, whoever wrote them.
// Kept: not `Nodes`, whose nodes are no more than a graph has: these may be.
#[derive(Clone, Copy)]
pub struct FrameTables<'a> {
    pub counts: &'a [u32; 6],
    pub stmts: &'a [u16],
    pub args: &'a [u64],
    pub falls: &'a [u16],
    pub lists: &'a [u16],
    pub succ: &'a [u16],
}

// What is asked, with the name's key.
#[derive(Clone, Copy)]
struct FrameQuestion {
    header: usize,
    node: usize,
    key: u64,
    flag: bool,
}

// The words that end a frame of any name.
#[tactic(auto, unfolding(crate::specs::FrameAt::forgets_word))]
fn forgets(word: u16) -> bool
    ensures { result ≡ forgets_word word }
{
    matches!(word, CLR | RUN | RETURN)
}

// Whether a statement ends the frame of that name.
#[tactic(auto, unfolding(crate::specs::FrameAt::ends_frame))]
fn ends_frame(word: u16, arg: u64, key: u64) -> bool
    ensures { result ≡ ends_frame word arg key }
{
    forgets(word) || (word == FOR && arg == key)
}

// A NEXT under the flag keeps what the header has too.
#[tactic(auto, unfolding(crate::specs::FrameAt::keeps_shared))]
fn keeps_shared(word: u16, flag: bool) -> bool
    ensures { result ≡ keeps_shared word flag }
{
    word == NEXT && flag
}

impl FrameTables<'_> {
    // The number of node i's opening word; 0 where the table ends before it. So too its first argument and where it
    // falls, by their own tables.
    // Kept: 0 and no `Option`, as the definition reads it: it is asked of nodes alone whose rows `short_tables` has
    // seen, so each caller would take the `Option` apart for nothing.
    #[tactic(auto, unfolding(tables::specs::Columns::word_of))]
    fn word(&self, i: usize) -> u16
        ensures { result ≡ word_of self.now.stmts.now i }
    {
        entry(self.stmts, i.saturating_mul(STMT_ENTRIES))
    }

    // Its first argument.
    // Kept: by `get`, as `walks::sets::has_bit`.
    fn first_arg(&self, i: usize) -> u64
        ensures { result ≡ get_or self.now.args.now (i * ARG_ENTRIES) 0 }
    {
        let at = i.saturating_mul(ARG_ENTRIES);
        self.args.get(at).copied().unwrap_or(0)
    }

    // The node where it falls, or none.
    #[tactic(auto, unfolding(tables::specs::Columns::fall_entry))]
    fn fall(&self, i: usize) -> Option<u16>
        ensures { option_to_list result ≡ fall_entry self.now.falls.now i }
    {
        entry(self.falls, i.saturating_mul(FALL_ENTRIES)).checked_sub(1)
    }

    // By the node's opening word.
    // Kept: three tests, and no `match` of the word: two of them ask more than the word.
    fn write_frame(&self, q: FrameQuestion, out: &mut [u16]) -> Result<usize, Refusal>
        requires { FrameInsideFrom self.now q.header q.node }
        ensures { FrameAnswered (if_room (length out.old) (frame_read_from self.now q.header q.node q.key q.flag)) out.old out.new result }
    {
        let word = self.word(q.node);
        if ends_frame(word, self.first_arg(q.node), q.key) {
            return give_nothing(out);
        }
        let own = successors(self.counts, self.lists, self.succ, q.node);
        if keeps_shared(word, q.flag) {
            let shared = successors(self.counts, self.lists, self.succ, q.header);
            return keep_shared(own, shared, out);
        }
        if is_call(word) {
            return give_fall(self.fall(q.node), out);
        }
        copy_list(own, out)
    }

    // Whether there are more statements than one of the tables has rows.
    #[tactic(auto, unfolding(crate::specs::FrameAt::short_tables))]
    fn short_tables(&self) -> bool
        ensures { result ≡ short_from self.now }
    {
        let n = Counts(self.counts).nodes();
        self.stmts.len() < n * STMT_ENTRIES
            || self.args.len() < n * ARG_ENTRIES
            || self.falls.len() < n * FALL_ENTRIES
            || self.lists.len() < n * LIST_ENTRIES
    }

    // Whether node i's successors do not lie in the edge table.
    #[tactic(auto, unfolding(crate::specs::FrameAt::part_outside))]
    fn part_outside(&self, i: usize) -> bool
        ensures { result ≡ part_outside self.now.lists.now self.now.succ.now i }
    {
        self.succ.len() < list_ends(self.lists, i).end
    }

    // Only a call's fall is read, so only that one is tested.
    #[tactic(auto, unfolding(crate::specs::FrameAt::fall_outside))]
    fn fall_outside(&self, i: usize) -> bool
        ensures { result ≡ fall_outside_from self.now i }
    {
        let n = Counts(self.counts).nodes();
        is_call(self.word(i)) && self.fall(i).is_some_and(|node| n <= usize::from(node))
    }

    // Whether a used count or a record that the question reads points outside its table.
    #[tactic(auto, unfolding(crate::specs::FrameAt::frame_outside))]
    fn frame_outside(&self, header: usize, node: usize) -> bool
        ensures { result ≡ frame_outside_from self.now header node }
    {
        self.short_tables()
            || self.part_outside(header)
            || self.part_outside(node)
            || self.fall_outside(node)
    }

    // Once the name is known to be one. All is decided before the first entry is written.
    fn frame_of(&self, q: FrameQuestion, out: &mut [u16]) -> Result<usize, Refusal>
        ensures { FrameAnswered (frame_in_from self.now q.header q.node q.key q.flag (length out.old)) out.old out.new result }
    {
        let used = Counts(self.counts);
        let n = used.nodes();
        if n <= q.header {
            return Err(Reason::NoNode.at(q.header));
        }
        if n <= q.node {
            return Err(Reason::NoNode.at(q.node));
        }
        if self.frame_outside(q.header, q.node) {
            return Err(Reason::Outside.at(0));
        }
        no_statement(used.lines(), self.stmts, n, q.node)?;
        self.write_frame(q, out)
    }
}

// The frame question (document 01), on any tables.
// Kept: header, node, name and flag one by one, as C's function hands them on.
pub fn ask_frame(
    t: &FrameTables<'_>,
    header: usize,
    node: usize,
    name: &[u8],
    flag: bool,
    out: &mut [u16],
) -> Result<usize, Refusal>
    ensures { FrameAnswered (frame_from t.now header node name.now flag (length out.old)) out.old out.new result }
{
    let key = key_of(name).map_err(|reason| reason.at(0))?;
    let q = FrameQuestion {
        header,
        node,
        key,
        flag,
    };
    t.frame_of(q, out)
}
