// The FOR stack in reading order.
ghost use Rattle.std.specs.Prelude.{◌≡◌, true, ◌+◌, ◌*◌, ◌/◌, ◌≤◌, ◌<◌, eqb, length, get_or};
ghost use Rattle.passes.specs.ListedNodes.{SlotsCounted, AllCounted};
ghost use Rattle.passes.specs.FrameStacks.{HoldsBelow, top_mark};
ghost use Rattle.passes.specs.ForStack.{moves_fors, Sought, SlotFound, ForPushed, SlotsPopped, NodeLinked};
ghost use Rattle.passes.specs.Sets.{bit};
ghost use Rattle.passes.specs.NotedKeys.{note_of};
ghost use Rattle.passes.specs.ForLinks.{ForsLinked};
ghost use Rattle.tables.specs.OneMore.{one_more};
ghost use Rattle.wiring.specs.NotedFors.{Noted};

use crate::stacks::{FrameStack, number_of};
use layout::columns::{ARG_ENTRIES, STMT_ENTRIES};
use layout::limits::MAX_STMTS;
use layout::words::{FOR, NEXT};
use layout::zeroing::{all_of, fill_behind};
use tables::nodes::Records;
use walks::sets::{WORD_BITS, has_bit, insert};

// The keys of FORs are noted by their remainders: by a prime, so that names that are alike seldom share one.
const REMAINDERS: u64 = 32719;

// Words with a bit for each remainder.
const NOTES: usize = REMAINDERS as usize / WORD_BITS + 1;

// The remainder under which a key is noted.
fn note_of(key: u64) -> usize
    ensures { result ≡ note_of key }
{
    (key % REMAINDERS) as usize
}

// Whether a statement with that word pushes or pops FORs.
#[tactic(auto, using(std::proofs::lemmas::Bool::Decides::nat_tests), unfolding(passes::specs::ForStack::moves_fors))]
fn moves_fors(word: u16) -> bool
    ensures { result ≡ moves_fors word }
{
    matches!(word, FOR | NEXT)
}

// The open FORs, whose keys are in the arguments, and the notes, in which each of these keys is.
// Kept: `args` is a field, though no method changes it (`same_args`): the fact `noted` is about it.
#[derive(Drop)]
struct Fors<'a> {
    pub args: &'a [u64],
    pub stack: FrameStack,
    pub notes: [u64; NOTES],
    pub ghost noted: { Noted args.now notes stack.words },
}

impl<'a> Fors<'a> {
    // Whether a FOR of the name with that key may be open.
    fn is_noted(&self, key: u64) -> bool
        ensures { result ≡ eqb (bit self.now.notes (note_of key)) 1 }
    {
        has_bit(&self.notes, note_of(key))
    }

    // The newest open FOR whose name has the key v; top is the newest of all.
    // Kept: a `while let`: `find` asks that what it walks ends, and by std's laws `std::iter::successors` never does.
    fn seek(&self, top: Option<usize>, v: u64) -> Option<usize>
        requires holds_below { HoldsBelow self.now.stack.words (length self.now.args.now / ARG_ENTRIES) }
        requires top_value { one_more top ≡ top_mark self.now.stack.words }
        ensures { Sought self.now.args.now v self.now.stack.words (one_more result) }
    {
        let mut t = top;
        while let Some(k) = t {
            if self.args[k * ARG_ENTRIES] == v {
                return t;
            }
            t = self.stack.below(k);
        }
        None
    }

    // The stack with FOR i: its own older frame and all above are dropped first.
    fn push_for(&self, i: usize) -> FrameStack
        requires i_bound { (i < MAX_STMTS) × (i * ARG_ENTRIES < length self.now.args.now) }
        requires holds_below { HoldsBelow self.now.stack.words i }
        ensures { ForPushed self.now.args.now i self.now.stack.words result.words }
    {
        match self.seek(self.stack.newest(i), self.args[i * ARG_ENTRIES]) {
            Some(older) => self.stack.pop_to(older).push(i),
            None => self.stack.push(i),
        }
    }

    // FOR i. If its key is not noted, none of its name is open, and nothing is looked for.
    fn open_for(&mut self, i: usize)
        requires i_bound { (i < MAX_STMTS) × (i * ARG_ENTRIES < length self.old.args.now) }
        requires holds_below { HoldsBelow self.old.stack.words i }
        ensures same_args { self.new.args.now ≡ self.old.args.now }
        ensures for_pushed { ForPushed self.old.args.now i self.old.stack.words self.new.stack.words }
    {
        let key = self.args[i * ARG_ENTRIES];
        if self.is_noted(key) {
            self.stack = self.push_for(i);
            return;
        }
        insert(&mut self.notes, note_of(key));
        self.stack = self.stack.push(i);
    }

    // The FOR that a slot of a NEXT pops: key 0 asks for the newest, the key of a name for the newest of that name.
    // Kept: the number, 0 for `*`: the lent table holds the keys so.
    fn slot_frame(&self, top: Option<usize>, key: u64) -> Option<usize>
        requires holds_below { HoldsBelow self.now.stack.words (length self.now.args.now / ARG_ENTRIES) }
        requires top_value { one_more top ≡ top_mark self.now.stack.words }
        ensures { SlotFound self.now.args.now key self.now.stack.words (one_more result) }
    {
        match key {
            0 => top,
            _ if self.is_noted(key) => self.seek(top, key),
            _ => None,
        }
    }

    // The slots of NEXT i in order; row gets what each pops: one more than the FOR, or 0. With no FOR open the slots
    // that are left pop nothing.
    // Kept: the row by places: where no FOR is open, the rest of it is filled from a place on, by `fill_behind` as in
    // `stacks.rt`.
    fn pop_slots(&mut self, keys: &[u64], i: usize, row: &mut [u16])
        requires i_bound { (i < MAX_STMTS) × (i * ARG_ENTRIES ≤ length self.old.args.now) × (length keys.now ≡ length row.old) }
        requires holds_below { HoldsBelow self.old.stack.words i }
        ensures same_args { self.new.args.now ≡ self.old.args.now }
        ensures slots_popped { SlotsPopped self.old.args.now keys.now self.old.stack.words self.new.stack.words row.new }
    {
        let mut top = self.stack.newest(i);
        for (j, &key) in keys.iter().enumerate() {
            if top.is_none() {
                fill_behind(row, j, 0);
                return;
            }
            let f = self.slot_frame(top, key);
            row[j] = number_of(f);
            if let Some(id) = f {
                top = self.stack.below(id);
                self.stack = self.stack.pop_to(id);
            }
        }
    }

    // What node i, a FOR or a NEXT, does to the FOR stack, and to its row of links.
    fn link_node(&mut self, r: &Records<'_>, i: usize, links: &mut [u16])
        requires i_bound { (i < r.now.n) × (i * ARG_ENTRIES + ARG_ENTRIES ≤ length self.old.args.now) × (i * ARG_ENTRIES + ARG_ENTRIES ≤ length links.old) }
        requires i_value { moves_fors (get_or r.now.stmts.now (i * STMT_ENTRIES) 0) ≡ true }
        requires slots_counted { SlotsCounted r.now.stmts.now i }
        requires holds_below { HoldsBelow self.old.stack.words i }
        ensures same_args { self.new.args.now ≡ self.old.args.now }
        ensures node_linked { NodeLinked r.now.stmts.now self.old.args.now i self.old.stack.words self.new.stack.words links.old links.new }
    {
        if r.word(i) == FOR {
            self.open_for(i);
            return;
        }
        let keys = &self.args[r.args_of(i)];
        self.pop_slots(keys, i, &mut links[r.args_of(i)]);
    }
}

// In reading order, what each slot of each NEXT pops; the rows of other nodes stay.
pub(crate) fn link_fors(r: &Records<'_>, args: &[u64], links: &mut [u16])
    requires n_bound { (r.now.n * ARG_ENTRIES ≤ length args.now) × (r.now.n * ARG_ENTRIES ≤ length links.old) }
    requires all_counted { AllCounted r.now.stmts.now r.now.n }
    ensures { ForsLinked r.now.stmts.now args.now r.now.n links.old links.new }
{
    let mut fors = Fors {
        args,
        stack: FrameStack::new(),
        notes: all_of::<u64, NOTES>(0),
    };
    for i in 0..r.n {
        if moves_fors(r.word(i)) {
            fors.link_node(r, i, links);
        }
    }
}
