// What the passes before the lists wrote, which all that makes lists reads together.
ghost use Rattle.std.specs.Prelude.{◌≡◌, ◌+◌, ◌*◌, get_or};
ghost use Rattle.graph_laws.specs.Adding.{decode};
ghost use Rattle.passes.specs.Closing.{fall_from};
ghost use Rattle.tables.specs.OneMore.{one_more};
ghost use Rattle.wiring.specs.FrameRows.{no_frame};
ghost use Rattle.wiring.specs.FromLeads.{frames_of};

use crate::entries::Entries;
use layout::columns::{CLOSER, ELSE_LINK, FRAME_ENTRIES};
use layout::limits::MAX_STMTS;
use tables::nodes::Nodes;

// What a node meets on the stacks: each a node, as one more than its number, or 0 for none.
// Kept: the numbers, as the definitions have them (`flat`); of `Option<u16>`s the table would take twice the room.
#[derive(Clone, Copy, Default)]
pub(crate) struct Frame {
    // the opener of the frame that the node closes or joins
    pub opener: u16,
    // the closer of the frame that it opens
    pub closer: u16,
    // the first ELSE of a DOIF, or the one that comes after an ELSE
    pub next_else: u16,
}

// The nodes, the line entries, the frames that nodes meet, and the dispatched FORs that have a body; the last two are
// the wiring's own tables.
// Kept: `args` goes beside the leads to all that reads both, since `fill_rows` writes it while it reads the leads.
// Kept: what goes over it stands as functions in modules of their own, by what they are for: methods would be one
// `impl` a module.
#[derive(Clone, Copy)]
pub(crate) struct Leads<'a, 'b> {
    pub nodes: Nodes<'a>,
    pub entries: Entries<'a>,
    pub frames: &'b [Frame; MAX_STMTS],
    pub dispatched: &'b [u16],
}

impl<'a, 'b> Leads<'a, 'b> {
    // What node i meets; past the table nothing.
    fn frame(&self, i: usize) -> Frame
        ensures { result ≡ get_or self.now.frames.now i no_frame }
    {
        let frames = self.frames;
        frames.get(i).copied().unwrap_or_default()
    }

    // The opener of the frame that node i closes or joins.
    // Kept: this and the next two are of one shape: each reads one field, by its name.
    pub(crate) fn opener(&self, i: usize) -> Option<usize>
        ensures { one_more result ≡ get_or (frames_of self.now) (i * FRAME_ENTRIES) 0 }
    {
        usize::from(self.frame(i).opener).checked_sub(1)
    }

    // The closer of the frame that node i opens.
    // Kept: as `opener`.
    pub(crate) fn closer(&self, i: usize) -> Option<usize>
        ensures { one_more result ≡ get_or (frames_of self.now) (i * FRAME_ENTRIES + CLOSER) 0 }
    {
        usize::from(self.frame(i).closer).checked_sub(1)
    }

    // The first ELSE of the DOIF i, or the one that comes after the ELSE i.
    // Kept: as `opener`.
    pub(crate) fn next_else(&self, i: usize) -> Option<usize>
        ensures { one_more result ≡ get_or (frames_of self.now) (i * FRAME_ENTRIES + ELSE_LINK) 0 }
    {
        usize::from(self.frame(i).next_else).checked_sub(1)
    }

    // Where a node falls, if there is one: one more than the node there, or 0.
    // Kept: a `match`; tried as `map_or`, whose laws are of the option's cases: the check does not find them through a
    // closure that holds `self`. The number, as `Nodes::fall`.
    pub(crate) fn fall_of(&self, node: Option<usize>) -> u16
        ensures { decode result ≡ fall_from self.now.nodes.falls.now (one_more node) }
    {
        match node {
            Some(j) => self.nodes.fall(j),
            None => 0,
        }
    }
}
