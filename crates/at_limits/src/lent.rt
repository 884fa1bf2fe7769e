// Tables that suffice at all limits: "every program lends tables".
ghost use Rattle.at_limits.specs.Lent.{AllZero};

use layout::limits::{
    ARGS_LENGTH, ENTRIES_LENGTH, FALLS_LENGTH, LINKS_LENGTH, LISTS_LENGTH, MAX_EDGES, MAX_LINES,
    MAX_STMTS, STMTS_LENGTH,
};

// Calls a routine with all tables between an input and what it writes.
// Kept: a macro: a method that takes the routine by its name would name the eleven tables in its bound, in its clause
// and at its call; here they stand once.
#[macro_export]
macro_rules! with_tables {
    ($routine:path, $input:expr, $t:ident, $out:expr) => {
        $routine(
            $input,
            &mut $t.counts,
            &mut $t.lines,
            &mut $t.stmts,
            &mut $t.args,
            &mut $t.entries,
            &mut $t.falls,
            &mut $t.links,
            &mut $t.lists,
            &mut $t.returns,
            &mut $t.succ,
            &mut $t.pred,
            $out,
        )
    };
}

// What a program lends, on its own stack.
#[derive(Drop)]
pub struct Tables {
    pub counts: [u32; 6],
    pub lines: [u16; MAX_LINES],
    pub stmts: [u16; STMTS_LENGTH],
    pub args: [u64; ARGS_LENGTH],
    pub entries: [u16; ENTRIES_LENGTH],
    pub falls: [u16; FALLS_LENGTH],
    pub links: [u16; LINKS_LENGTH],
    pub lists: [u16; LISTS_LENGTH],
    pub returns: [u16; MAX_STMTS],
    pub succ: [u16; MAX_EDGES],
    pub pred: [u16; MAX_EDGES],
}

impl Tables {
    // In its caller, so that no table is copied.
    #[inline(always)]
    pub fn zeroed() -> Tables
        ensures { AllZero result }
    {
        Tables {
            counts: [0; 6],
            lines: [0; MAX_LINES],
            stmts: [0; STMTS_LENGTH],
            args: [0; ARGS_LENGTH],
            entries: [0; ENTRIES_LENGTH],
            falls: [0; FALLS_LENGTH],
            links: [0; LINKS_LENGTH],
            lists: [0; LISTS_LENGTH],
            returns: [0; MAX_STMTS],
            succ: [0; MAX_EDGES],
            pred: [0; MAX_EDGES],
        }
    }
}
