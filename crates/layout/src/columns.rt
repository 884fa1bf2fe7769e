// The layout of the lent tables (docs/DECISIONS.md, "Tables"): how many entries a statement has in each, and what
// stands in them. The table of line entries has two for a line, its number and its node.
// Kept: forms, tiers and marks are numbers, as entries that C reads.
use crate::limits::MAX_ARGS;

pub const ENTRY_ENTRIES: usize = 2;

pub const ENTRY_NUMBER: usize = 0;

pub const ENTRY_NODE: usize = 1;

// How many entries each table has for a statement; a link for each argument.
pub const STMT_ENTRIES: usize = 12;

pub const ARG_ENTRIES: usize = MAX_ARGS;

pub const FALL_ENTRIES: usize = 3;

pub const LINK_ENTRIES: usize = ARG_ENTRIES;

pub const LIST_ENTRIES: usize = 4;

pub const FRAME_ENTRIES: usize = 3;

// A statement's record in `stmts`.
pub const WORD: usize = 0;

pub const LINE: usize = 1;

pub const HOLDER: usize = 2;

pub const INDEX: usize = 3;

pub const END: usize = 4;

pub const SECOND: usize = 5;

pub const FORM1: usize = 6;

pub const NUMBER1: usize = 7;

pub const FORM2: usize = 8;

pub const NUMBER2: usize = 9;

pub const COUNT: usize = 10;

pub const DETAIL: usize = 11;

// Where its branches lead, in `falls`, after where it falls.
pub const FIRST_BRANCH: usize = 1;

pub const SECOND_BRANCH: usize = 2;

// Where its lists stand, in `lists`, after where its successors begin.
pub const SUCC_COUNT: usize = 1;

pub const PRED_START: usize = 2;

pub const PRED_COUNT: usize = 3;

// The frames of statements as clauses have them, one after the other: after the opener of the frame that a statement
// closes or joins, the closer of the frame that it opens, and a DOIF's first ELSE or an ELSE's next one.
pub const CLOSER: usize = 1;

pub const ELSE_LINK: usize = 2;

// What `counts` has: lines, statements, whether there are handlers, edges, return targets, rows of line entries.
pub const LINE_COUNT: usize = 0;

pub const NODE_COUNT: usize = 1;

pub const HANDLERS: usize = 2;

pub const EDGE_COUNT: usize = 3;

pub const TARGET_COUNT: usize = 4;

pub const ROW_COUNT: usize = 5;

// A branch's form: none, statements, a line number.
pub const NO_BRANCH: u16 = 0;

pub const STMTS_BRANCH: u16 = 1;

pub const TO_BRANCH: u16 = 2;

// A FOR's tier in its detail: 0 static, 1 framed; a NEXT's mark: 0 plain.
pub const DISPATCHED: u16 = 2;

pub const ORPHAN: u16 = 1;
