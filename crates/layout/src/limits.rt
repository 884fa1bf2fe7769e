// "At most 65,536 bytes, 1,024 lines with ascending numbers, 4,096 statements, 32,768 edges"; "depth 16 is accepted",
// "0 to 64 numbers".
use crate::columns::{
    ARG_ENTRIES, ENTRY_ENTRIES, FALL_ENTRIES, LINK_ENTRIES, LIST_ENTRIES, STMT_ENTRIES,
};

pub const MAX_BYTES: usize = 65536;

pub const MAX_LINES: usize = 1024;

pub const MAX_STMTS: usize = 4096;

pub const MAX_EDGES: usize = 32768;

pub const MAX_DEPTH: usize = 16;

pub const MAX_ARGS: usize = 64;

// "Numbers are decimal without leading zeros, 0 to 65535."
pub const MAX_NUMBER: usize = 65535;

// "every program lends tables that suffice at all limits": how long those are that have more than one entry a line, a
// statement or an edge.
pub const ENTRIES_LENGTH: usize = MAX_LINES * ENTRY_ENTRIES;

pub const STMTS_LENGTH: usize = MAX_STMTS * STMT_ENTRIES;

pub const ARGS_LENGTH: usize = MAX_STMTS * ARG_ENTRIES;

pub const FALLS_LENGTH: usize = MAX_STMTS * FALL_ENTRIES;

pub const LINKS_LENGTH: usize = MAX_STMTS * LINK_ENTRIES;

pub const LISTS_LENGTH: usize = MAX_STMTS * LIST_ENTRIES;
