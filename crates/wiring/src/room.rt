// How much the lent tables have room for.
ghost use Rattle.std.specs.Prelude.{◌≡◌, ◌/◌, min};
ghost use Rattle.passes.specs.Room.{stmt_room};

use layout::columns::{ARG_ENTRIES, ENTRY_ENTRIES, FALL_ENTRIES, LIST_ENTRIES, STMT_ENTRIES};

// How many lines the tables hold that have one or two entries for each line, by their lengths.
pub(crate) fn line_room(lines: usize, entries: usize) -> usize
    ensures { result ≡ min lines (entries / 2) }
{
    lines.min(entries / ENTRY_ENTRIES)
}

// How many statements the tables hold that have entries for each statement, by their lengths.
// Kept: six numbers, for one call; a struct of them would be made there and taken apart here.
#[tactic(auto, unfolding(passes::specs::Room::stmt_room))]
pub(crate) fn stmt_room(
    stmts: usize,
    args: usize,
    falls: usize,
    links: usize,
    lists: usize,
    returns: usize,
) -> usize
    ensures { result ≡ stmt_room stmts args falls links lists returns }
{
    let records = (stmts / STMT_ENTRIES).min(args / ARG_ENTRIES);
    let leads = (falls / FALL_ENTRIES).min(links / ARG_ENTRIES);
    let ends = (lists / LIST_ENTRIES).min(returns);
    records.min(leads).min(ends)
}
