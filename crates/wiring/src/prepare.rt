// The passes before the lists that write to lent tables: line entries, falls and links.
ghost use Rattle.passes.specs.Preparing.{PrepareReady, PreparedTo};
ghost use Rattle.wiring.specs.Found.{all_found};

use crate::entries::Entries;
use crate::falls::Rows;
use crate::fors::link_fors;
use crate::jumps::link_jumps;
use crate::line_pass::compute_line_after;
use layout::refusals::Refusal;
use tables::nodes::Records;

// Refused 27 if an inner statement was not found; that each is found is proved.
// Kept: tables that are written go one by one: of a struct of `&mut` clauses name what is left by nested pairs.
pub(crate) fn prepare(
    records: Records<'_>,
    lines: &[u16],
    args: &[u64],
    entries: &mut [u16],
    falls: &mut [u16],
    links: &mut [u16],
    count: usize,
) -> Result<(), Refusal>
    requires { PrepareReady lines.now records.stmts.now args.now entries.old falls.old links.old count records.n }
    ensures { PreparedTo lines.now records.entry.stmts.now args.now entries.new falls.new links.new count records.entry.n (all_found result) }
{
    compute_line_after(&records, &lines[..count], entries);
    let entries = Entries {
        rows: entries,
        count,
    };
    let g = Rows { entries, records };
    g.connect_lines(falls)?;
    link_jumps(&g, args, links);
    link_fors(&records, args, links);
    Ok(())
}
