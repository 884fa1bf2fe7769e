// The graph of a listing, or of the listing that a saved program means.
// Kept: C lends the tables one by one.
ghost use Rattle.std.specs.Prelude.{true};
ghost use Rattle.program_files.specs.Inputs.{meaning};
ghost use Rattle.graph.specs.Build.{build as built_by, built_of_answer};
ghost use Rattle.passes.specs.TableForms.{sizes_of, capacity};
ghost use Rattle.c_answers.specs.BuildNumbers.{BuildNumbered};

use c_answers::build::number_of_done;
use reader::listing::Input;
use wiring::build::{build, build_input};

// `build` for C: 0 for a graph, or the refusal's number and its place.
#[unsafe(no_mangle)]
pub extern "C" fn flow_build(
    text: &[u8],
    counts: &mut [u32; 6],
    lines: &mut [u16],
    stmts: &mut [u16],
    args: &mut [u64],
    entries: &mut [u16],
    falls: &mut [u16],
    links: &mut [u16],
    lists: &mut [u16],
    returns: &mut [u16],
    succ: &mut [u16],
    pred: &mut [u16],
    place: &mut [usize; 1],
) -> u8
    ensures { BuildNumbered (built_by (capacity (sizes_of lines.old stmts.old args.old entries.old falls.old links.old lists.old returns.old succ.old pred.old)) text.now) (sizes_of lines.old stmts.old args.old entries.old falls.old links.old lists.old returns.old succ.old pred.old) counts.new lines.new stmts.new args.new entries.new falls.new links.new lists.new returns.new succ.new pred.new result place.new }
{
    let built = build(
        text, counts, lines, stmts, args, entries, falls, links, lists, returns, succ, pred,
    );
    number_of_done(built, place)
}

// The same of a saved program: the graph of the listing that it means.
#[unsafe(no_mangle)]
pub extern "C" fn flow_build_program(
    program: &[u8],
    counts: &mut [u32; 6],
    lines: &mut [u16],
    stmts: &mut [u16],
    args: &mut [u64],
    entries: &mut [u16],
    falls: &mut [u16],
    links: &mut [u16],
    lists: &mut [u16],
    returns: &mut [u16],
    succ: &mut [u16],
    pred: &mut [u16],
    place: &mut [usize; 1],
) -> u8
    ensures { BuildNumbered (built_of_answer (capacity (sizes_of lines.old stmts.old args.old entries.old falls.old links.old lists.old returns.old succ.old pred.old)) (meaning true program.now)) (sizes_of lines.old stmts.old args.old entries.old falls.old links.old lists.old returns.old succ.old pred.old) counts.new lines.new stmts.new args.new entries.new falls.new links.new lists.new returns.new succ.new pred.new result place.new }
{
    let input = Input::Program(program);
    let found = build_input(
        input, counts, lines, stmts, args, entries, falls, links, lists, returns, succ, pred,
    );
    number_of_done(found, place)
}
