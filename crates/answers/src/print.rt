// The rows of answers, put on a page.
ghost use Rattle.std.specs.Prelude.{[], get_or};
ghost use Rattle.listings.specs.WordTable.{words};
ghost use Rattle.formatting.specs.Pages.{Wrote};
ghost use Rattle.answers.specs.Flowask.{list_row, stmt_row};
ghost use Rattle.answers.specs.AnswersAt.{entry_row};

use formatting::page::Page;

// A word, each number after a space, and the end of the row.
pub(crate) fn put_list_row(page: &mut Page<'_>, word: &[u8], list: &[u16])
    ensures { Wrote page.old page.new (list_row word.now list.now) }
{
    page.put_list(word, list);
    page.put_bytes(b")\n");
}

// A statement: its node and its word.
pub(crate) fn put_stmt(page: &mut Page<'_>, node: usize, word: usize)
    ensures { Wrote page.old page.new (stmt_row node (get_or words word [])) }
{
    page.put_bytes(b"(statement");
    page.put_number(node);
    page.put_byte(b' ');
    page.put_word(word);
    page.put_bytes(b")\n");
}

// The row of an entry, a node or none.
pub(crate) fn put_entry(page: &mut Page<'_>, entry: Option<usize>)
    ensures { Wrote page.old page.new (entry_row entry) }
{
    match entry {
        Some(id) => {
            page.put_bytes(b"(entry");
            page.put_number(id);
            page.put_bytes(b")\n");
        }
        None => page.put_bytes(b"(entry)\n"),
    }
}
