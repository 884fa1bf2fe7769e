// Lists of numbers and of names, with commas between.
ghost use Rattle.std.specs.Prelude.{◌≡◌, length, IfOk};
ghost use Rattle.program_files.specs.Program.{map_found};
ghost use Rattle.basic.specs.Cursors.{tokens_at};
ghost use Rattle.basic.specs.Found.{found_by};
ghost use Rattle.basic.specs.Items.{item, items_from, values_in, put_front};

use super::cursors::{Cursor, token_at};
use super::found::{Found, Lack};
use super::names::key_at;
use super::numbers::line_number;

// What stands in a list.
// Kept: an enum, and no closure for `item_at`: `read_items` would carry the closure's clause beside its own.
#[derive(Clone, Copy)]
pub(crate) enum Item {
    Number,
    Name,
}

// A number or a name's key.
#[tactic(auto, unfolding(crate::specs::Items::item))]
fn item_at(file: &[u8], c: Cursor, kind: Item) -> Result<Found<u64>, Lack>
    ensures { found_by (tokens_at file.now) result ≡ item kind (tokens_at file.now c) }
{
    match kind {
        Item::Number => line_number(file, c),
        Item::Name => key_at(file, c),
    }
}

// "a comma brings ON a further number and NEXT a further name": how many there are, and they at the front of `part`, as
// far as it goes.
// Kept: `loop`, as `bodies::judge_body`: an item says where its comma is looked for, and can be lacking.
pub(crate) fn read_items(
    file: &[u8],
    c: Cursor,
    kind: Item,
    part: &mut [u64],
) -> Result<Found<usize>, Lack>
    ensures told { found_by (tokens_at file.now) result ≡ map_found length (items_from kind (tokens_at file.now c)) }
    ensures put { IfOk result (λ r. part.new ≡ put_front (values_in (items_from kind (tokens_at file.now c))) part.old) }
{
    let mut count: usize = 0;
    let mut at = c;
    loop {
        let item = item_at(file, at, kind)?;
        if count < part.len() {
            part[count] = item.value;
        }
        count += 1;
        let t = token_at(file, item.next);
        if t.byte != b',' {
            return Ok(Found {
                value: count,
                next: item.next,
            });
        }
        at = t.next;
    }
}
