// A statement by its first byte: what it does, its arguments, and where what follows begins.
ghost use Rattle.std.specs.Prelude.{◌≡◌, ◌∷◌, [], length, IfOk};
ghost use Rattle.program_files.specs.Program.{map_found, line_number, seek, branch, if_action, on_action, next_action, run_action, action, pass_over};
ghost use Rattle.basic.specs.Cursors.{tokens_at};
ghost use Rattle.basic.specs.Found.{found_by};
ghost use Rattle.basic.specs.Items.{put_front};
ghost use Rattle.basic.specs.Actions.{coded, IsOne, IsList, one_in, args_in, fuel};

use super::codes;
use super::cursors::{Cursor, token_at};
use super::found::{Found, Lack};
use super::items::{Item, read_items};
use super::names::key_at;
use super::numbers::line_number;
use layout::words::{CLR, FOR, GOSUB, GOTO, NEXT, ONGOSUB, ONGOTO, PLAIN, RETURN, RUN, STOP};
use tokens::names::is_capital;
use tokens::numbers::is_digit;

// A statement that holds no others, by the number of its opening word, with so many arguments; an IF with a jump
// branch; an IF whose THEN holds the rest of its line.
#[derive(Clone, Copy)]
pub enum Action {
    Does { word: u16, count: usize },
    Jumps(u16),
    Holds,
}

// The first of two tokens in a statement.
// Kept: `loop`; tried as `find` over `std::iter::successors` (at `foreign_at`): `find` asks that what it walks ends,
// and by std's laws `successors` never does. An iterator of its own is no plainer: the line's end, whose place is
// asked, would have to come once, by a field more. Nor is one function of a test for this loop, `pass_over`,
// `foreign_at` and `statement_row_at`: they answer a token, the cursor before one, and a place among the bytes that GO
// and TO are not joined in.
fn seek_at(file: &[u8], c: Cursor, x: u8, y: u8) -> Result<Found<u8>, Lack>
    ensures { found_by (tokens_at file.now) result ≡ seek x y (tokens_at file.now c) }
{
    let mut at = c;
    loop {
        let t = token_at(file, at);
        match t.byte {
            0 | b':' => return Err(Lack { place: t.place }),
            byte if byte == x || byte == y => {
                return Ok(Found {
                    value: byte,
                    next: t.next,
                });
            }
            _ => at = t.next,
        }
    }
}

// "The rest of a statement is passed over": up to its colon or zero, at which the cursor stands that is answered.
// Kept: `loop`, as `seek_at`.
pub(crate) fn pass_over(file: &[u8], c: Cursor) -> Cursor
    ensures { tokens_at file.now result ≡ pass_over (tokens_at file.now c) }
{
    let mut at = c;
    loop {
        let t = token_at(file, at);
        match t.byte {
            0 | b':' => return Cursor::uncovered(t.place),
            _ => at = t.next,
        }
    }
}

// One argument at the front of `part`, if it has room.
#[tactic(auto, using(crate::specs::ItemLaws::put_one_front, crate::specs::ItemLaws::put_one_full))]
fn put_first(value: u64, part: &mut [u64])
    ensures { part.new ≡ put_front (value ∷ []) part.old }
{
    if let Some(first) = part.first_mut() {
        *first = value;
    }
}

// A word with one number or one name, which is put.
// Kept: takes what was found or is lacking, as `list_at` does: with `?` in the arms of `action_at` each would name what
// was found only to hand its cursor on.
fn one_at(word: u16, f: Result<Found<u64>, Lack>, part: &mut [u64]) -> Result<Found<Action>, Lack>
    ensures told { IsOne word f result }
    ensures put { IfOk result (λ r. part.new ≡ put_front (one_in f) part.old) }
{
    let one = f?;
    put_first(one.value, part);
    Ok(one.with(Action::Does { word, count: 1 }))
}

// A word with as many items.
fn list_at(word: u16, n: Result<Found<usize>, Lack>) -> Result<Found<Action>, Lack>
    ensures { IsList word n result }
{
    n.map(|items| {
        items.with(Action::Does {
            word,
            count: items.value,
        })
    })
}

// A word with so many arguments; what follows begins at c.
fn does_at(word: u16, count: usize, c: Cursor) -> Result<Found<Action>, Lack>
    ensures { result ≡ Ok (record { value = Action.Does word count; next = c }) }
{
    Ok(Found {
        value: Action::Does { word, count },
        next: c,
    })
}

// The jump branch of an IF.
fn jump_at(file: &[u8], c: Cursor) -> Result<Found<Action>, Lack>
    ensures { found_by (tokens_at file.now) result ≡ map_found Action.Jumps (line_number (tokens_at file.now c)) }
{
    let number = line_number(file, c)?;
    Ok(number.with(Action::Jumps(number.value as u16)))
}

// Behind the THEN or GOTO of an IF, which is byte b.
fn branch_at(file: &[u8], b: u8, c: Cursor) -> Result<Found<Action>, Lack>
    ensures { found_by (tokens_at file.now) result ≡ map_found coded (branch b (tokens_at file.now c)) }
{
    let t = token_at(file, c);
    if is_digit(t.byte) {
        return jump_at(file, c);
    }
    if b != codes::THEN || t.byte == 0 {
        return Err(Lack { place: t.place });
    }
    Ok(Found {
        value: Action::Holds,
        next: c,
    })
}

// "an IF lacks THEN or GOTO"
fn if_at(file: &[u8], c: Cursor) -> Result<Found<Action>, Lack>
    ensures { found_by (tokens_at file.now) result ≡ map_found coded (if_action (tokens_at file.now c)) }
{
    let then = seek_at(file, c, codes::THEN, codes::GOTO)?;
    branch_at(file, then.value, then.next)
}

// "ON has GOTO or GOSUB after its expression"
fn on_at(file: &[u8], c: Cursor, part: &mut [u64]) -> Result<Found<Action>, Lack>
    ensures told { found_by (tokens_at file.now) result ≡ map_found coded (on_action (fuel file.now c) (tokens_at file.now c)) }
    ensures put { IfOk result (λ r. part.new ≡ put_front (args_in (on_action (fuel file.now c) (tokens_at file.now c))) part.old) }
{
    let jump = seek_at(file, c, codes::GOTO, codes::GOSUB)?;
    let word = if jump.value == codes::GOTO {
        ONGOTO
    } else {
        ONGOSUB
    };
    list_at(word, read_items(file, jump.next, Item::Number, part))
}

// "NEXT with no name first has the one slot `*`."
// Kept: `*` is 0, here and where keys are stored, since it is an entry of the lent table; no name has that key.
fn next_at(file: &[u8], c: Cursor, part: &mut [u64]) -> Result<Found<Action>, Lack>
    ensures told { found_by (tokens_at file.now) result ≡ map_found coded (next_action (fuel file.now c) (tokens_at file.now c)) }
    ensures put { IfOk result (λ r. part.new ≡ put_front (args_in (next_action (fuel file.now c) (tokens_at file.now c))) part.old) }
{
    let t = token_at(file, c);
    if is_capital(t.byte) {
        return list_at(NEXT, read_items(file, c, Item::Name, part));
    }
    put_first(0, part);
    does_at(NEXT, 1, c)
}

// RUN with a number or without.
fn run_at(file: &[u8], c: Cursor, part: &mut [u64]) -> Result<Found<Action>, Lack>
    ensures told { found_by (tokens_at file.now) result ≡ map_found coded (run_action (tokens_at file.now c)) }
    ensures put { IfOk result (λ r. part.new ≡ put_front (args_in (run_action (tokens_at file.now c))) part.old) }
{
    let t = token_at(file, c);
    if is_digit(t.byte) {
        return one_at(RUN, line_number(file, c), part);
    }
    does_at(RUN, 0, c)
}

// The statement whose first byte is b; c stands behind it. Its arguments at the front of `part`, as far as it goes:
// numbers, names' keys, 0 for `*`. Where something is lacking, nothing is said of what `part` then holds.
// Kept: a byte and a cursor, not a `Token`: its place is not asked.
pub fn action_at(file: &[u8], b: u8, c: Cursor, part: &mut [u64]) -> Result<Found<Action>, Lack>
    ensures told { found_by (tokens_at file.now) result ≡ map_found coded (action (fuel file.now c) b (tokens_at file.now c)) }
    ensures put { IfOk result (λ r. part.new ≡ put_front (args_in (action (fuel file.now c) b (tokens_at file.now c))) part.old) }
{
    match b {
        codes::END | codes::STOP => does_at(STOP, 0, c),
        codes::RETURN => does_at(RETURN, 0, c),
        codes::CLR => does_at(CLR, 0, c),
        codes::FOR => one_at(FOR, key_at(file, c), part),
        codes::NEXT => next_at(file, c, part),
        codes::GOTO => one_at(GOTO, line_number(file, c), part),
        codes::GOSUB => one_at(GOSUB, line_number(file, c), part),
        codes::RUN => run_at(file, c, part),
        codes::IF => if_at(file, c),
        codes::ON => on_at(file, c, part),
        _ => does_at(PLAIN, 0, c),
    }
}
