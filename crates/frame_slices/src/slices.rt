// A list goes into the slice lent for it, and its length is answered; or it is refused 28 if it is too long.
ghost use Rattle.std.specs.Prelude.{◌≡◌, [], ◌++◌, ◌≤◌, length, drop};
ghost use Rattle.std.specs.Option.{option_to_list};
ghost use Rattle.graph.specs.Questions.{kept, if_room};
ghost use Rattle.frame_slices.specs.FrameAnswer.{FrameAnswered};

use layout::fronts::put_front;
use layout::refusals::{Reason, Refusal};
use tables::lists::holds;

// How many successors of a NEXT the header has too: the length of its frame list.
fn count_kept(list: &[u16], header: &[u16]) -> usize
    ensures { result ≡ length (kept header.now list.now) }
{
    list.iter().filter(|s| holds(header, **s)).count()
}

// The successors that the header has too go to the front of the slice, in their own order.
fn store_kept(list: &[u16], header: &[u16], out: &mut [u16])
    requires { length (kept header.now list.now) ≤ length out.old }
    ensures { out.new ≡ kept header.now list.now ++ drop (length (kept header.now list.now)) out.old }
{
    for (len, &s) in list.iter().filter(|s| holds(header, **s)).enumerate() {
        out[len] = s;
    }
}

// The whole list, if it fits the slice.
pub fn copy_list(list: &[u16], out: &mut [u16]) -> Result<usize, Refusal>
    ensures { FrameAnswered (if_room (length out.old) list.now) out.old out.new result }
{
    let len = list.len();
    if out.len() < len {
        return Err(Reason::NoRoom.at(len));
    }
    put_front(out, list);
    out[len..].fill(0);
    Ok(len)
}

// What the header has too, if it fits; counted first, since a refusal writes nothing.
pub fn keep_shared(list: &[u16], header: &[u16], out: &mut [u16]) -> Result<usize, Refusal>
    ensures { FrameAnswered (if_room (length out.old) (kept header.now list.now)) out.old out.new result }
{
    let count = count_kept(list, header);
    if out.len() < count {
        return Err(Reason::NoRoom.at(count));
    }
    store_kept(list, header, out);
    out[count..].fill(0);
    Ok(count)
}

// The empty list fits every slice.
// Kept: tried `copy_list` of an empty list: 8.9 % more instructions in a text of frame questions, `out` zeroed twice.
pub fn give_nothing(out: &mut [u16]) -> Result<usize, Refusal>
    ensures { FrameAnswered (if_room (length out.old) []) out.old out.new result }
{
    out.fill(0);
    Ok(0)
}

// The node where a call falls, or the empty list where it falls nowhere.
pub fn give_fall(fall: Option<u16>, out: &mut [u16]) -> Result<usize, Refusal>
    ensures { FrameAnswered (if_room (length out.old) (option_to_list fall)) out.old out.new result }
{
    match fall {
        None => give_nothing(out),
        Some(node) => copy_list(&[node], out),
    }
}
