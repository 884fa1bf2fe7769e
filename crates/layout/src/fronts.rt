// The front of a part.
ghost use Rattle.std.specs.Prelude.{◌≡◌, ◌++◌, length, take, drop};

// A list goes to the front of a part, as much of it as there is room for; what stands behind it stays.
// Kept: a loop; std's `copy_from_slice` becomes a call of `memmove`, which who links the archive for C would have to
// bring beside `memcpy` and `memset`.
pub fn put_front<T: Copy>(part: &mut [T], list: &[T])
    ensures { part.new ≡ take (length part.old) list.now ++ drop (length list.now) part.old }
{
    let n = part.len().min(list.len());
    for i in 0..n {
        part[i] = list[i];
    }
}
