// Entries of one value: a whole array, or a table from an entry on.
ghost use Rattle.std.specs.Prelude.{◌≡◌, replicate};
ghost use Rattle.layout.specs.Zeroed.{filled_behind};

// N entries of one value. In a function of its own: a caller's proof then speaks of them by their number alone.
pub fn all_of<T: Copy, const N: usize>(value: T) -> [T; N]
    ensures { result ≡ replicate N value }
{
    [value; N]
}

// The entries from `at` on become `value`.
// Kept: a loop; tried with std's `fill`, which asks of a type parameter that no clone fails, and says of clones what
// the type's `Clone` does: callers would have to show both. A caller's own `t[at..].fill(0)` proves too, and stands in
// other places; for the FOR stack it took up to 0.3 % more instructions (`stacks.rt` of the wiring).
pub fn fill_behind<T: Copy>(t: &mut [T], at: usize, value: T)
    ensures { t.new ≡ filled_behind value at t.old }
{
    if at < t.len() {
        for x in &mut t[at..] {
            *x = value;
        }
    }
}
