// A used count, as an index.
ghost use Rattle.std.specs.Prelude.{◌≡◌, ◌<◌};

// Kept: std has no conversion from u32 to usize that cannot fail.
pub fn count_of(x: u32) -> usize
    ensures { (result ≡ x) × (result < 4294967296) }
{
    x as usize
}
