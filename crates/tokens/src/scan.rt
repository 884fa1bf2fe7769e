// Searches in a text.
ghost use Rattle.std.specs.Prelude.{◌≡◌, ◌≤◌, ◌==◌, length};
ghost use Rattle.std.specs.List.{position};
ghost use Rattle.listings.specs.Bytes.{same};
ghost use Rattle.listings.specs.Scan.{index_of};
ghost use Rattle.tokens.specs.Scan.{FirstPiece, FirstWord, FirstRow};

// Where the first b stands.
fn place_of(s: &[u8], b: u8) -> Option<usize>
    ensures { result ≡ position (λ x. x == b) s.now }
{
    s.iter().position(|x| *x == b)
}

// How many bytes stand before the first b, all of them where there is none: for whoever goes on from there in either
// case.
pub fn find(s: &[u8], b: u8) -> usize
    ensures { (result ≡ index_of b s.now) × (result ≤ length s.now) }
{
    place_of(s, b).unwrap_or(s.len())
}

// What stands before the first b, and what stands behind it; none where there is no b.
// Kept: by `find`; tried as `place_of(s, b)?`, by which `flowlist` takes 2.2 % more instructions for 4,096 plain
// statements (12.41 million, 12.14).
#[tactic(auto, using(crate::specs::Scan::first_alone, crate::specs::Scan::first_more, crate::specs::Scan::first_parts))]
fn cut_at(s: &[u8], b: u8) -> Option<(&[u8], &[u8])>
    ensures { FirstPiece b s.now result }
{
    let e = find(s, b);
    if e == s.len() {
        return None;
    }
    Some((&s[..e], &s[e + 1..]))
}

// The first word, and the words after it; none where there is no other.
#[tactic(auto, using(crate::specs::Scan::word_first))]
pub fn first_word(s: &[u8]) -> Option<(&[u8], &[u8])>
    ensures { FirstWord s.now result }
{
    cut_at(s, b' ')
}

// The first row, and what stands behind the byte 10 that ends it; none where no row is ended by one.
pub fn first_row(s: &[u8]) -> Option<(&[u8], &[u8])>
    ensures { FirstRow s.now result }
{
    cut_at(s, b'\n')
}

// The same bytes.
// Kept: for one word, or a word of the table: with `==` each call would write `.as_slice()` at its literal. Of several
// words a `match` on their texts tells one, as in `tiers.rt`.
#[tactic(auto, using(crate::specs::ListWords::same_is))]
pub fn equal(a: &[u8], w: &[u8]) -> bool
    ensures { result ≡ same a.now w.now }
{
    a == w
}
