// FOR's tier and NEXT's mark, as words and as the numbers that the lent table has for them.
ghost use Rattle.std.specs.Prelude.{◌≡◌};
ghost use Rattle.listings.specs.Rows.{parse_tier, parse_mark};
ghost use Rattle.tokens.specs.Tiers.{tier_found, mark_found};

use layout::columns::{DISPATCHED, ORPHAN};

#[derive(Clone, Copy, Debug, PartialEq, Eq)]
pub enum Tier {
    Static = 0,
    Framed = 1,
    Dispatched = DISPATCHED as isize,
}

#[derive(Clone, Copy, Debug, PartialEq, Eq)]
pub enum Mark {
    Plain = 0,
    Orphan = ORPHAN as isize,
}

// The tier that a word is.
#[tactic(auto, using(crate::specs::Tiers::tier_static, crate::specs::Tiers::tier_framed, crate::specs::Tiers::tier_dispatched, crate::specs::Tiers::no_tier))]
pub fn tier_of(w: &[u8]) -> Option<Tier>
    ensures { result ≡ tier_found (parse_tier w.now) }
{
    match w {
        b"static" => Some(Tier::Static),
        b"framed" => Some(Tier::Framed),
        b"dispatched" => Some(Tier::Dispatched),
        _ => None,
    }
}

// The mark that a word is.
#[tactic(auto, using(crate::specs::Tiers::mark_plain, crate::specs::Tiers::mark_orphan, crate::specs::Tiers::no_mark))]
pub fn mark_of(w: &[u8]) -> Option<Mark>
    ensures { result ≡ mark_found (parse_mark w.now) }
{
    match w {
        b"plain" => Some(Mark::Plain),
        b"orphan" => Some(Mark::Orphan),
        _ => None,
    }
}
