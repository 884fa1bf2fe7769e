// Which statements are calls.
ghost use Rattle.std.specs.Prelude.{◌≡◌};
ghost use Rattle.tables.specs.Columns.{call_word};

use layout::words::{GOSUB, ONGOSUB};

// The words whose continuation is a return target.
#[tactic(auto, unfolding(crate::specs::Columns::call_word))]
pub fn is_call(word: u16) -> bool
    ensures { result ≡ call_word word }
{
    matches!(word, GOSUB | ONGOSUB)
}
