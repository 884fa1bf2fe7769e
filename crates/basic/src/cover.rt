// What covers a byte of a line.
ghost use Rattle.std.specs.Prelude.{◌≡◌};
ghost use Rattle.program_files.specs.Program.{behind, uncovered};
ghost use Rattle.basic.specs.Covers.{cover_of};

use super::codes;

// Nothing, quotes, a REM, a DATA, quotes in a DATA.
// Kept: `QuotedItem`, which no token's cursor has, since a DATA is jumped over as a whole: a caller may begin there.
// Kept: `Uncovered`, and no `Option` of a cover: tried, and `prglist` takes 1.5 to 4.1 % more instructions (1,000 lines
// of three plain statements 0.20 million more).
#[derive(Clone, Copy)]
pub enum Cover {
    Uncovered,
    Quoted,
    Remark,
    Items,
    QuotedItem,
}

impl Cover {
    // What covers the bytes behind an uncovered b: a quote, REM or DATA covers what follows.
    #[tactic(auto, unfolding(program_files::specs::Program::behind, crate::specs::Covers::cover_of))]
    pub(crate) fn behind(b: u8) -> Cover
        ensures { cover_of result ≡ behind uncovered b }
    {
        match b {
            b'"' => Cover::Quoted,
            codes::REM => Cover::Remark,
            codes::DATA => Cover::Items,
            _ => Cover::Uncovered,
        }
    }
}
