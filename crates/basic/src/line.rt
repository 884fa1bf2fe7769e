// A line of a file, and what is counted of those before it.
ghost use Rattle.std.specs.Prelude.{◌≡◌, ◌+◌, ◌<◌, ◌≤◌, None, length};
ghost use Rattle.layout.specs.declared.limits.TheConstants.{MAX_STMTS};

// Behind some lines: the last number, if there is a line; how many lines and statements.
#[derive(Clone, Copy)]
pub(crate) struct Counted {
    pub(crate) last: Option<u16>,
    pub(crate) lines: usize,
    pub(crate) stmts: usize,
    ghost little: { stmts ≤ MAX_STMTS },
}

impl Counted {
    // Before the first line.
    pub(crate) fn start() -> Counted
        ensures last { result.last ≡ None }
        ensures lines { result.lines ≡ 0 }
        ensures stmts { result.stmts ≡ 0 }
    {
        Counted {
            last: None,
            lines: 0,
            stmts: 0,
        }
    }
}

// The line whose link stands at a place of a file.
#[derive(Clone, Copy)]
pub(crate) struct LineAt<'a> {
    pub(crate) file: &'a [u8],
    pub(crate) at: usize,
    ghost inside: { at + 3 < length file.now },
}

// The line is one more, and the next link stands at `next`.
#[derive(Clone, Copy)]
pub(crate) struct Taken {
    pub(crate) counted: Counted,
    pub(crate) next: usize,
}
