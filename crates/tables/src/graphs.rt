// The tables of a graph that was built, as they are read.

// Which of them each routine reads, its contract says.
#[derive(Clone, Copy)]
pub struct Graph<'a> {
    pub counts: &'a [u32; 6],
    pub lines: &'a [u16],
    pub stmts: &'a [u16],
    pub args: &'a [u64],
    pub entries: &'a [u16],
    pub falls: &'a [u16],
    pub lists: &'a [u16],
    pub returns: &'a [u16],
    pub succ: &'a [u16],
    pub pred: &'a [u16],
}
