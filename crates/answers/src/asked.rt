// The tables that questions are answered from, whoever wrote them.

// Kept: beside `Graph`, which has two more that no question reads: whoever asks would have to name these too.
// Kept: no `FrameTables` among them: tried, in place and by a function that takes one: `ask_text` fills it from lent
// tables, and as it goes on into this struct, the borrow checker does not cover "a reference at an intersection of
// lifetimes".
#[derive(Clone, Copy)]
pub struct QuestionTables<'a> {
    pub counts: &'a [u32; 6],
    pub stmts: &'a [u16],
    pub args: &'a [u64],
    pub entries: &'a [u16],
    pub falls: &'a [u16],
    pub lists: &'a [u16],
    pub succ: &'a [u16],
    pub pred: &'a [u16],
}
