// Where in a list some of its places stand together.

// From the first of them to behind the last.
#[derive(Clone, Copy)]
pub struct Span {
    pub first: u16,
    pub end: u16,
}
