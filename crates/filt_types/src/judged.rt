use filt_meaning::Sort;

/// What is found of an expression: the byte at which it begins, and its sort. It has none where it
/// was refused for its sort or its names.
#[derive(Clone, Copy)]
pub struct Judged {
    pub at: usize,
    pub sort: Option<Sort>,
}
