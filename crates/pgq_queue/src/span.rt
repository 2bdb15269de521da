/// What decides which events a batch has: its queue's number, its subscription, and the ids of its opening and closing
/// tick.
#[derive(Clone, Copy)]
pub struct Span {
    pub queue: usize,
    pub sub: u64,
    pub prev: u64,
    pub cur: u64,
}
