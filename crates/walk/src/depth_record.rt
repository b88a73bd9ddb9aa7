// What is kept for a depth: by which turn it was reached, and which was last tried from it; 0 where there is none.
#[derive(Clone, Copy, PartialEq, Eq, Debug)]
pub(crate) struct DepthRecord {
    pub(crate) led: u8,
    pub(crate) tried: u8,
}
