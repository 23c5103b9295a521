// An entry of a dictionary.

// Where an entry's bytes lie in the area, and the latest entry before it in the same bucket.
#[derive(Clone, Copy)]
pub struct Slot {
    pub(crate) start: u32,
    pub(crate) len: u32,
    pub(crate) next: Option<u32>,
}
