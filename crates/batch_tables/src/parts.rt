// The tables of a batch, as a host holds them.
use crate::limits::{ChunkRow, Room};
use span::edition::Edition;
use span::fields::Fields;

// As flat as the batch has them: chunks, spans and maps, with the places of each map and the room that is reserved. Nothing is said of whether they
// hold together.
#[derive(Drop)]
pub struct Parts<E: Edition> {
    pub chunks: Vec<ChunkRow<E::Head>>,
    pub spans: Vec<Fields<E::Own>>,
    pub maps: E::Maps,
    pub stride: usize,
    pub room: Room,
}
