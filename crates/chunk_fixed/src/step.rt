/// What a step of feeding came to: a chunk is whole with so many bytes of the piece, or the whole piece is held.
#[derive(Drop)]
pub(crate) enum Feeding {
    Whole { chunk: Vec<u8>, taken: usize },
    Held,
}
