// What decoders answer.

/// What a decoder answers to a piece of a stream.
#[derive(Clone, Copy, Debug, PartialEq, Eq)]
pub enum Fed {
    /// The whole piece was taken, and no frame is whole.
    More,
    /// So many bytes of the piece, at least one, were taken, and the last of them ends a frame.
    Whole(usize),
    /// Some part of the bytes is none of a frame's, and nothing is read any more.
    Broken,
}
