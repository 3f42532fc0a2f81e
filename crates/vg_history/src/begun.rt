//! What a request comes to that was begun.

/// Its job was lent, or it was run as a whole.
#[derive(Drop)]
pub enum Begun<J, D> {
    Lent(J),
    Whole(D),
}
