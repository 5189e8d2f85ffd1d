// What a challenge answers.
use utreexo::types::{Input, Position};

// The block stands, or the first covered position, from the highest number down, at which the claimed input differs from the own one.
#[derive(Clone, Copy, PartialEq, Eq, Debug)]
pub enum Verdict {
    Stands,
    Differs {
        position: Position,
        own: Input,
        claimed: Input,
    },
}
