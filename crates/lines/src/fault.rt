//! Why a line is refused.
ghost use Rattle.std.specs.Prelude.{◌≡◌};

use capability::refusal::Refusal;

/// A refusal, and the number that is answered with it.
#[derive(Clone, Copy, PartialEq, Eq, Debug)]
pub struct Fault {
    pub refusal: Refusal,
    pub answer: u64,
}

/// A call that is refused answers 0.
impl From<Refusal> for Fault {
    ghost from_gives = { λ refusal fault. fault ≡ record { refusal = refusal; answer = 0 } };

    fn from(refusal: Refusal) -> Fault {
        Fault { refusal, answer: 0 }
    }
}
