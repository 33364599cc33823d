// How a call ended. A store's name asks only whether the call is done: what a step handed back tells it, and so does a number.

ghost use Rattle.std.specs.Prelude.{◌≡◌, ℕ, eqb};
ghost use Rattle.refusals.specs.Refusals.{number_in};

use refusals::Refusal;
use state::State;

// What tells the number that the call answers: done where that is 0.
pub trait Numbered: Copy {
    ghost number: { Self → ℕ };

    fn is_done(self) -> bool
        ensures { result ≡ eqb (number self) 0 };
}

// What a step hands back.
pub type Ended = Result<State, Refusal>;

impl Numbered for &Result<State, Refusal> {
    ghost number = { λ ended. number_in ended.now };

    fn is_done(self) -> bool {
        self.is_ok()
    }
}

// The number itself, also one that is in no table.
impl Numbered for u8 {
    ghost number = { λ n. n };

    fn is_done(self) -> bool {
        self == refusals::DONE
    }
}
