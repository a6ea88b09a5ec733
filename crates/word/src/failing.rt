// What the checks of a file's blocks find: the lowest block that fails, and how.

ghost use Rattle.std.specs.Prelude.{◌≡◌, ℕ, not, cond, eqb};
ghost use Rattle.rules.specs.Words as words;

// The failing block's bits and its number, from 1: two status words of a file. Both 0 if none fails.
#[derive(Clone, Copy, Debug, PartialEq, Eq)]
pub struct Failing {
    pub errors: u16,
    pub number: u16,
}

impl Failing {
    pub const NONE: Failing = Failing {
        errors: 0,
        number: 0,
    };

    // A reserved bit or word: of no block.
    pub const RESERVED: Failing = Failing {
        errors: crate::RESERVED_STATUS,
        number: 0,
    };
}

// The blocks of a file, each with its check.
pub trait Blocks {
    ghost bits: { Self → ℕ → ℕ };

    // The errors of block n, from 1; 0 if it passes.
    fn errors_of(&self, n: u16) -> u16
        ensures { result ≡ bits self.now n };
}

// The lowest of blocks 1 to n with errors.
pub fn lowest_failing<B: Blocks>(n: u16, blocks: &B) -> Failing
    ensures number { result.number ≡ words.lowest_of n 1 (λ k. not (eqb (B.bits blocks.now k) 0)) }
    ensures errors { result.errors ≡ cond (eqb result.number 0) 0 (B.bits blocks.now result.number) }
{
    for number in 1..=n {
        let errors = blocks.errors_of(number);
        if errors != 0 {
            return Failing { errors, number };
        }
    }
    Failing::NONE
}
