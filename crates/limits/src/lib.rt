// The limit words of M1: words 630 and 631, and the programming that acceptance brings.
#![tactic(auto)]

ghost use Rattle.std.specs.Prelude.{◌≡◌, not, eqb};
ghost use Rattle.rules.specs.Words.{table, lowest_of};
ghost use Rattle.rules.specs.LimitWords as limit;

use counts::ScaleFactor;
use limit_block::Block;
use rules::{Limit, Model, Programming};
use std::array;
use word::{Blocks, Failing, Layout};

// The place of the command word.
pub const COMMAND: usize = 0;

// A reserved bit of the command word, or a nonzero reserved word. What the three cycles share is in `word`; the places are this one's own.
#[tactic(auto, unfolding(rules::specs::LimitWords::limit_reserved))]
fn limit_reserved(file: &[u16]) -> bool
    ensures { result ≡ limit.limit_reserved file.now }
{
    word::other_bit(word::word_at(file, COMMAND), Layout::LimitCommand)
        || word::any_word(file, 1, 1)
        || word::any_word(file, 610, 629)
}

// Output n, from 1, has no group in Group Mode: the number 0, as the module stores it for C.
#[tactic(auto, unfolding(rules::specs::LimitWords::unassigned))]
fn unassigned(p: &Programming, n: u16) -> bool
    ensures { result ≡ limit.unassigned p.now n }
{
    let i = n.saturating_sub(1) as usize;
    !p.setup.independent && (i >= 32 || p.owners[i] == 0)
}

// The limit blocks of M1, judged against a model and the programming in force.
#[derive(Clone, Copy)]
struct LimitBlocks<'a> {
    model: Model,
    programming: &'a Programming,
    file: &'a [u16],
}

impl Blocks for LimitBlocks<'_> {
    ghost bits = { λ b n. limit.limit_bits b.model b.programming.now b.file.now n };

    // Bits 0 to 4 of output n, from 1.
    #[tactic(auto, unfolding(rules::specs::LimitWords::limit_bits))]
    fn errors_of(&self, n: u16) -> u16 {
        match Block::read(self.model, self.file, n) {
            None => 0,
            Some(_) if unassigned(self.programming, n) => 1,
            Some(block) => block.bits(
                ScaleFactor::from(self.programming.setup),
                limit_block::fifth_timed(self.file, n),
            ),
        }
    }
}

// Words 630 and 631: the lowest failing output's bits and its number, or bit 15 alone where a reserved bit or word is bad.
#[tactic(auto, unfolding(rules::specs::LimitWords::limit_errors, rules::specs::LimitWords::failing_limit))]
pub fn failing(model: Model, programming: Programming, file: &[u16]) -> Failing
    ensures errors { result.errors ≡ limit.limit_errors model programming file.now }
    ensures number { result.number ≡ limit.failing_limit model programming file.now }
{
    if limit_reserved(file) {
        return Failing::RESERVED;
    }
    let blocks = LimitBlocks {
        model,
        programming: &programming,
        file,
    };
    word::lowest_failing(32, &blocks)
}

// The programs of the 32 outputs.
pub fn limits_from(m: Model, file: &[u16]) -> [Limit; 32]
    ensures { result ≡ table 32 1 (limit.limit_from m file.now) }
{
    array::from_fn(|i| limit_block::limit_from(m, file, i as u16 + 1))
}

// The programming with these programs.
#[tactic(auto, unfolding(rules::specs::LimitWords::with_limits))]
pub fn with_limits(p: Programming, limits: [Limit; 32]) -> Programming
    ensures { result ≡ limit.with_limits p limits }
{
    Programming { limits, ..p }
}
