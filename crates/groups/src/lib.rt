// The group words of M0: words 110 and 111, and the programming that acceptance brings.
#![tactic(auto)]

ghost use Rattle.std.specs.Prelude.{◌≡◌};
ghost use Rattle.rules.specs.GroupWords as group;
ghost use Rattle.counts.specs.Factor.{factor};

use counts::ScaleFactor;
use group_block::Block;
use rules::{Group, Limit, Model, Programming};
use word::{Blocks, Failing, Layout};

// The place of the command word.
pub const COMMAND: usize = 20;

// A reserved bit of the command word, or a nonzero reserved word. What the three cycles share is in `word`; the places are this one's own.
#[tactic(auto, unfolding(rules::specs::GroupWords::group_reserved))]
fn group_reserved(file: &[u16]) -> bool
    ensures { result ≡ group.group_reserved file.now }
{
    word::other_bit(word::word_at(file, COMMAND), Layout::GroupCommand)
        || word::any_word(file, 21, 21)
        || word::any_word(file, 46, 99)
}

// The group blocks of M0, judged against a model and a scale factor.
#[derive(Clone, Copy)]
struct GroupBlocks<'a> {
    model: Model,
    sf: ScaleFactor,
    file: &'a [u16],
}

impl Blocks for GroupBlocks<'_> {
    ghost bits = { λ b n. group.group_bits b.model (factor b.sf) b.file.now n };

    fn errors_of(&self, n: u16) -> u16 {
        Block { file: self.file, n }.bits(self.model, self.sf)
    }
}

// Words 110 and 111: the lowest failing group's bits and its number, or bit 15 alone where a reserved bit or word is bad.
#[tactic(auto, unfolding(rules::specs::GroupWords::group_errors, rules::specs::GroupWords::failing_group))]
pub fn failing(model: Model, sf: ScaleFactor, file: &[u16]) -> Failing
    ensures errors { result.errors ≡ group.group_errors model (factor sf) file.now }
    ensures number { result.number ≡ group.failing_group model (factor sf) file.now }
{
    if group_reserved(file) {
        return Failing::RESERVED;
    }
    word::lowest_failing(6, &GroupBlocks { model, sf, file })
}

// Acceptance drops limit programs.
#[tactic(auto, unfolding(rules::specs::GroupWords::with_groups))]
pub fn with_groups(p: Programming, gs: [Group; 6]) -> Programming
    ensures { result ≡ group.with_groups p gs }
{
    Programming {
        setup: p.setup,
        groups: gs,
        owners: group_block::owners_of(gs),
        limits: [Limit::NONE; 32],
    }
}
