// The block reader: a group's words of M0 or an output's of M1, as part of that file.
#![tactic(auto)]

ghost use Rattle.std.specs.Prelude.{◌≡◌, true, false, [], cond, length, MatchResult};
ghost use Rattle.rules.specs.Cycle.{number_of};
ghost use Rattle.rules.specs.Reader as reader;
ghost use Rattle.reader.specs.Block.{is_group};
ghost use Rattle.reader.specs.declared.BlockOf.TheVariants.{Group, Output};

use rules::{Module, Refusal};

// Whose block is read.
#[derive(Clone, Copy, Debug, PartialEq, Eq)]
pub enum BlockOf {
    Group,
    Output,
}

impl BlockOf {
    // How many blocks a file has.
    fn count(self) -> u16
        ensures { result ≡ cond (is_group self) 6 32 }
    {
        match self {
            BlockOf::Group => 6,
            BlockOf::Output => 32,
        }
    }
}

// The block, or why it is refused: 1 before 2 before 4.
#[tactic(auto, unfolding(rules::specs::Reader::reader_refusal, rules::specs::Reader::reader_part, rules::specs::Cycle::number_of))]
fn block<'a>(m0: &'a [u16], m1: &'a [u16], of: BlockOf, n: u16) -> Result<&'a [u16], Refusal>
    ensures refusal { MatchResult result (λ _. reader.reader_refusal (length m0.now) (length m1.now) (is_group of) n ≡ 0) (λ why. reader.reader_refusal (length m0.now) (length m1.now) (is_group of) n ≡ number_of why) }
    ensures part { MatchResult result (λ part. reader.reader_part m0.now m1.now (is_group of) n ≡ part.now) (λ _. reader.reader_part m0.now m1.now (is_group of) n ≡ []) }
{
    if m0.len() != Module::M0_WORDS {
        return Err(Refusal::M0Length);
    }
    if m1.len() != Module::M1_WORDS {
        return Err(Refusal::M1Length);
    }
    if n == 0 || of.count() < n {
        return Err(Refusal::BlockNumber);
    }
    match of {
        BlockOf::Group => {
            let at = group_block::block_start(n);
            let end = at + group_block::WORDS;
            Ok(&m0[at..end])
        }
        BlockOf::Output => {
            let at = limit_block::block_start(n);
            let end = at + limit_block::WORDS;
            Ok(&m1[at..end])
        }
    }
}

// The part is empty on refusal; the refusal number goes to a lent number, 0 if none. 01 names this form, a part of one of two lent files; `block` is
// the same as a Result.
pub fn read_block<'a>(
    m0: &'a [u16],
    m1: &'a [u16],
    of: BlockOf,
    n: u16,
    refusal: &mut u16,
) -> &'a [u16]
    ensures group { of ≡ Group → (result.now ≡ reader.reader_part m0.now m1.now true n) × (refusal.new ≡ reader.reader_refusal (length m0.now) (length m1.now) true n) }
    ensures output { of ≡ Output → (result.now ≡ reader.reader_part m0.now m1.now false n) × (refusal.new ≡ reader.reader_refusal (length m0.now) (length m1.now) false n) }
{
    match block(m0, m1, of, n) {
        Ok(part) => {
            *refusal = 0;
            part
        }
        Err(why) => {
            *refusal = u16::from(why);
            &m0[0..0]
        }
    }
}
