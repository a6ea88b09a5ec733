// The group blocks of M0: their checks, the bits of word 110, the programs that they give, and the dealing of outputs.
#![tactic(auto)]

ghost use Rattle.std.specs.Prelude.{◌≡◌, [], ◌∷◌, ◌+◌, ◌*◌, ◌<◌, ltb, MatchOption};
ghost use Rattle.rules.specs.Words as words;
ghost use Rattle.rules.specs.Variants as variants;
ghost use Rattle.rules.specs.GroupWords as group;
ghost use Rattle.counts.specs.Factor.{factor};
ghost use Rattle.group_block.specs.Blocks as blocks;

use counts::ScaleFactor;
use rules::{Group, IoType, Mode, Model, Pair};
use std::array;
use word::Layout;

// Bits of a control word: FCITyp, GPTyp, GPUsed.
const FIRST_CYCLE: u16 = 13;

const TYPE: u16 = 14;

const USED: u16 = 15;

// The words of a block.
pub const WORDS: usize = 4;

// The place of group block n.
pub fn block_start(n: u16) -> usize
    ensures { result ≡ 18 + 4 * n }
{
    18 + WORDS * n as usize
}

// Group block n of a file, n from 1.
#[derive(Clone, Copy)]
pub struct Block<'a> {
    pub file: &'a [u16],
    pub n: u16,
}

impl Block<'_> {
    // Word k of the block: control, on, off, offset.
    fn word(&self, k: u16) -> u16
        ensures { result ≡ group.group_word self.now.file.now self.now.n k }
    {
        word::word_at(self.file, block_start(self.n) + k as usize)
    }

    // Bit n of the control word.
    fn has(&self, n: u16) -> bool
        ensures { result ≡ words.bit (group.group_word self.now.file.now self.now.n 0) n }
    {
        word::bit(self.word(0), n)
    }

    // Bits 4–0 of the control word.
    fn quantity(&self) -> u16
        ensures { result ≡ group.control_quantity (group.group_word self.now.file.now self.now.n 0) }
    {
        self.word(0) % 32
    }

    // The number of the mode, bits 10–8 of the control word.
    fn mode(&self) -> u16
        ensures { result ≡ group.control_mode (group.group_word self.now.file.now self.now.n 0) }
    {
        self.word(0) / 256 % 8
    }

    fn dwell(&self) -> Pair
        ensures { result ≡ record { on = group.group_word self.now.file.now self.now.n 1; off = group.group_word self.now.file.now self.now.n 2 } }
    {
        Pair {
            on: self.word(1),
            off: self.word(2),
        }
    }

    // The group that the words give; an unused one has no program. It is made of words at their places: a `From` would be no plainer.
    #[tactic(auto, unfolding(rules::specs::GroupWords::group_of))]
    fn group(&self) -> Group
        ensures { result ≡ group.group_of self.now.file.now self.now.n }
    {
        if !self.has(USED) {
            return Group::NONE;
        }
        Group {
            used: true,
            isvirtual: self.has(TYPE),
            firstvirtual: self.has(FIRST_CYCLE),
            mode: self.mode(),
            quantity: self.quantity(),
            dwell: self.dwell(),
            offset: self.word(3),
        }
    }

    // FCITyp 0 in Mode 5 on an 8511.
    #[tactic(auto, unfolding(rules::specs::Variants::io_count, rules::specs::Variants::mode_of))]
    fn lacks_first_cycle(&self, m: Model) -> bool
        ensures { result ≡ group.lacks_first_cycle m (group.group_word self.now.file.now self.now.n 0) }
    {
        m.count(IoType::Real) == 0
            && matches!(Mode::from(self.mode()), Mode::Mode5)
            && !self.has(FIRST_CYCLE)
    }

    // The groups up to this one take more outputs of a type than there are.
    fn too_many(&self, m: Model, t: IoType) -> bool
        ensures { result ≡ ltb (variants.io_count m t) (group.dealt_up_to self.now.file.now t self.now.n) }
    {
        u32::from(m.count(t)) < dealt_up_to(self.file, t, self.n)
    }

    // GPgErr: quantity, mode, an unnamed bit, FCITyp, or more outputs than are left.
    #[tactic(auto, unfolding(rules::specs::GroupWords::group_program_bad, rules::specs::Variants::mode_of))]
    fn program_bad(&self, m: Model) -> bool
        ensures { result ≡ group.group_program_bad m self.now.file.now self.now.n }
    {
        !(1..=16).contains(&self.quantity())
            || matches!(Mode::from(self.mode()), Mode::NoMode)
            || word::other_bit(self.word(0), Layout::GroupControl)
            || self.lacks_first_cycle(m)
            || self.too_many(m, IoType::from(self.has(TYPE)))
    }

    // GOFErr 0, GPgErr 1, GCSErr 2; an unused group's words are ignored.
    #[tactic(auto, unfolding(rules::specs::GroupWords::group_bits))]
    pub fn bits(&self, m: Model, sf: ScaleFactor) -> u16
        ensures { result ≡ group.group_bits m (factor sf) self.now.file.now self.now.n }
    {
        if !self.has(USED) {
            return 0;
        }
        word::bits(
            sf.top < self.word(3),
            self.program_bad(m),
            sf.pair_bad(self.dwell()),
            false,
            false,
            false,
        )
    }
}

// The six groups of a file.
pub fn groups_of(file: &[u16]) -> [Group; 6]
    ensures { result ≡ words.table 6 1 (group.group_of file.now) }
{
    array::from_fn(|k| {
        let n = k as u16 + 1;
        Block { file, n }.group()
    })
}

// How many outputs of a type a group takes.
#[tactic(auto, unfolding(crate::specs::Blocks::share_of))]
fn share(g: Group, t: IoType) -> u16
    ensures { result ≡ blocks.share_of t g }
{
    if g.used && t == IoType::from(g.isvirtual) {
        g.quantity
    } else {
        0
    }
}

// How many outputs of a type groups 1 to n take.
#[tactic(auto, unfolding(rules::specs::GroupWords::dealt_up_to))]
fn dealt_up_to(file: &[u16], t: IoType, n: u16) -> u32
    ensures { result ≡ group.dealt_up_to file.now t n }
{
    let mut dealt: u32 = 0;
    for k in 0..n {
        dealt += share(Block { file, n: k + 1 }.group(), t) as u32;
    }
    dealt
}

// The number of the group that takes output i of a type, counted from 0. The search is the rule, six shares in order; a map would only hold what it finds.
#[tactic(auto, unfolding(rules::specs::GroupWords::dealt_to))]
fn dealt_to(groups: &[Group; 6], t: IoType, i: u16) -> Option<u16>
    ensures { MatchOption result (group.dealt_to t groups.now 1 i ≡ 0) (λ n. (n ≡ group.dealt_to t groups.now 1 i) × (0 < n)) }
{
    let mut left = i;
    for (k, g) in groups.iter().enumerate() {
        let taken = share(*g, t);
        if left < taken {
            return Some(k as u16 + 1);
        }
        left -= taken;
    }
    None
}

// The number of the group that owns output n, counted from 0: 0 to 15 are real, 16 to 31 virtual, as 01 numbers them.
#[tactic(auto, unfolding(crate::specs::Blocks::owner_in))]
fn owner(groups: &[Group; 6], n: u16) -> Option<u16>
    ensures { MatchOption result (blocks.owner_in groups.now n ≡ 0) (λ k. (k ≡ blocks.owner_in groups.now n) × (0 < k)) }
{
    if n < 16 {
        dealt_to(groups, IoType::Real, n)
    } else {
        dealt_to(groups, IoType::Virtual, n - 16)
    }
}

// Outputs are dealt consecutively per type. An output of no group has the number 0.
pub fn owners_of(groups: [Group; 6]) -> [u16; 32]
    ensures { result ≡ group.owners_of groups }
{
    array::from_fn(|n| owner(&groups, n as u16).unwrap_or(0))
}
