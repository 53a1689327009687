//! A block of SHA-384, SHA-512, SHA-512/224 or SHA-512/256 that is taken into one hash value (FIPS 180-4, 6.4.2). The
//! schedule, by vectors of two words, goes beside the rounds, and nothing of it is kept in memory.
ghost use Rattle.std.specs.Prelude.{◌≡◌, ℕ, ◌+◌, ◌/◌, ◌%◌, ◌≤◌, List, length};
ghost use Rattle.sha2.specs.Sha512.{compress, hash_after, rounds, schedule};
ghost use Rattle.sha2_blocks.specs.LongSteps.{HaveCome, two_words};

use crate::long_rounds::{add_variables, one_round};
use crate::long_words::{Sixteen, sixteen_first, sums_of, two_later};
use std::simd::u64x2;

/// How many octets a block has.
const BLOCK: usize = 128;

/// How far a block was taken: the sixteen words of the next rounds, and the working variables.
#[derive(Clone, Copy)]
pub(crate) struct Stage {
    words: Sixteen,
    variables: [u64; 8],
}

/// The rounds `t` and `t + 1`, and the two words that come sixteen later, between them.
#[inline(always)]
fn two_further(stage: Stage, t: usize) -> Stage
    requires { t + 18 ≤ 80 }
    ensures { (h b : List ℕ) → HaveCome stage h b t → HaveCome result h b (t + 2) }
{
    let [first, second] = sums_of(stage.words.w0, t);
    let between = one_round(stage.variables, first);
    let words = two_later(stage.words);
    let variables = one_round(between, second);
    Stage { words, variables }
}

/// The same for eight rounds from `t` on.
#[inline(always)]
fn eight_further(stage: Stage, t: usize) -> Stage
    requires { t + 24 ≤ 80 }
    ensures { (h b : List ℕ) → HaveCome stage h b t → HaveCome result h b (t + 8) }
{
    let stage = two_further(stage, t);
    let stage = two_further(stage, t + 2);
    let stage = two_further(stage, t + 4);
    two_further(stage, t + 6)
}

/// The rounds `t` and `t + 1`, with their words.
#[inline(always)]
fn two_rounds(v: [u64; 8], words: u64x2, t: usize) -> [u64; 8]
    requires { t + 2 ≤ 80 }
    ensures { (h ws : List ℕ) → words ≡ two_words ws t → v ≡ rounds h ws t → result ≡ rounds h ws (t + 2) }
{
    let [first, second] = sums_of(words, t);
    one_round(one_round(v, first), second)
}

/// The working variables after the last sixteen rounds.
#[inline(always)]
fn last_rounds(stage: Stage) -> [u64; 8]
    ensures { (h b : List ℕ) → HaveCome stage h b 64 → result ≡ rounds h (schedule b 64) 80 }
{
    let v = two_rounds(stage.variables, stage.words.w0, 64);
    let v = two_rounds(v, stage.words.w1, 66);
    let v = two_rounds(v, stage.words.w2, 68);
    let v = two_rounds(v, stage.words.w3, 70);
    let v = two_rounds(v, stage.words.w4, 72);
    let v = two_rounds(v, stage.words.w5, 74);
    let v = two_rounds(v, stage.words.w6, 76);
    two_rounds(v, stage.words.w7, 78)
}

/// Takes a block into a hash value.
#[inline(never)]
fn take_block(hash: &mut [u64; 8], block: &[u8])
    requires { length block.now ≡ 128 }
    ensures { hash.new ≡ compress hash.old block.now }
{
    let mut stage = Stage {
        words: sixteen_first(block),
        variables: *hash,
    };
    // Sixteen words a turn, so that each vector is where it was.
    'turns: for turn in 0..4usize {
        stage = eight_further(stage, 16 * turn);
        stage = eight_further(stage, 16 * turn + 8);
    }
    add_variables(hash, last_rounds(stage));
}

/// Takes whole blocks into a hash value.
pub(crate) fn take_blocks_of_one(hash: &mut [u64; 8], octets: &[u8])
    requires { length octets.now % 128 ≡ 0 }
    ensures { hash.new ≡ hash_after hash.old octets.now (length octets.now / 128) }
{
    'each: for i in 0..octets.len() / BLOCK {
        take_block(hash, &octets[BLOCK * i..BLOCK * i + BLOCK]);
    }
}
