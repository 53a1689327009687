//! The schedule of a block of SHA-384, SHA-512, SHA-512/224 or SHA-512/256 (FIPS 180-4, 6.4.2, step 1), two words at a
//! time: each lane of a vector is a word.
ghost use Rattle.std.specs.Prelude.{◌≡◌, ℕ, ◌+◌, ◌≤◌, List, [], ◌∷◌, length, map};
ghost use Rattle.std.specs.Simd.Lanes.{chunk, put_chunk};
ghost use Rattle.sha2.specs.Sha512.{schedule, small_sigma0, small_sigma1, word_at};
ghost use Rattle.sha2_blocks.specs.LongSteps.{AreSixteen, two_sums, two_words};
ghost use Rattle.sha2_blocks.specs.Sums.{AreLongSums};

use std::simd::u64x2;

/// K 0 to K 79 (4.2.3).
#[rattlefmt::skip]
const ROUND_CONSTANTS: [u64; 80] = [
    0x428a_2f98_d728_ae22, 0x7137_4491_23ef_65cd, 0xb5c0_fbcf_ec4d_3b2f, 0xe9b5_dba5_8189_dbbc,
    0x3956_c25b_f348_b538, 0x59f1_11f1_b605_d019, 0x923f_82a4_af19_4f9b, 0xab1c_5ed5_da6d_8118,
    0xd807_aa98_a303_0242, 0x1283_5b01_4570_6fbe, 0x2431_85be_4ee4_b28c, 0x550c_7dc3_d5ff_b4e2,
    0x72be_5d74_f27b_896f, 0x80de_b1fe_3b16_96b1, 0x9bdc_06a7_25c7_1235, 0xc19b_f174_cf69_2694,
    0xe49b_69c1_9ef1_4ad2, 0xefbe_4786_384f_25e3, 0x0fc1_9dc6_8b8c_d5b5, 0x240c_a1cc_77ac_9c65,
    0x2de9_2c6f_592b_0275, 0x4a74_84aa_6ea6_e483, 0x5cb0_a9dc_bd41_fbd4, 0x76f9_88da_8311_53b5,
    0x983e_5152_ee66_dfab, 0xa831_c66d_2db4_3210, 0xb003_27c8_98fb_213f, 0xbf59_7fc7_beef_0ee4,
    0xc6e0_0bf3_3da8_8fc2, 0xd5a7_9147_930a_a725, 0x06ca_6351_e003_826f, 0x1429_2967_0a0e_6e70,
    0x27b7_0a85_46d2_2ffc, 0x2e1b_2138_5c26_c926, 0x4d2c_6dfc_5ac4_2aed, 0x5338_0d13_9d95_b3df,
    0x650a_7354_8baf_63de, 0x766a_0abb_3c77_b2a8, 0x81c2_c92e_47ed_aee6, 0x9272_2c85_1482_353b,
    0xa2bf_e8a1_4cf1_0364, 0xa81a_664b_bc42_3001, 0xc24b_8b70_d0f8_9791, 0xc76c_51a3_0654_be30,
    0xd192_e819_d6ef_5218, 0xd699_0624_5565_a910, 0xf40e_3585_5771_202a, 0x106a_a070_32bb_d1b8,
    0x19a4_c116_b8d2_d0c8, 0x1e37_6c08_5141_ab53, 0x2748_774c_df8e_eb99, 0x34b0_bcb5_e19b_48a8,
    0x391c_0cb3_c5c9_5a63, 0x4ed8_aa4a_e341_8acb, 0x5b9c_ca4f_7763_e373, 0x682e_6ff3_d6b2_b8a3,
    0x748f_82ee_5def_b2fc, 0x78a5_636f_4317_2f60, 0x84c8_7814_a1f0_ab72, 0x8cc7_0208_1a64_39ec,
    0x90be_fffa_2363_1e28, 0xa450_6ceb_de82_bde9, 0xbef9_a3f7_b2c6_7915, 0xc671_78f2_e372_532b,
    0xca27_3ece_ea26_619c, 0xd186_b8c7_21c0_c207, 0xeada_7dd6_cde0_eb1e, 0xf57d_4f7f_ee6e_d178,
    0x06f0_67aa_7217_6fba, 0x0a63_7dc5_a2c8_98a6, 0x113f_9804_bef9_0dae, 0x1b71_0b35_131c_471b,
    0x28db_77f5_2304_7d84, 0x32ca_ab7b_40c7_2493, 0x3c9e_be0a_15c9_bebc, 0x431d_67c4_9c10_0d4c,
    0x4cc5_d4be_cb3e_42b6, 0x597f_299c_fc65_7e2a, 0x5fcb_6fab_3ad6_faec, 0x6c44_198c_4a47_5817,
];

/// The lower case sigma 0 of each lane (4.1.3), one rotation inside the other.
#[inline(always)]
fn lower_sigma0(x: u64x2) -> u64x2
    ensures { result ≡ map small_sigma0 x }
{
    let inner = x ^ ((x >> 7) | (x << 57));
    ((inner >> 1) | (inner << 63)) ^ (x >> 7)
}

/// The lower case sigma 1 of each lane (4.1.3), one rotation inside the other.
#[inline(always)]
fn lower_sigma1(x: u64x2) -> u64x2
    ensures { result ≡ map small_sigma1 x }
{
    let inner = x ^ ((x >> 42) | (x << 22));
    ((inner >> 19) | (inner << 45)) ^ (x >> 6)
}

/// The two words after sixteen, of which these are the first four, the ninth to twelfth, and the last two.
#[inline(always)]
fn next_words(w0: u64x2, w1: u64x2, w4: u64x2, w5: u64x2, w7: u64x2) -> u64x2
    ensures { (b : List ℕ) (t : ℕ) → t + 18 ≤ 80
        → w0 ≡ two_words (schedule b 64) t → w1 ≡ two_words (schedule b 64) (t + 2)
        → w4 ≡ two_words (schedule b 64) (t + 8) → w5 ≡ two_words (schedule b 64) (t + 10)
        → w7 ≡ two_words (schedule b 64) (t + 14) → result ≡ two_words (schedule b 64) (t + 16) }
{
    let known = w0 + w4.shuffle(w5, [1, 2]) + lower_sigma0(w0.shuffle(w1, [1, 2]));
    known + lower_sigma1(w7)
}

/// The word at an octet of a block (5.2.2).
fn word(block: &[u8], at: usize) -> u64
    requires { at + 8 ≤ length block.now }
    ensures { result ≡ word_at block.now at }
{
    u64::from_be_bytes([
        block[at],
        block[at + 1],
        block[at + 2],
        block[at + 3],
        block[at + 4],
        block[at + 5],
        block[at + 6],
        block[at + 7],
    ])
}

/// The two words from an octet of a block on.
#[inline(always)]
fn first_words(block: &[u8], at: usize) -> u64x2
    requires { at + 16 ≤ length block.now }
    ensures { result ≡ word_at block.now at ∷ word_at block.now (at + 8) ∷ [] }
{
    u64x2::from_array([word(block, at), word(block, at + 8)])
}

/// The two words of a table from place `at` on.
#[inline(always)]
fn load_two(table: &[u64], at: usize) -> u64x2
    requires { at + 2 ≤ length table.now }
    ensures { result ≡ chunk at 2 table.now }
{
    u64x2::from_slice(&table[at..])
}

/// Puts two words into a table, from place `at` on.
#[inline(always)]
fn store_two(table: &mut [u64], at: usize, words: u64x2)
    requires { at + 2 ≤ length table.old }
    ensures { table.new ≡ put_chunk at table.old words }
{
    words.copy_to_slice(&mut table[at..]);
}

/// The sums of two words and the round constants from `t` on.
#[inline(always)]
pub(crate) fn sums_of(words: u64x2, t: usize) -> [u64; 2]
    requires { t + 2 ≤ 80 }
    ensures { (ws : List ℕ) → words ≡ two_words ws t → result ≡ two_sums ws t }
{
    (load_two(&ROUND_CONSTANTS, t) + words).to_array()
}

/// Adds the round constants from `t` on to two words, and keeps the sums at the same places.
#[inline(always)]
fn put_sums(sums: &mut [u64; 80], t: usize, words: u64x2)
    requires { t + 2 ≤ 80 }
    ensures { (ws : List ℕ) → words ≡ two_words ws t → AreLongSums sums.old ws t → AreLongSums sums.new ws (t + 2) }
{
    store_two(sums, t, load_two(&ROUND_CONSTANTS, t) + words);
}

/// Sixteen words of a schedule.
#[derive(Clone, Copy)]
pub(crate) struct Sixteen {
    pub(crate) w0: u64x2,
    pub(crate) w1: u64x2,
    pub(crate) w2: u64x2,
    pub(crate) w3: u64x2,
    pub(crate) w4: u64x2,
    pub(crate) w5: u64x2,
    pub(crate) w6: u64x2,
    pub(crate) w7: u64x2,
}

/// The first sixteen words of a block.
#[inline(always)]
pub(crate) fn sixteen_first(block: &[u8]) -> Sixteen
    requires { length block.now ≡ 128 }
    ensures { AreSixteen result (schedule block.now 64) 0 }
{
    Sixteen {
        w0: first_words(block, 0),
        w1: first_words(block, 16),
        w2: first_words(block, 32),
        w3: first_words(block, 48),
        w4: first_words(block, 64),
        w5: first_words(block, 80),
        w6: first_words(block, 96),
        w7: first_words(block, 112),
    }
}

/// The sums of sixteen words from `t` on.
#[inline(always)]
fn put_sixteen(w: &Sixteen, sums: &mut [u64; 80])
    ensures { (ws : List ℕ) → AreSixteen w.now ws 0 → AreLongSums sums.new ws 16 }
{
    put_sums(sums, 0, w.w0);
    put_sums(sums, 2, w.w1);
    put_sums(sums, 4, w.w2);
    put_sums(sums, 6, w.w3);
    put_sums(sums, 8, w.w4);
    put_sums(sums, 10, w.w5);
    put_sums(sums, 12, w.w6);
    put_sums(sums, 14, w.w7);
}

/// From sixteen words to those two places later.
#[inline(always)]
pub(crate) fn two_later(w: Sixteen) -> Sixteen
    ensures { (b : List ℕ) (t : ℕ) → t + 18 ≤ 80 → AreSixteen w (schedule b 64) t
        → AreSixteen result (schedule b 64) (t + 2) }
{
    let next = next_words(w.w0, w.w1, w.w4, w.w5, w.w7);
    Sixteen {
        w0: w.w1,
        w1: w.w2,
        w2: w.w3,
        w3: w.w4,
        w4: w.w5,
        w5: w.w6,
        w6: w.w7,
        w7: next,
    }
}

/// From the sixteen words from `t` on to those two places later, with the sums of the two new ones.
#[inline(always)]
fn two_more(w: Sixteen, sums: &mut [u64; 80], t: usize) -> Sixteen
    requires { t + 18 ≤ 80 }
    ensures words { (b : List ℕ) → AreSixteen w (schedule b 64) t → AreSixteen result (schedule b 64) (t + 2) }
    ensures sums { (b : List ℕ) → AreSixteen w (schedule b 64) t → AreLongSums sums.old (schedule b 64) (t + 16)
        → AreLongSums sums.new (schedule b 64) (t + 18) }
{
    let later = two_later(w);
    put_sums(sums, t + 16, later.w7);
    later
}

/// The same, eight places later.
#[inline(always)]
fn eight_more(w: Sixteen, sums: &mut [u64; 80], t: usize) -> Sixteen
    requires { t + 24 ≤ 80 }
    ensures words { (b : List ℕ) → AreSixteen w (schedule b 64) t → AreSixteen result (schedule b 64) (t + 8) }
    ensures sums { (b : List ℕ) → AreSixteen w (schedule b 64) t → AreLongSums sums.old (schedule b 64) (t + 16)
        → AreLongSums sums.new (schedule b 64) (t + 24) }
{
    let w = two_more(w, sums, t);
    let w = two_more(w, sums, t + 2);
    let w = two_more(w, sums, t + 4);
    two_more(w, sums, t + 6)
}

/// The sums of all words of a block and the round constants.
pub(crate) fn put_schedule(sums: &mut [u64; 80], block: &[u8])
    requires { length block.now ≡ 128 }
    ensures { AreLongSums sums.new (schedule block.now 64) 80 }
{
    let mut w = sixteen_first(block);
    put_sixteen(&w, sums);
    // Sixteen words a turn, so that each vector is where it was.
    'turns: for turn in 0..4usize {
        w = eight_more(w, sums, 16 * turn);
        w = eight_more(w, sums, 16 * turn + 8);
    }
}
