//! What holds of numbers and their octets, for all of them: there is no code to run.
ghost use Rattle.std.specs.Prelude.{◌≡◌, ◌^◌, ◌<◌, ℕ, List, length, slice_index};
ghost use Rattle.big_numbers.specs.Numbers.{IsBits, bits_of, i2osp, os2ip};
ghost use Rattle.big_numbers.specs.NumberRows.{OctetRows, PowerRows, WordRows};

/// Octets and the number that they stand for give each other (RFC 8017, 4).
pub fn octets_stand_for_numbers()
    // So many octets are those of the number that they stand for.
    ensures octets { (xs : List ℕ) → ((k : ℕ) → slice_index xs k < 256) → i2osp (os2ip xs) (length xs) ≡ xs }
    // A number that so many octets can state is what its octets stand for.
    ensures numbers { (len x : ℕ) → x < 256 ^ len → os2ip (i2osp x len) ≡ x }
    // These are so many octets.
    ensures length { (len x : ℕ) → length (i2osp x len) ≡ len }
    // `bits_of` says how many bits the number of octets has whose first is not 0.
    ensures bits { (xs : List ℕ) → ((k : ℕ) → slice_index xs k < 256) → 0 < slice_index xs 0
        → IsBits (os2ip xs) (bits_of xs) }
{}

/// The worked rows of numbers and powers.
pub fn rows_hold()
    // Octets.
    ensures octets { OctetRows }
    // Words.
    ensures words { WordRows }
    // Powers.
    ensures powers { PowerRows }
{}
