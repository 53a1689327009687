//! Octets that follow from a number: the generator splitmix64 (Steele, Lea and Flood, 2014).

/// A generator of numbers of 64 bits.
#[derive(Drop)]
pub(crate) struct Numbers {
    state: u64,
}

impl Numbers {
    /// The numbers that follow from this one.
    pub(crate) fn new(seed: u64) -> Numbers {
        Numbers { state: seed }
    }

    /// The next number.
    pub(crate) fn next(&mut self) -> u64 {
        self.state = self.state.wrapping_add(0x9e37_79b9_7f4a_7c15);
        let mixed = (self.state ^ (self.state >> 30)).wrapping_mul(0xbf58_476d_1ce4_e5b9);
        let mixed = (mixed ^ (mixed >> 27)).wrapping_mul(0x94d0_49bb_1331_11eb);
        mixed ^ (mixed >> 31)
    }

    /// Fills this room, eight octets at a time.
    pub(crate) fn fill(&mut self, room: &mut [u8]) {
        for chunk in room.chunks_mut(8) {
            let octets = self.next().to_le_bytes();
            let count = chunk.len().min(8);
            chunk[..count].copy_from_slice(&octets[..count]);
        }
    }

    /// Fills this room with hexadecimal digits.
    pub(crate) fn fill_digits(&mut self, room: &mut [u8]) {
        for digit in room.iter_mut() {
            let low = (self.next() & 15) as u8;
            *digit = if low < 10 {
                b'0' + low
            } else {
                b'a' + (low - 10)
            };
        }
    }
}
