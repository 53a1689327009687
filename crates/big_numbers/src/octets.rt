//! Numbers in octets.
ghost use Rattle.std.specs.Prelude.{◌≡◌, ◌*◌, ◌%◌, ◌^◌, ◌<◌, ◌≤◌, length};
ghost use Rattle.big_numbers.specs.Numbers.{i2osp, os2ip, value};

/// The number that eight octets at most stand for, the highest first (OS2IP, RFC 8017 4.2).
pub fn word_of(octets: &[u8]) -> u64
    requires { length octets.now ≤ 8 }
    ensures { result ≡ os2ip octets.now }
{
    let mut word = 0;
    'octets: for i in 0..octets.len() {
        word = word * 256 + octets[i] as u64;
    }
    word
}

/// Makes the words those of the number that octets stand for.
pub(crate) fn read_octets(words: &mut [u64], octets: &[u8])
    requires { length octets.now ≤ 8 * length words.old }
    ensures { value words.new ≡ os2ip octets.now }
{
    let mut rest = octets;
    'words: for i in 0..words.len() {
        let cut = rest.len() - rest.len().min(8);
        words[i] = word_of(&rest[cut..]);
        rest = &rest[..cut];
    }
}

/// Makes octets those of a number, as far as they go.
fn write_octets(octets: &mut [u8], words: &[u64])
    requires { length octets.old ≤ 8 * length words.now }
    ensures { os2ip octets.new ≡ value words.now % 256 ^ length octets.old }
{
    let count = octets.len();
    'octets: for i in 0..count {
        octets[count - 1 - i] = ((words[i / 8] >> (8 * (i % 8))) & 0xff) as u8;
    }
}

/// Makes octets those of a number that they can state.
pub(crate) fn write_number(octets: &mut [u8], words: &[u64])
    requires room { length octets.old ≤ 8 * length words.now }
    requires fits { value words.now < 256 ^ length octets.old }
    ensures { octets.new ≡ i2osp (value words.now) (length octets.old) }
{
    write_octets(octets, words);
}
