ghost use Rattle.std.specs.Prelude.{◌≡◌};
ghost use Rattle.check_fit.specs.Attributes.{is_element_of};

use der_core::header;
use der_core::octets::is_same;

/// Whether it is the element with this identifier and these contents (X.690 8.1, 10.1).
pub fn is_element_of(tag: u8, contents: &[u8], element: &[u8]) -> bool
    ensures { result ≡ is_element_of tag contents.now element.now }
{
    let Ok(front) = header(tag, contents.len() as u64) else {
        return false;
    };
    let front = front.bytes();
    if element.len() < front.len() {
        return false;
    }
    let (begin, behind) = element.split_at(front.len());
    is_same(begin, front) && is_same(behind, contents)
}
