ghost use Rattle.std.specs.Prelude.{◌↔◌, IfErr, IsOk};
ghost use Rattle.der_core.specs.SetOrder.{InOrder, FaultsOrder};

use crate::cursor::Cursor;
use crate::fault::{Fault, Kind};
use crate::octets::is_less;

/// Whether the elements of the body are in ascending order, as the parts of a SET OF are in DER (X.690 11.6): none is
/// less than the one before it, compared octet by octet from the identifier on, and equal ones may follow each other.
/// The elements may have any identifiers, and an empty body is in order.
///
/// The body is read from its first octet to its end. Positions count from its first octet, which is at position 0.
///
/// Faults, the first that is found: those of `Cursor::next` at each element, and `Order` at the first octet of an
/// element that is less than the one before it.
pub fn in_order(body: &[u8]) -> Result<(), Fault>
    // It succeeds exactly when the body consists of elements in ascending order.
    ensures sorted { IsOk result ↔ InOrder body.now }
    // After some elements in order, the fault is at an element that is less than the last of them, or at octets that
    // are not an element.
    ensures fault { IfErr result (FaultsOrder body.now) }
{
    let mut cursor = Cursor::new(body, 0);
    let mut last: &[u8] = &[];
    while !cursor.is_empty() {
        let at = cursor.position();
        let element = cursor.next()?;
        if is_less(element.whole, last) {
            return Err(Fault::new(Kind::Order, at));
        }
        last = element.whole;
    }
    Ok(())
}
