//! Times (X.690 11.7, 11.8; RFC 5280 4.1.2.5; RFC 3161 2.4.2): the moments that UTCTime and GeneralizedTime denote, the
//! one GeneralizedTime text of a moment, and views of both types that keep text and moment.
#![tactic(auto)]

mod calendar;
mod date;
mod generalized;
mod laws;
mod moment;
mod octets;
mod time_text;
mod times;
mod utc;

pub use generalized::read_generalized;
pub use laws::{calendar_is_gregorian, texts_are_unique};
pub use moment::Moment;
pub use time_text::{TimeText, generalized_text};
pub use times::{GeneralizedTime, Time};
pub use utc::read_utc;
