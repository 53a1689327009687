ghost use Rattle.std.specs.Prelude.{◌≡◌, ◌+◌, ◌^◌, ◌<◌, ◌≤◌, length, drop};
ghost use Rattle.cms_stream_laws.specs.OpenReading.{heading};
ghost use Rattle.cms_stream.specs.Calls.{IsInBody, IsCall};
ghost use Rattle.cms_stream.specs.Parts.{EntersFile, EntersNext, EntersTag, FindsEnd, FindsLast, FindsNothing};
ghost use Rattle.cms_stream.specs.Parts.{LooksForTag};

use crate::header::{header_of, heading, next_header, outermost};
use crate::reader::Reader;
use crate::stream_fault::StreamFault;
use der_core::octets::{has_tag, is_tag};
use der_core::{Fault, Kind};
use devices::Source;

impl Reader {
    /// Passes the header here, of an element whose contents have `len` octets, and returns where they end.
    fn pass_header(&mut self, len: u64) -> u64
        requires small { len < 2 ^ 32 }
        requires there { heading len ≤ length self.old.window }
        requires near { self.old.at + heading len + len < 2 ^ 64 }
        ensures window { self.new.window ≡ drop (heading len) self.old.window }
        ensures at { self.new.at ≡ self.old.at + heading len }
        ensures end { result ≡ self.new.at + len }
    {
        let count = heading(len);
        self.window.pass(count);
        self.at += count as u64;
        self.at + len
    }

    /// Enters the element here, which must have this tag and end by `end`, the end of the body, and returns where its
    /// contents end.
    ///
    /// Faults: those of `header_of`.
    pub(crate) fn enter<S: Source>(
        &mut self,
        source: &mut S,
        tag: u8,
        end: u64,
    ) -> Result<u64, StreamFault>
        requires { IsInBody self.old end }
        ensures { IsCall (EntersTag tag end) S.Source self.old source.old result self.new source.new }
    {
        self.look(source, 6)?;
        let len = match header_of(tag, end - self.at, self.at, self.window.bytes()) {
            Ok(len) => len,
            Err(fault) => return Err(StreamFault::Malformed(fault)),
        };
        Ok(self.pass_header(len))
    }

    /// Enters the element here, with any tag, as `enter` does.
    ///
    /// Faults: those of `next_header`.
    pub(crate) fn next<S: Source>(&mut self, source: &mut S, end: u64) -> Result<u64, StreamFault>
        requires { IsInBody self.old end }
        ensures { IsCall (EntersNext end) S.Source self.old source.old result self.new source.new }
    {
        self.look(source, 6)?;
        let len = match next_header(end - self.at, self.at, self.window.bytes()) {
            Ok(len) => len,
            Err(fault) => return Err(StreamFault::Malformed(fault)),
        };
        Ok(self.pass_header(len))
    }

    /// Whether there is an element with this tag here, before the end of the body.
    ///
    /// Faults: those of `piece`, if the body doesn't end here.
    pub(crate) fn has_tag<S: Source>(
        &mut self,
        source: &mut S,
        tag: u8,
        end: u64,
    ) -> Result<bool, StreamFault>
        requires { self.old.at ≤ end }
        ensures { IsCall (LooksForTag tag end) S.Source self.old source.old result self.new source.new }
    {
        if self.at == end {
            return Ok(false);
        }
        self.piece(source, end)?;
        Ok(has_tag(self.window.bytes(), tag))
    }

    /// Checks that no element is here, after the last part of a body, which may be absent and is absent.
    ///
    /// Faults: `Tag` at an element here, `HighTag` at an octet that is no tag, and those of `piece`.
    pub(crate) fn absent<S: Source>(&mut self, source: &mut S, end: u64) -> Result<(), StreamFault>
        requires { self.old.at ≤ end }
        ensures { IsCall (FindsNothing end) S.Source self.old source.old result self.new source.new }
    {
        if self.at == end {
            return Ok(());
        }
        self.piece(source, end)?;
        let kind = match self.window.bytes() {
            [first, ..] if is_tag(*first) => Kind::Tag,
            _ => Kind::HighTag,
        };
        Err(StreamFault::Malformed(Fault::new(kind, self.at)))
    }

    /// The body must end here.
    ///
    /// Faults: `Trailing` at an octet here within the body, and those of `piece`.
    #[tactic(auto, unfolding(cms_stream_laws::specs::OpenReading::end_openly))]
    pub(crate) fn ended<S: Source>(&mut self, source: &mut S, end: u64) -> Result<(), StreamFault>
        requires { self.old.at ≤ end }
        ensures { IsCall (FindsEnd end) S.Source self.old source.old result self.new source.new }
    {
        if self.at == end {
            return Ok(());
        }
        self.piece(source, end)?;
        Err(StreamFault::Malformed(Fault::new(Kind::Trailing, self.at)))
    }

    /// Enters the outermost element, a SEQUENCE whose end nothing else states, and returns where its contents end.
    ///
    /// Faults: those of `outermost`.
    #[tactic(auto, unfolding(crate::specs::Passing::outer_in))]
    pub(crate) fn begin<S: Source>(&mut self, source: &mut S) -> Result<u64, StreamFault>
        requires first { self.old.at ≡ 0 }
        ensures { IsCall EntersFile S.Source self.old source.old result self.new source.new }
    {
        self.look(source, 6)?;
        let len = match outermost(self.window.bytes()) {
            Ok(len) => len,
            Err(fault) => return Err(StreamFault::Malformed(fault)),
        };
        Ok(self.pass_header(len))
    }

    /// The source must end here.
    ///
    /// Faults: `Trailing` at an octet here.
    #[tactic(auto, unfolding(crate::specs::Passing::last_in))]
    pub(crate) fn last<S: Source>(&mut self, source: &mut S) -> Result<(), StreamFault>
        ensures { FindsLast S.Source self.old source.old result source.new }
    {
        self.look(source, 1)?;
        if !self.window.bytes().is_empty() {
            return Err(StreamFault::Malformed(Fault::new(Kind::Trailing, self.at)));
        }
        Ok(())
    }
}
