ghost use Rattle.std.specs.Prelude.{length};
ghost use Rattle.cms_stream.specs.Passing.{Gained};
ghost use Rattle.cms_stream.specs.Calls.{IsInBody, IsCall};
ghost use Rattle.cms_stream.specs.Parts.{FindsType, OpensInfo, PassesOid, PassesOtherContent, PassesWhole, SaysType};

use crate::opened::Opened;
use crate::reader::Reader;
use crate::stream_fault::StreamFault;
use crate::tags::CONTENT;
use crate::taker::Taker;
use crate::type_test::TypeTest;
use cms_types::oids::SIGNED_DATA;
use der_core::tags::OBJECT_IDENTIFIER;
use der_core::{Fault, Kind};
use devices::Source;

impl Reader {
    /// Passes the contents of a contentType (RFC 5652 3) and returns whether they are id-signedData.
    ///
    /// Faults: `Oid` at the contents, after all of them have passed, and those of `piece`.
    fn type_of<S: Source>(&mut self, source: &mut S, end: u64) -> Result<bool, StreamFault>
        requires { IsInBody self.old end }
        ensures passes { IsCall (PassesOid end) S.Source self.old source.old result self.new source.new }
        ensures signed { IsCall (SaysType end) S.Source self.old source.old result self.new source.new }
    {
        let at = self.at;
        let id = SIGNED_DATA;
        let mut test = TypeTest::new(&id);
        self.pour(source, end, &mut test)?;
        if !test.oid.is_whole() {
            return Err(StreamFault::Malformed(Fault::new(Kind::Oid, at)));
        }
        Ok(test.signed_data.is_whole())
    }

    /// Passes a contentType and returns whether it is id-signedData.
    ///
    /// Faults: those of `enter` and `type_of`.
    pub(crate) fn next_type<S: Source>(
        &mut self,
        source: &mut S,
        end: u64,
    ) -> Result<bool, StreamFault>
        requires { IsInBody self.old end }
        ensures { IsCall (FindsType end) S.Source self.old source.old result self.new source.new }
    {
        let inner = self.enter(source, OBJECT_IDENTIFIER, end)?;
        let signed = self.type_of(source, inner)?;
        Ok(signed)
    }

    /// Passes one element of any kind, with nothing after it.
    ///
    /// Faults: those of `opaque` and `ended`.
    #[tactic(auto, unfolding(cms_stream_laws::specs::OpenContentInfo::explicit_opaque_openly))]
    fn explicit_opaque<S: Source>(&mut self, source: &mut S, end: u64) -> Result<(), StreamFault>
        requires { IsInBody self.old end }
        ensures { IsCall (PassesWhole end) S.Source self.old source.old result self.new source.new }
    {
        self.opaque(source, end)?;
        self.ended(source, end)?;
        Ok(())
    }

    /// Passes the content of a ContentInfo of another type, with its [0] (RFC 5652 3) and nothing after it.
    ///
    /// Faults: those of `enter`, `explicit_opaque` and `ended`.
    #[tactic(auto, unfolding(cms_stream_laws::specs::OpenContentInfo::other_content_openly))]
    fn other_content<S: Source>(&mut self, source: &mut S, end: u64) -> Result<(), StreamFault>
        requires { IsInBody self.old end }
        ensures { IsCall (PassesOtherContent end) S.Source self.old source.old result self.new source.new }
    {
        let inner = self.enter(source, CONTENT, end)?;
        self.explicit_opaque(source, inner)?;
        self.ended(source, end)?;
        Ok(())
    }

    /// Passes the contents of a ContentInfo (RFC 5652 3) and returns what is kept of a SignedData, as `signed_data`
    /// keeps it, or `None` if the type is another one.
    ///
    /// Faults and errors: those of `next_type`, and then those of `signed_content` or `other_content`.
    #[tactic(auto, unfolding(crate::specs::Stages::content_in))]
    pub(crate) fn content_info<'b, S: Source, K: Taker>(
        &mut self,
        source: &mut S,
        end: u64,
        buffer: &'b mut [u8],
        taker: &mut K,
    ) -> Result<Option<Opened<'b>>, StreamFault>
        requires { IsInBody self.old end }
        ensures { IsCall (OpensInfo (Gained K.Taker taker.old taker.new) (length buffer.old) end)
            S.Source self.old source.old result self.new source.new }
    {
        if !self.next_type(source, end)? {
            self.other_content(source, end)?;
            return Ok(None);
        }
        let opened = self.signed_content(source, end, buffer, taker)?;
        Ok(Some(opened))
    }
}
