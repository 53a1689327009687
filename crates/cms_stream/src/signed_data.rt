ghost use Rattle.std.specs.Prelude.{length};
ghost use Rattle.cms_stream.specs.Passing.{Gained};
ghost use Rattle.cms_stream.specs.Calls.{IsInBody, IsCall};
ghost use Rattle.cms_stream.specs.Parts.{OpensExplicit, OpensSigned, OpensSignedContent};

use crate::header::whole;
use crate::opened::Opened;
use crate::reader::Reader;
use crate::stream_fault::StreamFault;
use crate::tags::CONTENT;
use crate::taker::Taker;
use der_core::tags::SEQUENCE;
use devices::Source;

impl Reader {
    /// The contents of a SignedData (RFC 5652 5.1). The contents of eContentType are kept at the front of the buffer;
    /// signerInfos are kept after the room for the whole element eContentType, and then read; the octets of eContent
    /// are handed to a taker.
    ///
    /// Faults and errors: those of `before_signers`, then those of `signers`, and then those of `ended`.
    #[tactic(auto, unfolding(crate::specs::Stages::signed_in))]
    pub(crate) fn signed_data<'b, S: Source, K: Taker>(
        &mut self,
        source: &mut S,
        end: u64,
        buffer: &'b mut [u8],
        taker: &mut K,
    ) -> Result<Opened<'b>, StreamFault>
        requires { IsInBody self.old end }
        ensures { IsCall (OpensSigned (Gained K.Taker taker.old taker.new) (length buffer.old) end)
            S.Source self.old source.old result self.new source.new }
    {
        let (count, attached) = self.before_signers(source, end, buffer, taker)?;
        let (front, back) = buffer.split_at_mut(whole(count as u64) as usize);
        let signers = self.signers(source, end, back)?;
        self.ended(source, end)?;
        Ok(Opened::new(&front[..count], attached, signers))
    }

    /// The contents of an element that holds one SignedData.
    ///
    /// Faults and errors: those of `enter`, `signed_data` and `ended`.
    #[tactic(auto, unfolding(crate::specs::Stages::explicit_signed_in))]
    fn explicit_signed_data<'b, S: Source, K: Taker>(
        &mut self,
        source: &mut S,
        end: u64,
        buffer: &'b mut [u8],
        taker: &mut K,
    ) -> Result<Opened<'b>, StreamFault>
        requires { IsInBody self.old end }
        ensures { IsCall (OpensExplicit (Gained K.Taker taker.old taker.new) (length buffer.old) end)
            S.Source self.old source.old result self.new source.new }
    {
        let inner = self.enter(source, SEQUENCE, end)?;
        let opened = self.signed_data(source, inner, buffer, taker)?;
        self.ended(source, end)?;
        Ok(opened)
    }

    /// The content of a ContentInfo that is a SignedData, with its [0] (RFC 5652 3), and nothing after it.
    ///
    /// Faults and errors: those of `enter`, `signed_data` and `ended`.
    #[tactic(auto, unfolding(crate::specs::Stages::signed_content_in))]
    pub(crate) fn signed_content<'b, S: Source, K: Taker>(
        &mut self,
        source: &mut S,
        end: u64,
        buffer: &'b mut [u8],
        taker: &mut K,
    ) -> Result<Opened<'b>, StreamFault>
        requires { IsInBody self.old end }
        ensures { IsCall (OpensSignedContent (Gained K.Taker taker.old taker.new) (length buffer.old) end)
            S.Source self.old source.old result self.new source.new }
    {
        let inner = self.enter(source, CONTENT, end)?;
        let opened = self.explicit_signed_data(source, inner, buffer, taker)?;
        self.ended(source, end)?;
        Ok(opened)
    }
}
