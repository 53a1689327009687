ghost use Rattle.std.specs.Prelude.{length};
ghost use Rattle.cms_stream.specs.Passing.{Gained};
ghost use Rattle.cms_stream.specs.Calls.{IsInBody, IsCall};
ghost use Rattle.cms_stream.specs.Parts.{FindsVersion, HandsContent, HandsOctets, KeepsEncapsulated, KeepsHead};
ghost use Rattle.cms_stream.specs.Parts.{KeepsNextContent, KeepsSigners, KeepsType};

use crate::header::whole;
use crate::reader::Reader;
use crate::stream_fault::StreamFault;
use crate::tags::{CERTIFICATE_TAGS, CERTIFICATES, CONTENT, CRL_TAGS, CRLS, VERSIONS};
use crate::taker::Taker;
use cms_types::Signers;
use der_core::Oid;
use der_core::tags::{INTEGER, OBJECT_IDENTIFIER, OCTET_STRING, SEQUENCE, SET};
use devices::Source;

impl Reader {
    /// Passes the parts of a SignedData before the content (RFC 5652 5.1), version and digestAlgorithms, and returns
    /// the version.
    ///
    /// Faults: those of `enter`, `version` and `algorithms`.
    pub(crate) fn before_content<S: Source>(
        &mut self,
        source: &mut S,
        end: u64,
    ) -> Result<u8, StreamFault>
        requires { IsInBody self.old end }
        ensures { IsCall (FindsVersion end) S.Source self.old source.old result self.new source.new }
    {
        let inside = self.enter(source, INTEGER, end)?;
        let version = self.version(source, inside, &VERSIONS)?;
        let inner = self.enter(source, SET, end)?;
        self.algorithms(source, inner)?;
        Ok(version)
    }

    /// Keeps the contents of an OBJECT IDENTIFIER and returns how many octets they have.
    ///
    /// Faults: those of `enter` and `keep`, and then those of `Oid::read`.
    ///
    /// Errors: `TooLong` exactly if the header states that the whole element is longer than the room.
    pub(crate) fn content_type<S: Source>(
        &mut self,
        source: &mut S,
        end: u64,
        room: &mut [u8],
    ) -> Result<usize, StreamFault>
        requires { IsInBody self.old end }
        ensures { IsCall (KeepsType room.old room.new end) S.Source self.old source.old result self.new source.new }
    {
        let inner = self.enter(source, OBJECT_IDENTIFIER, end)?;
        let at = self.at;
        let len = inner - at;
        if (room.len() as u64) < whole(len) {
            return Err(StreamFault::TooLong);
        }
        let len = len as usize;
        self.keep(source, inner, &mut room[..len])?;
        match Oid::read(&room[..len], at) {
            Ok(_) => Ok(len),
            Err(fault) => Err(StreamFault::Malformed(fault)),
        }
    }

    /// One OCTET STRING, whose octets are handed to a taker, and nothing after it: the contents of the eContent's [0]
    /// (RFC 5652 5.2).
    ///
    /// Faults: those of `enter`, `pour` and `ended`.
    #[tactic(auto, unfolding(cms_stream_laws::specs::OpenContentInfo::explicit_octets_openly))]
    pub(crate) fn explicit_octets<S: Source, K: Taker>(
        &mut self,
        source: &mut S,
        end: u64,
        taker: &mut K,
    ) -> Result<(), StreamFault>
        requires { IsInBody self.old end }
        ensures { IsCall (HandsOctets (Gained K.Taker taker.old taker.new) end)
            S.Source self.old source.old result self.new source.new }
    {
        let inner = self.enter(source, OCTET_STRING, end)?;
        self.pour(source, inner, taker)?;
        self.ended(source, end)?;
        Ok(())
    }

    /// Hands the octets of the eContent to a taker (RFC 5652 5.2), if it is present, and returns whether it is.
    ///
    /// Faults: those of `has_tag`, `absent`, `enter` and `explicit_octets`.
    pub(crate) fn content<S: Source, K: Taker>(
        &mut self,
        source: &mut S,
        end: u64,
        taker: &mut K,
    ) -> Result<bool, StreamFault>
        requires { IsInBody self.old end }
        ensures { IsCall (HandsContent (Gained K.Taker taker.old taker.new) end)
            S.Source self.old source.old result self.new source.new }
    {
        if !self.has_tag(source, CONTENT, end)? {
            self.absent(source, end)?;
            return Ok(false);
        }
        let inner = self.enter(source, CONTENT, end)?;
        self.explicit_octets(source, inner, taker)?;
        Ok(true)
    }

    /// The contents of an EncapsulatedContentInfo (RFC 5652 5.2): eContentType, whose contents are kept, and eContent,
    /// whose octets are handed to a taker. Returns how many octets are kept, and whether eContent is present.
    ///
    /// Faults: those of `content_type`, `content` and `ended`.
    ///
    /// Errors: `TooLong` exactly if the header of eContentType states an element that is longer than the room.
    #[tactic(auto, unfolding(cms_stream_laws::specs::OpenContentInfo::encapsulated_openly))]
    pub(crate) fn encapsulated<S: Source, K: Taker>(
        &mut self,
        source: &mut S,
        end: u64,
        room: &mut [u8],
        taker: &mut K,
    ) -> Result<(usize, bool), StreamFault>
        requires { IsInBody self.old end }
        ensures { IsCall (KeepsEncapsulated (Gained K.Taker taker.old taker.new) room.old room.new end)
            S.Source self.old source.old result self.new source.new }
    {
        let count = self.content_type(source, end, room)?;
        let present = self.content(source, end, taker)?;
        self.ended(source, end)?;
        Ok((count, present))
    }

    /// An EncapsulatedContentInfo (RFC 5652 5.2), as `encapsulated` reads its contents.
    ///
    /// Faults and errors: those of `enter` and `encapsulated`.
    pub(crate) fn next_content<S: Source, K: Taker>(
        &mut self,
        source: &mut S,
        end: u64,
        room: &mut [u8],
        taker: &mut K,
    ) -> Result<(usize, bool), StreamFault>
        requires { IsInBody self.old end }
        ensures { IsCall (KeepsNextContent (Gained K.Taker taker.old taker.new) room.old room.new end)
            S.Source self.old source.old result self.new source.new }
    {
        let inner = self.enter(source, SEQUENCE, end)?;
        let found = self.encapsulated(source, inner, room, taker)?;
        Ok(found)
    }

    /// The parts of a SignedData before its signers (RFC 5652 5.1). The contents of eContentType are kept, and the
    /// octets of eContent are handed to a taker. Returns how many octets are kept, and whether eContent is present.
    ///
    /// Faults and errors: those of `before_content`, `next_content` and `choices`.
    #[tactic(auto, unfolding(crate::specs::Stages::signed_head_in))]
    pub(crate) fn before_signers<S: Source, K: Taker>(
        &mut self,
        source: &mut S,
        end: u64,
        room: &mut [u8],
        taker: &mut K,
    ) -> Result<(usize, bool), StreamFault>
        requires { IsInBody self.old end }
        ensures { IsCall (KeepsHead (Gained K.Taker taker.old taker.new) room.old room.new end)
            S.Source self.old source.old result self.new source.new }
    {
        self.before_content(source, end)?;
        let found = self.next_content(source, end, room, taker)?;
        self.choices(source, CERTIFICATES, &CERTIFICATE_TAGS, end)?;
        self.choices(source, CRLS, &CRL_TAGS, end)?;
        Ok(found)
    }

    /// signerInfos (RFC 5652 5.1), whose contents are kept and then read.
    ///
    /// Faults: those of `enter` and `keep`, and then those of `Signers::read`.
    ///
    /// Errors: `TooLong` exactly if the header states that the whole element is longer than the room.
    pub(crate) fn signers<'b, S: Source>(
        &mut self,
        source: &mut S,
        end: u64,
        room: &'b mut [u8],
    ) -> Result<Signers<'b>, StreamFault>
        requires { IsInBody self.old end }
        ensures { IsCall (KeepsSigners (length room.old) end) S.Source self.old source.old result self.new source.new }
    {
        let inner = self.enter(source, SET, end)?;
        let at = self.at;
        let size = inner - at;
        if (room.len() as u64) < whole(size) {
            return Err(StreamFault::TooLong);
        }
        let len = size as usize;
        self.keep(source, inner, &mut room[..len])?;
        match Signers::read(&room[..len], at) {
            Ok(signers) => Ok(signers),
            Err(fault) => Err(StreamFault::Malformed(fault)),
        }
    }
}
