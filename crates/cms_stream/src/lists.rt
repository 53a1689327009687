ghost use Rattle.std.specs.Prelude.{◌≤◌};
ghost use Rattle.cms_stream.specs.Calls.{IsInBody, IsCall};
ghost use Rattle.cms_stream.specs.Parts.{LooksForTags, PassesAlgorithms, PassesChoices, PassesElement};
ghost use Rattle.cms_stream.specs.Parts.{PassesNextAlgorithm, PassesNextOid, PassesOid, PassesParameters, PassesTagged};
ghost use Rattle.cms_stream.specs.Parts.{PassesTaggedList, ReadsVersion, PassesAlgorithm};

use crate::oid::OidTest;
use crate::reader::Reader;
use crate::stream_fault::StreamFault;
use crate::taker::Skip;
use crate::version::version_ahead;
use der_core::octets::{is_one_of, is_tag};
use der_core::tags::{OBJECT_IDENTIFIER, SEQUENCE};
use der_core::{Fault, Kind};
use devices::Source;

impl Reader {
    /// Passes the contents of an OBJECT IDENTIFIER.
    ///
    /// Faults: `Oid` at the contents, after all of them have passed, and those of `piece`.
    pub(crate) fn oid<S: Source>(&mut self, source: &mut S, end: u64) -> Result<(), StreamFault>
        requires { IsInBody self.old end }
        ensures { IsCall (PassesOid end) S.Source self.old source.old result self.new source.new }
    {
        let at = self.at;
        let mut test = OidTest::new();
        self.pour(source, end, &mut test)?;
        if !test.is_whole() {
            return Err(StreamFault::Malformed(Fault::new(Kind::Oid, at)));
        }
        Ok(())
    }

    /// Passes an OBJECT IDENTIFIER.
    ///
    /// Faults: those of `enter` and `oid`.
    pub(crate) fn next_oid<S: Source>(
        &mut self,
        source: &mut S,
        end: u64,
    ) -> Result<(), StreamFault>
        requires { IsInBody self.old end }
        ensures { IsCall (PassesNextOid end) S.Source self.old source.old result self.new source.new }
    {
        let inner = self.enter(source, OBJECT_IDENTIFIER, end)?;
        self.oid(source, inner)?;
        Ok(())
    }

    /// Passes the contents of a version, an INTEGER that must be one of `allowed`.
    ///
    /// Faults: those of `version_ahead`, after all contents have passed, and those of `piece`.
    pub(crate) fn version<S: Source>(
        &mut self,
        source: &mut S,
        end: u64,
        allowed: &[u8],
    ) -> Result<u8, StreamFault>
        requires { IsInBody self.old end }
        ensures { IsCall (ReadsVersion allowed.now end) S.Source self.old source.old result self.new source.new }
    {
        self.look(source, 2)?;
        let outcome = version_ahead(end - self.at, self.at, self.window.bytes(), allowed);
        self.pour(source, end, &mut Skip)?;
        match outcome {
            Ok(version) => Ok(version),
            Err(fault) => Err(StreamFault::Malformed(fault)),
        }
    }

    /// Passes a whole element with any tag, without reading its contents.
    ///
    /// Faults: those of `next`, and those of `piece` within its contents.
    pub(crate) fn opaque<S: Source>(&mut self, source: &mut S, end: u64) -> Result<(), StreamFault>
        requires { IsInBody self.old end }
        ensures { IsCall (PassesElement end) S.Source self.old source.old result self.new source.new }
    {
        let inner = self.next(source, end)?;
        self.pour(source, inner, &mut Skip)?;
        Ok(())
    }

    /// The same, unless the body ends here: the parameters of an AlgorithmIdentifier (RFC 5280 4.1.1.2).
    ///
    /// Faults: those of `opaque`, if the body doesn't end here.
    pub(crate) fn parameters<S: Source>(
        &mut self,
        source: &mut S,
        end: u64,
    ) -> Result<(), StreamFault>
        requires { IsInBody self.old end }
        ensures { IsCall (PassesParameters end) S.Source self.old source.old result self.new source.new }
    {
        if self.at == end {
            return Ok(());
        }
        self.opaque(source, end)?;
        Ok(())
    }

    /// Passes the contents of an AlgorithmIdentifier (RFC 5280 4.1.1.2).
    ///
    /// Faults: those of `next_oid`, `parameters` and `ended`.
    #[tactic(auto, unfolding(cms_stream_laws::specs::OpenContentInfo::algorithm_openly))]
    pub(crate) fn algorithm<S: Source>(
        &mut self,
        source: &mut S,
        end: u64,
    ) -> Result<(), StreamFault>
        requires { IsInBody self.old end }
        ensures { IsCall (PassesAlgorithm end) S.Source self.old source.old result self.new source.new }
    {
        self.next_oid(source, end)?;
        self.parameters(source, end)?;
        self.ended(source, end)?;
        Ok(())
    }

    /// Passes an AlgorithmIdentifier.
    ///
    /// Faults: those of `enter` and `algorithm`.
    pub(crate) fn next_algorithm<S: Source>(
        &mut self,
        source: &mut S,
        end: u64,
    ) -> Result<(), StreamFault>
        requires { IsInBody self.old end }
        ensures { IsCall (PassesNextAlgorithm end) S.Source self.old source.old result self.new source.new }
    {
        let inner = self.enter(source, SEQUENCE, end)?;
        self.algorithm(source, inner)?;
        Ok(())
    }

    /// Passes AlgorithmIdentifiers to the end of a body: the contents of digestAlgorithms (RFC 5652 5.1).
    ///
    /// Faults: those of `next_algorithm`.
    pub(crate) fn algorithms<S: Source>(
        &mut self,
        source: &mut S,
        end: u64,
    ) -> Result<(), StreamFault>
        requires { IsInBody self.old end }
        ensures { IsCall (PassesAlgorithms end) S.Source self.old source.old result self.new source.new }
    {
        while self.at < end {
            self.next_algorithm(source, end)?;
        }
        Ok(())
    }

    /// Whether the element here has one of these tags, if the body doesn't end here.
    ///
    /// Faults: `Tag` here if it has another, and those of `piece`, if the body doesn't end here.
    pub(crate) fn tag_fits<S: Source>(
        &mut self,
        source: &mut S,
        tags: &[u8],
        end: u64,
    ) -> Result<(), StreamFault>
        requires { self.old.at ≤ end }
        ensures { IsCall (LooksForTags tags.now end) S.Source self.old source.old result self.new source.new }
    {
        if self.at == end {
            return Ok(());
        }
        self.piece(source, end)?;
        match self.window.bytes() {
            [first, ..] if is_tag(*first) && !is_one_of(*first, tags) => {
                Err(StreamFault::Malformed(Fault::new(Kind::Tag, self.at)))
            }
            _ => Ok(()),
        }
    }

    /// Passes a whole element that must have one of these tags, without reading its contents.
    ///
    /// Faults: those of `tag_fits`, and then those of `opaque`.
    pub(crate) fn tagged<S: Source>(
        &mut self,
        source: &mut S,
        tags: &[u8],
        end: u64,
    ) -> Result<(), StreamFault>
        requires { IsInBody self.old end }
        ensures { IsCall (PassesTagged tags.now end) S.Source self.old source.old result self.new source.new }
    {
        self.tag_fits(source, tags, end)?;
        self.opaque(source, end)?;
        Ok(())
    }

    /// Passes such elements to the end of a body: certificates or crls (RFC 5652 5.1).
    ///
    /// Faults: those of `tagged`.
    pub(crate) fn tagged_list<S: Source>(
        &mut self,
        source: &mut S,
        tags: &[u8],
        end: u64,
    ) -> Result<(), StreamFault>
        requires { IsInBody self.old end }
        ensures { IsCall (PassesTaggedList tags.now end) S.Source self.old source.old result self.new source.new }
    {
        while self.at < end {
            self.tagged(source, tags, end)?;
        }
        Ok(())
    }

    /// Passes a list of such elements, within an element with this tag, if there is one here: certificates and crls
    /// (RFC 5652 5.1).
    ///
    /// Faults: those of `has_tag`, `enter` and `tagged_list`.
    pub(crate) fn choices<S: Source>(
        &mut self,
        source: &mut S,
        tag: u8,
        tags: &[u8],
        end: u64,
    ) -> Result<(), StreamFault>
        requires { IsInBody self.old end }
        ensures { IsCall (PassesChoices tag tags.now end) S.Source self.old source.old result self.new source.new }
    {
        if !self.has_tag(source, tag, end)? {
            return Ok(());
        }
        let inner = self.enter(source, tag, end)?;
        self.tagged_list(source, tags, inner)?;
        Ok(())
    }
}
