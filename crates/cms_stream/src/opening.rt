ghost use Rattle.std.specs.Prelude.{◌≡◌, [], length, IfOk, IfSome};
ghost use Rattle.cms_types.specs.SignedDataValue.{ContentInfoValue, EncodesContentInfo};
ghost use Rattle.cms_stream.specs.Passing.{Gained};
ghost use Rattle.cms_stream.specs.Opening.{FitsRoom, OpensStream, OpensEncoding, CountsPass};
ghost use Rattle.cms_stream.specs.Parts.{OpensFile};

use crate::opened::Opened;
use crate::reader::Reader;
use crate::stream_fault::StreamFault;
use crate::taker::Taker;
use devices::Source;

impl Reader {
    // A file from its front to the end of the source: what is kept of a SignedData, as `signed_data` keeps it, or
    // `None` if the type is another one.
    //
    // Faults and errors: those of `begin`, then those of `content_info`, and then those of `last`.
    #[tactic(auto, unfolding(crate::specs::Stages::file_in))]
    fn file<'b, S: Source, K: Taker>(
        &mut self,
        source: &mut S,
        buffer: &'b mut [u8],
        taker: &mut K,
    ) -> Result<Option<Opened<'b>>, StreamFault>
        requires first { self.old.at ≡ 0 }
        ensures { OpensFile (Gained K.Taker taker.old taker.new) (length buffer.old)
            S.Source self.old source.old result source.new }
    {
        let end = self.begin(source)?;
        let opened = self.content_info(source, end, buffer, taker)?;
        self.last(source)?;
        Ok(opened)
    }
}

/// A window of 64 KiB, which serves for passes over one file after another, so that it is set up once for all of them.
/// It is empty at the front of each file: no octet of an earlier file is taken for one of the next. No `Debug` prints
/// those that it may still hold.
#[derive(Drop)]
pub struct Pass {
    pub(crate) reader: Reader,
}

impl Pass {
    /// A window that served for no file yet.
    pub fn new() -> Pass {
        Pass {
            reader: Reader::new(),
        }
    }

    /// One pass over a file, a ContentInfo (RFC 5652 3), to the end of its source: what it keeps of a SignedData, or
    /// `None` if the file is of another type. The octets of the content, if it is in the file, go to `taker` as they
    /// pass. It uses as many octets of the buffer as the whole elements eContentType and signerInfos have; the result
    /// is a view of the buffer.
    ///
    /// Errors: `Malformed` with a fault of form that the file has, or that was met before the ends of the elements
    /// around it: the octets after the signers are looked at only after the signers were read; `TooLong` if the headers
    /// of eContentType and signerInfos state more octets than the buffer has, as soon as that is known; `ReadFailed` if
    /// the source failed.
    pub fn open_stream<'b, S: Source, K: Taker>(
        &mut self,
        source: &mut S,
        buffer: &'b mut [u8],
        taker: &mut K,
    ) -> Result<Option<Opened<'b>>, StreamFault>
        // What the outcome states about the octets of the file, and that the taker took its content after what it had
        // taken before.
        ensures opens { S.tells source.old → OpensStream (Gained K.Taker taker.old taker.new) (length buffer.old)
            (S.rest source.old) result }
        // A value that the octets encode is found.
        ensures only { S.tells source.old → (c : ContentInfoValue) → EncodesContentInfo (S.rest source.old) c
            → OpensEncoding (Gained K.Taker taker.old taker.new) (length buffer.old) (S.rest source.old) c result }
        // There was room for the whole elements that are kept: so if they are longer than the buffer, nothing is kept.
        ensures room { IfOk result (λ o. IfSome o (FitsRoom (length buffer.old))) }
        // The source's count of failures is raised exactly if the error is `ReadFailed`.
        ensures count { CountsPass result (S.failures source.old) (S.failures source.new) }
        // If it was known what is still to come, it still is; and if there is no error, nothing is still to come.
        ensures telling { S.tells source.old → S.tells source.new }
        // If it was known what was to come and there is no error, nothing is still to come.
        ensures end { S.tells source.old → IfOk result (λ _. S.rest source.new ≡ []) }
    {
        self.reader.restart();
        self.reader.file(source, buffer, taker)
    }
}
