ghost use Rattle.std.specs.Prelude.{◌∷◌, [], IsSome, length, unwrap_or};
ghost use Rattle.check_stream.specs.StreamQuestions.{CountsReads};
ghost use Rattle.cli_commands.specs.Asking.{AsksPass};

use crate::rereading::Rereadable;
use check_questions::QuestionsFault;
use check_stream::{StreamQuestionsFault, questions_stream};
use cms_stream::Pass;
use devices::{Sink, SinkFault};
use std::io::{Read, Write};
use trust_lists::Trust;

/// A borrowed writer as a sink: the octets go straight to it.
///
/// What a proof sees as taken begins with the name of the reference, so that the proof knows which writer took the
/// octets.
struct Output<'o, O> {
    to: &'o mut O,
    failed: u64,
}

impl<O: Write> Sink for Output<'_, O> {
    ghost taken = { λ s. s.to.ghost_name ∷ unwrap_or (O.contents s.to.now) [] };

    ghost tells = { λ s. IsSome (O.contents s.to.now) };

    ghost failures = { λ s. s.failed };

    // One write at each call: an error, or a write of no octet, is a failure, and is not tried again.
    fn put(&mut self, bytes: &[u8]) -> Result<usize, SinkFault> {
        if bytes.is_empty() {
            return Ok(0);
        }
        match self.to.write(bytes) {
            Ok(count) if count > 0 => Ok(count),
            _ => {
                self.failed = self.failed.saturating_add(1);
                Err(SinkFault)
            }
        }
    }
}

/// Writes the text of the questions of a file, which is read once, straight to a writer, which may buffer it, and is
/// flushed at the end. No more octets of the file are kept than the buffer has.
pub fn put_questions<F: Read, O: Write>(
    file: &mut Rereadable<F>,
    buffer: &mut [u8],
    trust: &Trust,
    out: &mut O,
    passing: &mut Pass,
) -> Result<(), StreamQuestionsFault>
    ensures asks { AsksPass trust.now (F.remaining file.old.file) (length buffer.old) result (O.contents out.old)
        (O.contents out.new) }
    // The file's count of failures is raised exactly if the file failed.
    ensures reads { CountsReads result file.old.failed file.new.failed }
{
    let mut sink = Output { to: out, failed: 0 };
    let asked = questions_stream(passing, file, buffer, trust, &mut sink);
    let Output { to, failed: _ } = sink;
    // No effect at run time. The proof reads what `out` holds from this use of `to`.
    let _ = &*to;
    asked?;
    match out.flush() {
        Ok(()) => Ok(()),
        Err(_) => Err(StreamQuestionsFault::Questions(QuestionsFault::WriteFailed)),
    }
}
