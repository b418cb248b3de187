//! One run: the words, the query, the document, what the query selects, the output.
ghost use Rattle.std.specs.Prelude.{◌≡◌, ◌≢◌, ◌⊎◌, ◌↔◌, ℕ, ◌<◌, List, vec_len, Some, None, IfSome, IfOk, IfErr, OnOk, OnErr, IsErrOf, map, string_bytes};
ghost use Rattle.std.specs.Io.KnownBytes.{Appends, IsAtEnd};
ghost use Rattle.jpath.specs.Words.{asked_by};
ghost use Rattle.jpath.specs.Output.{IsOutput, AppendsFront, AsksQuery, IsFaultOf, IsOfWords, IsOfDocument};

use crate::fault::Fault;
use crate::output::printed;
use crate::words::request_of;
use jsonpath_parser::{drop_query, parse_json_path_within};
use std::alloc::{AllocError, Global};
use std::io::{Read, Write};

/// Asks the query of these words, those behind the program's name, of the JSON that the reader gives to its end,
/// and writes what it selects, or what is left of it when that is deleted.
///
/// The words and the query are judged before anything is read, and nothing is written before the whole output
/// stands. Each fault comes in the case that it names, the first that holds in the order of work: words, query,
/// reading, JSON, whole numbers, a pattern that `regex` refuses for its size, writing. `NotJson`, `NotWhole` and
/// `Query(InvalidJsonPath)` come when all is read.
#[tactic(auto, using(crate::proofs::Told::told, crate::proofs::Told::told_front, crate::proofs::Told::no_output))]
pub fn run<R: Read, W: Write>(
    alloc: Global,
    words: &[String],
    reader: &mut R,
    writer: &mut W,
) -> Result<(), Fault>
    ensures asked { OnOk result (AsksQuery (map string_bytes words.now)) }
    ensures output { OnOk result (IfSome (R.remaining reader.old) (λ bytes. (out : List ℕ)
        × IsOutput (map string_bytes words.now) bytes out × Appends (W.contents writer.old) (W.contents writer.new) out)) }
    ensures end { OnOk result (IsAtEnd (R.remaining reader.new)) }

    ensures usage { IsErrOf result Fault.Usage ↔ (asked_by (map string_bytes words.now) ≡ None) }
    ensures fault { IfErr result (IsFaultOf (map string_bytes words.now) (R.remaining reader.old)) }
    ensures unread { IfErr result (λ f. IsOfWords f → reader.new ≡ reader.old) }
    ensures read { IfErr result (λ f. IsOfDocument f → IsAtEnd (R.remaining reader.new)) }
    ensures unwritten { IfErr result (λ f. f ≢ Fault.Io → writer.new ≡ writer.old) }

    // Where a read failed, nothing was written.
    ensures begun { IsErrOf result Fault.Io → (writer.new ≡ writer.old)
        ⊎ (IsAtEnd (R.remaining reader.new) × IfSome (R.remaining reader.old) (λ bytes. (out : List ℕ)
        × IsOutput (map string_bytes words.now) bytes out × AppendsFront (W.contents writer.old) (W.contents writer.new) out)) }
{
    let Some(request) = request_of(words) else {
        return Err(Fault::Usage);
    };
    let query = parse_json_path_within(alloc, request.query, request.depth)?;
    let bytes = match read_to_end(alloc, reader) {
        Ok(bytes) => bytes,
        Err(fault) => {
            drop_query(query);
            return Err(fault);
        }
    };
    let printed = printed(alloc, request.command, &query, bytes);
    drop_query(query);
    let output = printed?;
    write_out(writer, output.as_bytes())
}

/// All that the reader has left.
fn read_to_end<R: Read>(alloc: Global, reader: &mut R) -> Result<Vec<u8>, Fault>
    ensures bytes { IfOk result (λ v. IfSome (R.remaining reader.old) (λ bytes. bytes ≡ v.items)) }
    ensures end { OnOk result (IsAtEnd (R.remaining reader.new)) }
    ensures fault { IfErr result (λ f. (f ≡ Fault.Io) ⊎ (f ≡ Fault.Memory)) }
{
    let mut bytes = Vec::new(alloc);
    let mut buffer = read_buffer(alloc)?;
    // Bounded, so that it ends whatever the reader does: no input takes so many reads.
    for _ in 0..u64::MAX {
        match reader.read(&mut buffer) {
            Ok(0) => return Ok(bytes),
            Ok(count) => bytes.extend_from_slice(&buffer[..count])?,
            Err(_) => return Err(Fault::Io),
        }
    }
    Err(Fault::Io)
}

/// Room for the bytes of one read.
fn read_buffer(alloc: Global) -> Result<Vec<u8>, AllocError>
    ensures { IfOk result (λ v. 0 < vec_len v) }
{
    vec![in alloc; 0u8; BUFFER_SIZE]
}

/// How many bytes are read at once.
const BUFFER_SIZE: usize = 65536;

/// Writes all bytes, and flushes once.
fn write_out<W: Write>(writer: &mut W, bytes: &[u8]) -> Result<(), Fault>
    ensures ok { OnOk result (Appends (W.contents writer.old) (W.contents writer.new) bytes.now) }
    ensures err { OnErr result (AppendsFront (W.contents writer.old) (W.contents writer.new) bytes.now) }
    ensures fault { IfErr result (λ f. f ≡ Fault.Io) }
{
    let mut at = 0;
    while at < bytes.len() {
        match writer.write(&bytes[at..]) {
            Ok(0) | Err(_) => return Err(Fault::Io),
            Ok(count) => at += count,
        }
    }
    writer.flush().map_err(|_| Fault::Io)
}
