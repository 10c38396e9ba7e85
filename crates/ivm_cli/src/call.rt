//! The top call.
ghost use Rattle.std.specs.Prelude.{◌≡◌, ◌≢◌, ◌⊎◌, ℕ, List, true, false, map, string_bytes, IfOk, IfErr, IsOk, IsSomeAnd, IsErrOf, Ok, Err, IsTrue};
ghost use Rattle.std.specs.Io.KnownBytes.{Appends, IsAtEnd, Keeps};
ghost use Rattle.ivm_io.specs.Causes.{Rose};
ghost use Rattle.ivm_io.specs.Transfers.{AppendsPrefix, Reads};
ghost use Rattle.task_history.specs.Lists.{empty_record};
ghost use Rattle.host_script.specs.HostText.{host_of};
ghost use Rattle.ivm_cli.specs.HostRead.{IsHostRead};
ghost use Rattle.ivm_cli.specs.Words.{is_run};
ghost use Rattle.host_meaning.specs.Lawful.{IsLawful};
ghost use Rattle.ivm_report.specs.Report.{report_of};
ghost use Rattle.ivm_cli.specs.Texts.{bad_host_line, usage_line};
ghost use Rattle.ivm_cli.specs.Run.{Asks, Ends, NoScript, Ran, most};

use crate::Status;
use crate::texts::bad_host;
use crate::words::ask_for_a_run;
use host_runs::carry_out;
use host_script::{HostFault, HostKind, HostScript, read_host};
use ivm_io::{Gate, ReadStop, Sink, Source, read_all, write_all};
use ivm_report::report;
use ivm_text::NoMemory;
use std::alloc::Global;
use task_history::Record;

/// The bytes that a host script may have at most.
const MOST: usize = 4_194_304;

const USAGE: &[u8] = b"usage: ivm run\n";

// A status, and the text that tells it.
#[derive(Drop)]
struct Answer {
    status: Status,
    text: Vec<u8>,
}

// Why nothing is to be written.
#[derive(Clone, Copy, Debug, PartialEq, Eq)]
enum Stop {
    Fault,
    NoMemory,
}

impl From<NoMemory> for Stop {
    ghost use Rattle.ivm_cli.specs.declared.call.Stop.TheVariants.{NoMemory};

    ghost from_gives = { λ _ e. e ≡ NoMemory };

    fn from(_: NoMemory) -> Stop {
        Stop::NoMemory
    }
}

// What was read: a host script, or the line and the kind of its fault.
#[derive(Drop)]
enum HostRead {
    Script(HostScript),
    Fault(u32, HostKind),
}

/// Does what the words ask for: `run` reads a host script from the source, carries it out, and writes its report.
///
/// `kept` is the record of this run. It is empty but at `Done`, and at `WriteFault` where a report was being written.
/// Nothing is written at `ReadFault` and `NoMemory`. The runtime and the gate aren't used until isolates have threads.
pub fn ivm<R, S: Source, K: Sink, G: Gate>(
    _rt: &R,
    alloc: Global,
    words: &[String],
    source: &mut S,
    sink: &mut K,
    _gate: &G,
    kept: &mut Record,
) -> Status
    // What the sink got, at each status: the whole text that the words, the bytes read and the record ask for.
    ensures ends { Ends
        (Asks (is_run (map string_bytes words.now)) (S.left source.old) (S.left source.new) kept.new)
        (K.written sink.old) (K.written sink.new) result }

    ensures usage { result ≡ Status.Usage → is_run (map string_bytes words.now) ≡ false }
    ensures wrong_words { is_run (map string_bytes words.now) ≡ false → (result ≡ Status.Usage) ⊎ (result ≡ Status.WriteFault) }
    ensures unread { is_run (map string_bytes words.now) ≡ false → source.new ≡ source.old }
    ensures read_fault { result ≡ Status.ReadFault → Rose (S.faults source.old) (S.faults source.new) }
    ensures write_fault { result ≡ Status.WriteFault → Rose (K.faults sink.old) (K.faults sink.new) }

    ensures unwritten { (result ≡ Status.ReadFault) ⊎ (result ≡ Status.NoMemory) → sink.new ≡ sink.old }
    ensures empty { (result ≡ Status.ReadFault) ⊎ (result ≡ Status.NoMemory) → kept.new ≡ empty_record }
    ensures nothing_left { result ≡ Status.Done → IsAtEnd (S.left source.new) }

    // It doesn't give up by itself, but for want of memory.
    ensures complete { IsTrue (is_run (map string_bytes words.now))
        → IsSomeAnd (S.left source.old) (λ all. IsOk (host_of all))
        → ¬ Rose (S.faults source.old) (S.faults source.new)
        → ¬ Rose (K.faults sink.old) (K.faults sink.new)
        → (result ≡ Status.Done) ⊎ (result ≡ Status.NoMemory) }
{
    *kept = Record::empty(alloc);
    if ask_for_a_run(words) {
        run(alloc, source, sink, kept)
    } else {
        deliver(sink, Status::Usage, USAGE)
    }
}

fn run<S: Source, K: Sink>(alloc: Global, source: &mut S, sink: &mut K, kept: &mut Record) -> Status
    requires { kept.old ≡ empty_record }
    ensures ends { Ends (Asks true (S.left source.old) (S.left source.new) kept.new) (K.written sink.old) (K.written sink.new) result }
    ensures read_fault { result ≡ Status.ReadFault → Rose (S.faults source.old) (S.faults source.new) }
    ensures write_fault { result ≡ Status.WriteFault → Rose (K.faults sink.old) (K.faults sink.new) }
    ensures unwritten { (result ≡ Status.ReadFault) ⊎ (result ≡ Status.NoMemory) → sink.new ≡ sink.old }
    ensures empty { (result ≡ Status.ReadFault) ⊎ (result ≡ Status.NoMemory) → kept.new ≡ empty_record }
    ensures asked { result ≢ Status.Usage }
{
    match prepare(alloc, source, kept) {
        Ok(answer) => deliver(sink, answer.status, &answer.text),
        Err(Stop::Fault) => Status::ReadFault,
        Err(Stop::NoMemory) => Status::NoMemory,
    }
}

fn deliver<K: Sink>(sink: &mut K, status: Status, text: &[u8]) -> Status
    ensures either { (result ≡ status) ⊎ (result ≡ Status.WriteFault) }
    ensures whole { result ≢ Status.WriteFault → (result ≡ status) × Appends (K.written sink.old) (K.written sink.new) text.now }
    ensures cut { result ≡ Status.WriteFault → status ≢ Status.WriteFault → Rose (K.faults sink.old) (K.faults sink.new)
        × AppendsPrefix (K.written sink.old) (K.written sink.new) text.now }
{
    match write_all(sink, text) {
        Ok(()) => status,
        Err(_) => Status::WriteFault,
    }
}

// What the bytes ask for. The record stays as it is but where a script ran.
fn prepare<S: Source>(alloc: Global, source: &mut S, kept: &mut Record) -> Result<Answer, Stop>
    requires { kept.old ≡ empty_record }
    ensures ok { IfOk result (λ answer. Asks true (S.left source.old) (S.left source.new) kept.new answer.status answer.text.items) }
    ensures err { IfErr result (λ _. kept.new ≡ empty_record) }
    ensures fault { IsErrOf result Stop.Fault → Rose (S.faults source.old) (S.faults source.new) }
{
    match read_script(alloc, source)? {
        HostRead::Script(script) => {
            let (script, record) = carry_out(alloc, script)?;
            let text = report(alloc, &script, &record)?;
            *kept = record;
            Ok(Answer {
                status: Status::Done,
                text,
            })
        }
        HostRead::Fault(line, kind) => {
            let text = bad_host(alloc, line, kind)?;
            Ok(Answer {
                status: Status::BadHost,
                text,
            })
        }
    }
}

// Reads a host script, or its fault.
fn read_script<S: Source>(alloc: Global, source: &mut S) -> Result<HostRead, Stop>
    ensures ok { IfOk result (λ answer. (bytes : List ℕ) × Reads most (S.left source.old) (S.left source.new) bytes × IsHostRead bytes answer) }
    ensures fault { IsErrOf result Stop.Fault → Rose (S.faults source.old) (S.faults source.new) }
{
    match read_all(alloc, source, MOST) {
        Ok(bytes) => match read_host(alloc, &bytes) {
            Ok(script) => Ok(HostRead::Script(script)),
            Err(HostFault::At { line, kind }) => Ok(HostRead::Fault(line, kind)),
            Err(HostFault::NoMemory) => Err(Stop::NoMemory),
        },
        Err(ReadStop::TooLong) => Ok(HostRead::Fault(0, HostKind::TooLong)),
        Err(ReadStop::Fault) => Err(Stop::Fault),
        Err(ReadStop::NoMemory) => Err(Stop::NoMemory),
    }
}
