//! The top call: the words, the files, the outcome of their bytes, the report.

ghost use Rattle.std.specs.Prelude.{◌≡◌, ◌≢◌};
ghost use Rattle.ac_io.specs.Contents.{SameContents};
ghost use Rattle.ac_io.specs.Counts.{Rose};
ghost use Rattle.ac_engine.specs.Causes.{Comes, MayCome, Certifies};
ghost use Rattle.ac_engine.specs.Ends.{Reports, StopsShort};
ghost use Rattle.ac_engine.specs.Words.{texts, HasNoForm};

use crate::answer::Answer;
use crate::status::Status;
use crate::words::asked;
use ac_io::{Files, LoadFault, Sink, SinkFault};
use ac_tree::LimitKind;
use ac_verdict::{Outcome, judge, read_program};
use std::alloc::Global;

/// Certifies a program under a policy: `certify PROGRAM POLICY CERT`, where CERT is none of the two other names.
///
/// It reports on `out` and saves no file. Beside want of memory and a fault of `out`, the report is the text of an answer
/// that has its cause, and the status is that of the answer.
pub fn autocert<F: Files, S: Sink>(
    alloc: Global,
    words: &[String],
    files: &mut F,
    out: &mut S,
) -> Status
    ensures accepted { result ≡ Status.Accepted → Certifies (F.contents files.old) (texts words.now) }
    ensures reported { result ≢ Status.Memory → result ≢ Status.WriteFault → Reports (Comes (F.contents files.old) (F.load_faults files.old) (F.load_faults files.new) (texts words.now)) (S.written out.old) (S.written out.new) result }
    ensures stopped { result ≡ Status.WriteFault → StopsShort (Comes (F.contents files.old) (F.load_faults files.old) (F.load_faults files.new) (texts words.now)) (S.written out.old) (S.written out.new) }
    ensures write_fault { result ≡ Status.WriteFault → Rose (S.faults out.old) (S.faults out.new) }
    ensures memory { result ≡ Status.Memory → S.written out.new ≡ S.written out.old }
    ensures certificate { result ≢ Status.Certificate }
    ensures contents_stay { SameContents (F.contents files.old) (F.contents files.new) }
    ensures nothing_loaded { HasNoForm (texts words.now) → files.new ≡ files.old }
{
    let answer = answer(alloc, words, files);
    let status = answer.status();
    if let Status::Memory = status {
        return Status::Memory;
    }
    let Ok(text) = answer.report(alloc) else {
        return Status::Memory;
    };
    match out.put(text.as_bytes()) {
        Ok(()) => status,
        Err(SinkFault::Failed) => Status::WriteFault,
        Err(SinkFault::OutOfMemory) => Status::Memory,
    }
}

/// The answer to these words.
fn answer<F: Files>(alloc: Global, words: &[String], files: &mut F) -> Answer
    ensures cause { Comes (F.contents files.old) (F.load_faults files.old) (F.load_faults files.new) (texts words.now) result }
    ensures contents_stay { SameContents (F.contents files.old) (F.contents files.new) }
    ensures nothing_loaded { HasNoForm (texts words.now) → files.new ≡ files.old }
{
    match asked(words) {
        None => Answer::Usage,
        Some(request) => certified(alloc, request.program, request.policy, files),
    }
}

/// The answer to a call with these names: the program is loaded and read, and only then the policy file.
fn certified<F: Files>(alloc: Global, program: &str, policy: &str, files: &mut F) -> Answer
    ensures cause { MayCome (F.contents files.old) (F.load_faults files.old) (F.load_faults files.new) program.now policy.now result }
    ensures contents_stay { SameContents (F.contents files.old) (F.contents files.new) }
{
    let bytes = match files.load(alloc, program, LimitKind::ProgramBytes.number()) {
        Ok(bytes) => bytes,
        Err(LoadFault::Long) => {
            let which = LimitKind::ProgramBytes;
            let value = which.number();
            let outcome = Outcome::Limit { which, value };
            return Answer::Judged { outcome };
        }
        Err(LoadFault::Failed) => return Answer::ReadFault,
        Err(LoadFault::OutOfMemory) => {
            let outcome = Outcome::OutOfMemory;
            return Answer::Judged { outcome };
        }
    };
    let accepted = match read_program(alloc, bytes.as_slice()) {
        Ok(accepted) => accepted,
        Err(outcome) => return Answer::Judged { outcome },
    };
    let bytes = match files.load(alloc, policy, LimitKind::PolicyBytes.number()) {
        Ok(bytes) => bytes,
        Err(LoadFault::Long) => {
            let which = LimitKind::PolicyBytes;
            let value = which.number();
            let outcome = Outcome::Limit { which, value };
            return Answer::Judged { outcome };
        }
        Err(LoadFault::Failed) => return Answer::ReadFault,
        Err(LoadFault::OutOfMemory) => {
            let outcome = Outcome::OutOfMemory;
            return Answer::Judged { outcome };
        }
    };
    let outcome = judge(alloc, &accepted, bytes.as_slice());
    Answer::Judged { outcome }
}
