//! The top call.
ghost use Rattle.std.specs.Prelude.{◌≡◌, ◌≢◌, ◌⊎◌, ℕ, ◌+◌, ◌<◌, ◌≤◌, List, length, map, take};
ghost use Rattle.std.specs.Prelude.{IsTrue, Some, codes, is_some, string_bytes, true};
ghost use Rattle.std.specs.List.{list_all};
ghost use Rattle.em_base.specs.declared.apps.App.{App};
ghost use Rattle.em_base.specs.declared.refusals.Refusal.{Refusal};
ghost use Rattle.em_io.specs.Bytes.{input_limit, Rose, Took};
ghost use Rattle.em_bundle.specs.Application.{IsApplicationFor, IsBundleRefusedFor};
ghost use Rattle.em_run.specs.declared.commands.Command.{Command};
ghost use Rattle.em_run.specs.Agreed.{HasWholeReads, IsAgreed, is_run};
ghost use Rattle.em_run.specs.Commands.{IsCommand, IsNoCommand};
ghost use Rattle.em_run.specs.Output.{AreBytesOf, AreGiven, AreLeft, IsDue, IsOutput, IsOutputOf};
ghost use Rattle.em_run.specs.Output.{Wrote, is_reader, is_replay, reading, refusal_text};

use crate::answer::decide;
use crate::status::Status;
use em_bundle::{one_application, replayable, sound_application};
use em_io::{Sink, Source, write_all};
use em_plain::whole_run;
use em_ports::{Ports, Seen};
use em_sched::{same_trace, valid_schedule, whole_reads};
use std::alloc::Global;

/// All that the program does. `words` are the words after its name: the command `run`, `trial`, `replay`, `list` or `hint`, or
/// `bench` with `--number` and its number of 32 bits, as the command line reads them. All but `bench` read the source to its end
/// and take what they read for a bundle. `run` and `trial` run the application on the kernel, with the ports that are handed in,
/// and write the trace, the schedule and the end; `replay` runs it on the plain machine under the schedule that its bundle has,
/// and writes the trace and the end; `list` writes the listing of its code, and `hint` its text with the hints that are found,
/// which no run uses yet. `bench` reads nothing and runs the workload of its number on the kernel, and writes one line of what
/// the run came to. A port must be plugged in at each place.
///
/// The words are looked at first, then the source, then the length of what was read, then what it stands for; the first that
/// is wrong decides the status, and then nothing is run and the ports stay as they were. Each status but `WriteFault` has one
/// text, which is made first and then written whole; `WriteFault` takes the place of any status whose text could not be
/// written. After it and after `NoMemory` the ports are those after some number of steps of the run, which may be none, and
/// after `Misfit` those where the replay asked for a step that no task takes.
pub fn emeralds<S: Source, K: Sink>(
    alloc: Global,
    words: &[String],
    src: &mut S,
    out: &mut K,
    ports: &mut Ports,
) -> Status
    requires plugged { IsTrue (list_all is_some (⟦<Ports as Seen>⟧.seen_as ports.old)) }

    // Where nothing is wrong, the output of the command is written, and the ports are those of the output, unless memory runs
    // out.
    ensures complete { let seen = ⟦<Ports as Seen>⟧.seen_as in
        (command : Command) (bytes : List ℕ) (app : App)
        → IsCommand (map string_bytes words.now) command
        → AreGiven command (S.left src.old) bytes
        → IsApplicationFor (is_replay command) bytes app
        → ¬ (Rose (S.faults src.old) (S.faults src.new))
        → ¬ (Rose (K.faults out.old) (K.faults out.new))
        → (result ≡ Status.NoMemory)
        ⊎ ((text : List ℕ) × IsOutput command app (seen ports.old) result text (seen ports.new)
        × Wrote (K.written out.old) (K.written out.new) text) }

    // Where the bytes alone are wrong, their refusal is written, unless memory runs out.
    ensures refuses { (command : Command) (bytes : List ℕ) (refusal : Refusal)
        → IsCommand (map string_bytes words.now) command
        → AreGiven command (S.left src.old) bytes
        → IsBundleRefusedFor (is_replay command) bytes refusal
        → ¬ (Rose (S.faults src.old) (S.faults src.new))
        → ¬ (Rose (K.faults out.old) (K.faults out.new))
        → let line = refusal_text refusal.code refusal.line in
        (result ≡ Status.NoMemory)
        ⊎ ((result ≡ Status.Malformed) × Wrote (K.written out.old) (K.written out.new) line) }

    // Where the length of what is read alone is wrong, it is refused for that, unless memory runs out.
    ensures refuses_length { (command : Command) (bytes : List ℕ)
        → IsCommand (map string_bytes words.now) command → is_reader command ≡ true
        → S.left src.old ≡ Some bytes → input_limit < length bytes
        → ¬ (Rose (S.faults src.old) (S.faults src.new))
        → ¬ (Rose (K.faults out.old) (K.faults out.new))
        → (result ≡ Status.NoMemory) ⊎ (result ≡ Status.TooLong) }

    // Where the words are no command, they are refused, unless memory runs out, and the source isn't touched.
    ensures refuses_words { IsNoCommand (map string_bytes words.now)
        → (result ≡ Status.Usage) ⊎ ((result ≡ Status.WriteFault) ⊎ (result ≡ Status.NoMemory)) }
    ensures unread { IsNoCommand (map string_bytes words.now) → src.new ≡ src.old }

    // A bench doesn't touch the source either.
    ensures bench_unread { (n : ℕ) → IsCommand (map string_bytes words.now) (Command.Bench n)
        → src.new ≡ src.old }

    // Each status comes with its cause, with the line or the output that was written, and with the ports that are left.
    ensures done { result ≡ Status.Done
        → let read = reading (S.left src.old) (S.left src.new) (S.faults src.old) (S.faults src.new) in
        let seen = ⟦<Ports as Seen>⟧.seen_as in
        (command : Command) × (bytes : List ℕ) × (text : List ℕ)
        × IsCommand (map string_bytes words.now) command × AreBytesOf command read bytes
        × IsOutputOf command bytes (seen ports.old) Status.Done text (seen ports.new)
        × Wrote (K.written out.old) (K.written out.new) text }
    ensures lapped { result ≡ Status.Lapped
        → let read = reading (S.left src.old) (S.left src.new) (S.faults src.old) (S.faults src.new) in
        let seen = ⟦<Ports as Seen>⟧.seen_as in
        (command : Command) × (bytes : List ℕ) × (text : List ℕ)
        × IsCommand (map string_bytes words.now) command × AreBytesOf command read bytes
        × IsOutputOf command bytes (seen ports.old) Status.Lapped text (seen ports.new)
        × Wrote (K.written out.old) (K.written out.new) text }
    ensures misfit { result ≡ Status.Misfit
        → let read = reading (S.left src.old) (S.left src.new) (S.faults src.old) (S.faults src.new) in
        let seen = ⟦<Ports as Seen>⟧.seen_as in
        (command : Command) × (bytes : List ℕ) × (text : List ℕ)
        × IsCommand (map string_bytes words.now) command × AreBytesOf command read bytes
        × IsOutputOf command bytes (seen ports.old) Status.Misfit text (seen ports.new)
        × Wrote (K.written out.old) (K.written out.new) text }

    // What a run or a trial writes is a trace, a schedule and an end. The trace is the one of the plain machine, of the unhinted
    // source and from the same ports, under the schedule that is written; and a replay of the bundle with that schedule writes
    // it again.
    ensures agrees { (result ≡ Status.Done) ⊎ (result ≡ Status.Lapped)
        → let read = reading (S.left src.old) (S.left src.new) (S.faults src.old) (S.faults src.new) in
        let seen = ⟦<Ports as Seen>⟧.seen_as in
        (command : Command) × (bytes : List ℕ) × (text : List ℕ)
        × IsCommand (map string_bytes words.now) command × AreBytesOf command read bytes
        × Wrote (K.written out.old) (K.written out.new) text
        × (is_run command ≡ true → IsAgreed bytes (seen ports.old) text) }

    // Each read of that run that copied its last word is whole: it put the words of the value whose number stands in its line
    // `get`, the newest that was published when it began, into the own window of its task, and its task did nothing else
    // meanwhile.
    ensures reads { (result ≡ Status.Done) ⊎ (result ≡ Status.Lapped)
        → let read = reading (S.left src.old) (S.left src.new) (S.faults src.old) (S.faults src.new) in
        let seen = ⟦<Ports as Seen>⟧.seen_as in
        (command : Command) × (bytes : List ℕ) × (text : List ℕ)
        × IsCommand (map string_bytes words.now) command × AreBytesOf command read bytes
        × Wrote (K.written out.old) (K.written out.new) text
        × (is_run command ≡ true → HasWholeReads bytes (seen ports.old) text) }

    ensures usage { result ≡ Status.Usage → let seen = ⟦<Ports as Seen>⟧.seen_as in
        IsNoCommand (map string_bytes words.now)
        × (S.left src.new ≡ S.left src.old) × (seen ports.new ≡ seen ports.old)
        × Wrote (K.written out.old) (K.written out.new) (codes "error usage\n") }
    ensures read_fault { result ≡ Status.ReadFault → let seen = ⟦<Ports as Seen>⟧.seen_as in
        Rose (S.faults src.old) (S.faults src.new) × (seen ports.new ≡ seen ports.old)
        × Wrote (K.written out.old) (K.written out.new) (codes "error read\n") }
    ensures too_long { result ≡ Status.TooLong → let seen = ⟦<Ports as Seen>⟧.seen_as in
        Took (λ n. n ≡ input_limit + 1) (S.left src.old) (S.left src.new)
        × (seen ports.new ≡ seen ports.old)
        × Wrote (K.written out.old) (K.written out.new) (codes "error too long\n") }
    ensures malformed { result ≡ Status.Malformed
        → let read = reading (S.left src.old) (S.left src.new) (S.faults src.old) (S.faults src.new) in
        let seen = ⟦<Ports as Seen>⟧.seen_as in
        (command : Command) × (bytes : List ℕ) × (refusal : Refusal)
        × IsCommand (map string_bytes words.now) command × AreBytesOf command read bytes
        × IsBundleRefusedFor (is_replay command) bytes refusal
        × (seen ports.new ≡ seen ports.old)
        × Wrote (K.written out.old) (K.written out.new) (refusal_text refusal.code refusal.line) }
    ensures no_memory { result ≡ Status.NoMemory
        → Wrote (K.written out.old) (K.written out.new) (codes "error memory\n") }

    // Where the sink failed, a first part of the text that was due was written, the ports are those that were due with it, and
    // the sink's count says that it failed.
    ensures write_fault { result ≡ Status.WriteFault
        → let read = reading (S.left src.old) (S.left src.new) (S.faults src.old) (S.faults src.new) in
        let seen = ⟦<Ports as Seen>⟧.seen_as in
        Rose (K.faults out.old) (K.faults out.new)
        × ((status : Status) × (text : List ℕ) × (n : ℕ)
        × IsDue (map string_bytes words.now) read (seen ports.old) status text (seen ports.new)
        × Wrote (K.written out.old) (K.written out.new) (take n text)) }

    // All statuses but that one, by one relation: what was written is the text that is due, and the ports are those due.
    ensures answer { result ≢ Status.WriteFault
        → let read = reading (S.left src.old) (S.left src.new) (S.faults src.old) (S.faults src.new) in
        let seen = ⟦<Ports as Seen>⟧.seen_as in (text : List ℕ)
        × IsDue (map string_bytes words.now) read (seen ports.old) result text (seen ports.new)
        × Wrote (K.written out.old) (K.written out.new) text }

    // Whatever the status, the ports are as they were handed in, or those after some number of steps of the run of what was
    // read.
    ensures left { let reads = reading (S.left src.old) (S.left src.new) in
        let read = reads (S.faults src.old) (S.faults src.new) in
        let seen = ⟦<Ports as Seen>⟧.seen_as in
        AreLeft (map string_bytes words.now) read (seen ports.old) (seen ports.new) }

    // No more is read than the limit where the length isn't what is wrong, and the counts of faults never fall.
    ensures within { result ≢ Status.TooLong → result ≢ Status.WriteFault
        → Took (λ n. n ≤ input_limit) (S.left src.old) (S.left src.new) }
    ensures source_grows { S.faults src.old ≤ S.faults src.new }
    ensures sink_grows { K.faults out.old ≤ K.faults out.new }
{
    // Bytes stand for one application or have one refusal, on which `complete` and `refuses` rest.
    one_application();
    // A whole replay is a part of itself, on which `left` rests.
    whole_run();
    // A run has the trace of the plain machine under its schedule, which is valid and can be replayed: `agrees` rests on this.
    same_trace();
    valid_schedule();
    sound_application();
    replayable();
    // Each read of a run that ends is whole, on which `reads` rests.
    whole_reads();
    let due = decide(alloc, words, src, ports);
    match write_all(out, due.text.as_bytes()) {
        Ok(()) => due.status,
        Err(_) => Status::WriteFault,
    }
}
