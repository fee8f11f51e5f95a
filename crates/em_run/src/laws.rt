//! Laws of the program: what is due for its words and its input, listings read again, and what `li` loads.
ghost use Rattle.std.specs.Prelude.{◌≡◌, ◌≢◌, ◌⊎◌, ◌<◌, ◌≤◌, ◌*◌, ◌^◌, ◌++◌, ℕ, List, []};
ghost use Rattle.std.specs.Prelude.{All, length, map, slice_set};
ghost use Rattle.std.specs.Fn.{iterate};
ghost use Rattle.em_isa.specs.Encoding.{word_of};
ghost use Rattle.em_base.specs.declared.ids.TaskId.{TaskId};
ghost use Rattle.em_base.specs.declared.tables.Table.{Table};
ghost use Rattle.em_base.specs.Images.{most_words};
ghost use Rattle.em_hart.specs.Hart.{with_pc, with_register};
ghost use Rattle.em_ports.specs.Ports.{Places};
ghost use Rattle.em_gate.specs.Effects.{after_step, with_core};
ghost use Rattle.em_gate.specs.State.{Core, Plain, task_at};
ghost use Rattle.em_asm.specs.Code.{loads};
ghost use Rattle.em_show.specs.Listing.{AreTextsOf};
ghost use Rattle.em_bundle.specs.Code.{IsCodeOf};
ghost use Rattle.em_bundle.specs.Parts.{headers_in};
ghost use Rattle.em_run.specs.declared.commands.Command.{Command};
ghost use Rattle.em_run.specs.Commands.{IsCommand, IsNoCommand};
ghost use Rattle.em_run.specs.Output.{IsAnswerTo};

use crate::status::Status;
use em_asm::loads_value;
use em_bundle::one_application;
use em_hart::carries_out;
use em_show::{one_listing, reads_back};

/// Words are one command or none. For a command, bytes and the ports that are handed in there is one status with one text that
/// is due and with one state of the ports afterwards, beside want of memory: the output of the command, or the refusal of the
/// bytes.
pub fn one_answer()
    ensures command { (words : List (List ℕ))
        → ((command : Command) × IsCommand words command) ⊎ IsNoCommand words }
    ensures same_command { (words : List (List ℕ)) (one other : Command)
        → IsCommand words one → IsCommand words other → one ≡ other }
    ensures some { (command : Command) (bytes : List ℕ) (before : Places)
        → (status : Status) × (text : List ℕ) × (after : Places) × (status ≢ Status.NoMemory)
        × IsAnswerTo command bytes before status text after }
    ensures same { (command : Command) (bytes : List ℕ) (before : Places)
        → (one other : Status) → one ≢ Status.NoMemory → other ≢ Status.NoMemory
        → (text other_text : List ℕ) (after other_after : Places)
        → IsAnswerTo command bytes before one text after
        → IsAnswerTo command bytes before other other_text other_after
        → (one ≡ other) × (text ≡ other_text) × (after ≡ other_after) }
{
    one_application();
    one_listing();
}

/// A listing assembled again gives the same words: the texts of at most 16,384 code words, as the lines of a code part, have
/// no header line among them, and an image with these words and nothing else.
pub fn lists_again()
    ensures part { (words : List ℕ) (texts : List (List ℕ)) → AreTextsOf words texts
        → headers_in texts ≡ [] }
    ensures image { (first : ℕ) (words : List ℕ) (texts : List (List ℕ))
        → length words ≤ most_words → All (λ word. word < 2 ^ 32) words
        → AreTextsOf words texts
        → IsCodeOf first texts (record { words = words; shared = []; waits = []; labels = [] }) }
{
    reads_back();
}

/// What `li` is in the code loads its number: where the program counter of a task is at its instructions, as many steps of the
/// task put the number into the register (x0 stays 0), leave the program counter after them, and change nothing else of the
/// plain machine.
pub fn loads_number()
    ensures { (table : Table) (t : TaskId) (rd value : ℕ) → rd < 32 → value < 2 ^ 32
        → (p : Plain) → t.0 < length p.tasks
        → let core = (task_at p.tasks t.0).core in length core.registers.values ≡ 32
        → (before rest : List ℕ) → core.registers.pc ≡ 4 * length before
        → let words = map word_of (loads rd value) in
        let code = before ++ words ++ rest in
        let loaded = with_pc (with_register core.registers rd value) (4 * length (before ++ words)) in
        let after : Core = record { registers = loaded; own = core.own } in
        let tasks = slice_set p.tasks t.0 (with_core after (task_at p.tasks t.0)) in
        4 * length code < 2 ^ 32
        → iterate (after_step table code t) (length words) p ≡ record p { tasks = tasks } }
{
    carries_out();
    loads_value();
}
