//! Laws of bundles.
ghost use Rattle.std.specs.Prelude.{◌≡◌, ◌⊎◌, ℕ, ◌+◌, All, Bool, true, List, length, Some};
ghost use Rattle.std.specs.Str.Lines.{lines};
ghost use Rattle.em_base.specs.declared.apps.App.{App};
ghost use Rattle.em_base.specs.declared.events.Schedule.{Schedule};
ghost use Rattle.em_base.specs.declared.refusals.Refusal.{Refusal};
ghost use Rattle.em_base.specs.Events.{IsScript};
ghost use Rattle.em_base.specs.Tables.{IsTable};
ghost use Rattle.em_hint.specs.Lines.{HaveWaitLines};
ghost use Rattle.em_script.specs.Script.{HasWords};
ghost use Rattle.em_trace.specs.Schedules.{IsSchedule};
ghost use Rattle.em_bundle.specs.Application.{IsApplication, IsApplicationFor, IsBundleRefusedFor};
ghost use Rattle.em_bundle.specs.Scheduled.{ended_lines, with_schedule};

use em_asm::one_image;
use em_asm_read::one_meaning;
use em_hint::one_map;
use em_script::one_script;
use em_trace::{one_schedule, schedule_reads_back};

/// With replay, and without, bytes stand for one application or are refused with one refusal, and never both.
pub fn one_application()
    ensures some { (replay : Bool) (bytes : List ℕ)
        → ((app : App) × IsApplicationFor replay bytes app)
        ⊎ ((refusal : Refusal) × IsBundleRefusedFor replay bytes refusal) }
    ensures app { (replay : Bool) (bytes : List ℕ) (one other : App)
        → IsApplicationFor replay bytes one → IsApplicationFor replay bytes other → one ≡ other }
    ensures refusal { (replay : Bool) (bytes : List ℕ) (one other : Refusal)
        → IsBundleRefusedFor replay bytes one → IsBundleRefusedFor replay bytes other
        → one ≡ other }
    ensures either { (replay : Bool) (bytes : List ℕ) (app : App) (refusal : Refusal)
        → IsApplicationFor replay bytes app → IsBundleRefusedFor replay bytes refusal → ⊥ }
{
    one_meaning();
    one_image();
    one_map();
    one_script();
    one_schedule();
}

/// The bytes of an application, with their last line ended and then a schedule for as many tasks as it has as the part
/// `%schedule`, are those of the same application with this schedule, to be replayed. Ending the last line, where it isn't ended,
/// leaves the lines of any bytes as they were.
pub fn replayable()
    ensures lines { (bytes : List ℕ) → lines (ended_lines bytes) ≡ lines bytes }
    ensures app { (bytes : List ℕ) (app : App) (schedule : Schedule)
        → IsApplication bytes app → IsSchedule (length app.table.tasks) schedule
        → IsApplicationFor true (with_schedule bytes schedule)
        (record app { schedule = Some schedule }) }
{
    schedule_reads_back();
}

/// The table of an application that bytes stand for is one that there may be, and so is its script, whose releases have
/// arrivals and words of 32 bits. Each `waitjob` of its image stands in a line of its own of its code text, under the number that
/// this line has in the bundle, and is the first word of the line behind its label.
pub fn sound_application()
    ensures table { (replay : Bool) (bytes : List ℕ) (app : App)
        → IsApplicationFor replay bytes app → IsTable app.table }
    ensures script { (replay : Bool) (bytes : List ℕ) (app : App)
        → IsApplicationFor replay bytes app → IsScript app.table.tasks app.script }
    ensures words { (replay : Bool) (bytes : List ℕ) (app : App)
        → IsApplicationFor replay bytes app → All HasWords app.script }
    ensures waits { (replay : Bool) (bytes : List ℕ) (app : App)
        → IsApplicationFor replay bytes app
        → HaveWaitLines (app.code_line + 1) (lines app.code_text) app.image.waits }
{}
