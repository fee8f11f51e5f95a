//! Laws of traces and of schedules.
ghost use Rattle.std.specs.Prelude.{◌≡◌, ◌⊎◌, ℕ, All, List};
ghost use Rattle.std.specs.Str.Lines.{lines};
ghost use Rattle.em_base.specs.declared.events.Schedule.{Schedule as ScheduleValue};
ghost use Rattle.em_base.specs.declared.refusals.Refusal.{Refusal};
ghost use Rattle.em_trace.specs.declared.lines.Line.{Line as LineValue};
ghost use Rattle.em_trace.specs.Printed.{IsLine, trace_text};
ghost use Rattle.em_trace.specs.Reading.{IsFormFault, IsTraceOf};
ghost use Rattle.em_trace.specs.ScheduleFaults.{IsScheduleRefused};
ghost use Rattle.em_trace.specs.Schedules.{IsSchedule, IsScheduleOf, schedule_text};

/// A text is a trace of one list of lines, or has one first line that is no line of a trace: one of these, and never both.
pub fn one_trace()
    ensures lines { (text : List ℕ) (one other : List LineValue)
        → IsTraceOf text one → IsTraceOf text other → one ≡ other }
    ensures fault { (text : List ℕ) (one other : ℕ)
        → IsFormFault text one → IsFormFault text other → one ≡ other }
    ensures either { (text : List ℕ) (lines : List LineValue) (number : ℕ)
        → IsTraceOf text lines → IsFormFault text number → ⊥ }
    ensures some { (text : List ℕ) → ((lines : List LineValue) × IsTraceOf text lines)
        ⊎ ((number : ℕ) × IsFormFault text number) }
{}

/// The text of lines is a trace of these lines, and of no others.
pub fn reads_back()
    ensures printed { (lines : List LineValue) → All IsLine lines
        → IsTraceOf (trace_text lines) lines }
    ensures only { (lines other : List LineValue) → All IsLine lines
        → IsTraceOf (trace_text lines) other → other ≡ lines }
{}

/// For so many tasks lines are those of one schedule, or are refused with one refusal, by the number of the first of them: one
/// of these, and never both.
pub fn one_schedule()
    ensures schedule { (tasks : ℕ) (lines : List (List ℕ)) (one other : ScheduleValue)
        → IsScheduleOf tasks lines one → IsScheduleOf tasks lines other → one ≡ other }
    ensures refusal { (first tasks : ℕ) (lines : List (List ℕ)) (one other : Refusal)
        → IsScheduleRefused first tasks lines one → IsScheduleRefused first tasks lines other
        → one ≡ other }
    ensures either { (first tasks : ℕ) (lines : List (List ℕ)) (s : ScheduleValue)
        (refusal : Refusal)
        → IsScheduleOf tasks lines s → IsScheduleRefused first tasks lines refusal → ⊥ }
    ensures some { (first tasks : ℕ) (lines : List (List ℕ))
        → ((s : ScheduleValue) × IsScheduleOf tasks lines s)
        ⊎ ((refusal : Refusal) × IsScheduleRefused first tasks lines refusal) }
{}

/// The text of a schedule for so many tasks has the lines of this schedule, and of no other.
pub fn schedule_reads_back()
    ensures printed { (tasks : ℕ) (s : ScheduleValue) → IsSchedule tasks s
        → IsScheduleOf tasks (lines (schedule_text s)) s }
    ensures only { (tasks : ℕ) (s other : ScheduleValue) → IsSchedule tasks s
        → IsScheduleOf tasks (lines (schedule_text s)) other → other ≡ s }
{}
