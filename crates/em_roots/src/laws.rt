//! Laws of selection.
ghost use Rattle.std.specs.Prelude.{◌≡◌, ◌<◌, ◌↔◌, ℕ, Bool, false, List, Option, None, Some};
ghost use Rattle.std.specs.Option.{option_map};
ghost use Rattle.em_base.specs.declared.ids.SemId.{SemId as SemIdValue};
ghost use Rattle.em_base.specs.declared.ids.TaskId.{TaskId as TaskIdValue};
ghost use Rattle.em_base.specs.declared.jobs.Key.{Key as KeyValue};
ghost use Rattle.em_base.specs.declared.jobs.Status.{Status as StatusValue};
ghost use Rattle.em_base.specs.Selection.{Scene, least_by, scene_of, selected, tasks_where};
ghost use Rattle.em_roots.specs.Roots.{AreNamed, AreOwned, IsMostUrgent, IsRooted, least_active, root};

/// Where each key has its task's number, the task of the least key among those that pass a test is the one that passes while none
/// that passes has a lesser key. There is no such task exactly where none passes.
pub fn most_urgent()
    ensures some { (key : ℕ → KeyValue) (count t : ℕ) (test : ℕ → Bool) → AreNamed key count
        → (least_by key (tasks_where count test) ≡ Some t) ↔ IsMostUrgent key count test t }
    ensures none { (key : ℕ → KeyValue) (count : ℕ) (test : ℕ → Bool)
        → (least_by key (tasks_where count test) ≡ None)
        ↔ ((t : ℕ) → t < count → test t ≡ false) }
{}

/// The selected task is the root of the most urgent one among the Awake and Waiting tasks: the end of the chain of owners that begins
/// there.
pub fn selects_root()
    ensures { (scene : Scene) → IsRooted scene
        → selected scene ≡ option_map (root scene.depth scene.next) (least_active scene) }
{}

/// Where each owner of a semaphore is an Awake task that promises nothing, and each task that waits for a semaphore waits for another
/// task, the scene is rooted: each chain of owners ends within the depth, at a ready task.
pub fn are_rooted()
    ensures { (keys : List KeyValue) (statuses : List StatusValue)
        (promises : List (Option SemIdValue)) (owners : List (Option TaskIdValue))
        → AreOwned keys statuses promises owners
        → IsRooted (scene_of keys statuses promises owners) }
{}
