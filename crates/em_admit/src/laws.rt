//! Laws of the depths of state messages.
ghost use Rattle.std.specs.Prelude.{◌≡◌, ◌≤◌, ℕ};
ghost use Rattle.em_base.specs.declared.tables.Table.{Table as TableValue};
ghost use Rattle.em_admit.specs.Depth.{IsDeepEnough, depth};

/// The depth of a message is the least number that is 2 or more and at least 2 more than the bound of each of its readers; so it
/// is one.
pub fn least_depth()
    ensures at_least { (table : TableValue) (m : ℕ) → IsDeepEnough table m (depth table m) }
    ensures least { (table : TableValue) (m n : ℕ) → IsDeepEnough table m n → depth table m ≤ n }
    ensures one { (table : TableValue) (m n : ℕ) → IsDeepEnough table m n
        → ((other : ℕ) → IsDeepEnough table m other → n ≤ other) → n ≡ depth table m }
{}
