//! The laws of ports: what they show after many puts, and that each put and each unplugging is of one port alone.
ghost use Rattle.std.specs.Prelude.{◌≡◌, ◌≢◌, ℕ, List, None, Some};
ghost use Rattle.std.specs.List.{fold};
ghost use Rattle.em_ports.specs.Ports.{Plugged, Places, next_value, port_at, after_word, after_put, after_puts, after_unplug, words_to};

/// The value that a port shows after words were put to it one after another is the fold of `next_value` over them, and
/// its kind stays. So it is also where words were put to other ports in between. A place without a port stays so.
pub fn puts_fold()
    ensures words { (port : Plugged) (words : List ℕ)
        → fold (λ place word. after_word word place) (Some port) words
        ≡ Some (record {
          kind = port.kind;
          value = fold (next_value port.kind) port.value words;
        }) }
    ensures puts { (places : Places) (puts : List (ℕ × ℕ)) (p : ℕ) (port : Plugged)
        → port_at places p ≡ Some port → port_at (after_puts places puts) p
        ≡ Some (record {
          kind = port.kind;
          value = fold (next_value port.kind) port.value (words_to p puts);
        }) }
    ensures unplugged { (places : Places) (puts : List (ℕ × ℕ)) (p : ℕ)
        → port_at places p ≡ None → port_at (after_puts places puts) p ≡ None }
{}

/// A put changes no other port.
pub fn puts_alone()
    ensures { (places : Places) (p q word : ℕ) → q ≢ p
        → port_at (after_put places p word) q ≡ port_at places q }
{}

/// A port that is unplugged is gone, and no other changes.
pub fn unplugs_alone()
    ensures gone { (places : Places) (p : ℕ) → port_at (after_unplug places p) p ≡ None }
    ensures others { (places : Places) (p q : ℕ) → q ≢ p
        → port_at (after_unplug places p) q ≡ port_at places q }
{}
