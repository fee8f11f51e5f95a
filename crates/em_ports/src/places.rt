//! The eight places for ports.
ghost use Rattle.std.specs.Prelude.{◌≡◌, ◌<◌, length, map, is_some, Some, None, IfOk, IsTrue};
ghost use Rattle.std.specs.List.{list_all};
ghost use Rattle.std.specs.Option.{option_map};
ghost use Rattle.em_ports.specs.Ports.{Places, port_at, value_of, after_word, after_put, after_unplug};

use crate::objects::Port;
use em_base::{NoMemory, PortId};
use std::alloc::Global;

/// How ports are seen. Contracts speak of [`Ports`] by this trait alone, as `⟦<Ports as Seen>⟧.seen_as ports.now`. It has
/// no code.
pub trait Seen {
    /// The places in order, each empty or with the kind and the value of its port.
    ghost seen_as: { Self → Places };
}

/// The eight places for ports, numbered from 0. In each a port was plugged in, and it is gone once it is unplugged.
/// [`Seen`] says how contracts see them.
#[derive(Drop)]
pub struct Ports {
    slots: Vec<Option<Box<dyn Port>>>,
    ghost eight: { length slots.items ≡ 8 },
}

impl Seen for Ports {
    ghost seen_as = { λ ports. map (option_map (λ b. record {
      kind = (Port-box b).kind_of b.value;
      value = (Port-box b).shown_value b.value;
    })) ports.slots.items };
}

impl Ports {
    /// The ports in these eight boxes, each plugged in, in order. After `NoMemory` the boxes are dropped.
    pub fn new(alloc: Global, ports: Vec<Box<dyn Port>>) -> Result<Ports, NoMemory>
        requires { length ports.items ≡ 8 }
        ensures places { IfOk result (λ made. ⟦<Ports as Seen>⟧.seen_as made
            ≡ map (λ b. Some (record { kind = kind_of b; value = shown_value b })) ports.items) }
        ensures plugged { IfOk result (λ made.
            IsTrue (list_all is_some (⟦<Ports as Seen>⟧.seen_as made))) }
        ensures eight { IfOk result (λ made. length (⟦<Ports as Seen>⟧.seen_as made) ≡ 8) }
    {
        let slots = plug_all(alloc, ports)?;
        Ok(Ports { slots })
    }

    /// Whether a port is plugged in at each of the places.
    pub fn are_plugged(&self) -> bool
        ensures all { let seen = ⟦<Ports as Seen>⟧.seen_as in
            result ≡ list_all is_some (seen self.now) }
        ensures eight { length (⟦<Ports as Seen>⟧.seen_as self.now) ≡ 8 }
    {
        self.slots.iter().all(Option::is_some)
    }

    /// The value that the port shows, or none where it was unplugged.
    pub fn shown(&self, p: PortId) -> Option<u32>
        requires { p.0 < 8 }
        ensures value { let seen = ⟦<Ports as Seen>⟧.seen_as in
            result ≡ value_of (port_at (seen self.now) p.0) }
        ensures eight { length (⟦<Ports as Seen>⟧.seen_as self.now) ≡ 8 }
    {
        shown_in(&self.slots[p.0 as usize])
    }

    /// Puts a word to the port, and answers the value that it shows afterwards, or none where it was unplugged. The other
    /// ports stay as they were.
    pub fn put(&mut self, p: PortId, w: u32) -> Option<u32>
        requires { p.0 < 8 }
        ensures places { let seen = ⟦<Ports as Seen>⟧.seen_as in
            seen self.new ≡ after_put (seen self.old) p.0 w }
        ensures value { let seen = ⟦<Ports as Seen>⟧.seen_as in
            result ≡ value_of (port_at (seen self.new) p.0) }
        ensures eight { length (⟦<Ports as Seen>⟧.seen_as self.new) ≡ 8 }
    {
        put_in(&mut self.slots[p.0 as usize], w)
    }

    /// Unplugs the port: its box is dropped. The answer is the value that it showed, or none where it was unplugged
    /// before. The other ports stay as they were.
    pub fn unplug(&mut self, p: PortId) -> Option<u32>
        requires { p.0 < 8 }
        ensures places { let seen = ⟦<Ports as Seen>⟧.seen_as in
            seen self.new ≡ after_unplug (seen self.old) p.0 }
        ensures value { let seen = ⟦<Ports as Seen>⟧.seen_as in
            result ≡ value_of (port_at (seen self.old) p.0) }
        ensures eight { length (⟦<Ports as Seen>⟧.seen_as self.new) ≡ 8 }
    {
        take_out(&mut self.slots[p.0 as usize])
    }
}

/// The boxes, each in a place of its own, in order.
fn plug_all(
    alloc: Global,
    ports: Vec<Box<dyn Port>>,
) -> Result<Vec<Option<Box<dyn Port>>>, NoMemory>
    ensures places { let plugged : Places = map (λ b.
        Some (record { kind = kind_of b; value = shown_value b })) ports.items in
        IfOk result (λ slots. plugged ≡ map (option_map (λ b.
        record { kind = kind_of b; value = shown_value b })) slots.items) }
    ensures count { IfOk result (λ slots. length slots.items ≡ length ports.items) }
{
    let mut slots: Vec<Option<Box<dyn Port>>> = Vec::with_capacity(alloc, ports.len())?;
    for port in ports {
        slots.push(Some(port))?;
    }
    Ok(slots)
}

/// The value that the port in a place shows, or none where the place is empty.
fn shown_in(slot: &Option<Box<dyn Port>>) -> Option<u32>
    ensures { let seen = option_map (λ b.
        record { kind = kind_of b; value = shown_value b }) in
        result ≡ value_of (seen slot.now) }
{
    let port = slot.as_ref()?;
    Some(port.shown())
}

/// Puts a word to the port in a place, and answers the value that it shows afterwards, or none where the place is empty.
fn put_in(slot: &mut Option<Box<dyn Port>>, w: u32) -> Option<u32>
    ensures place { let seen = option_map (λ b.
        record { kind = kind_of b; value = shown_value b }) in
        seen slot.new ≡ after_word w (seen slot.old) }
    ensures value { let seen = option_map (λ b.
        record { kind = kind_of b; value = shown_value b }) in
        result ≡ value_of (seen slot.new) }
{
    let port = slot.as_mut()?;
    port.put(w);
    Some(port.shown())
}

/// Empties a place, and answers the value that the port in it showed, or none where it was empty before.
fn take_out(slot: &mut Option<Box<dyn Port>>) -> Option<u32>
    ensures place { slot.new ≡ None }
    ensures value { let seen = option_map (λ b.
        record { kind = kind_of b; value = shown_value b }) in
        result ≡ value_of (seen slot.old) }
{
    let port = slot.take()?;
    Some(port.shown())
}
