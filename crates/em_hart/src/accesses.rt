//! Loads and stores.
ghost use Rattle.std.specs.Prelude.{◌≡◌, ◌*◌, ◌^◌, ◌<◌, length, IfOk};
ghost use Rattle.em_hart.specs.Widths.{bytes_in};
ghost use Rattle.em_hart.specs.Effect.{loads, stores};
ghost use Rattle.em_hart.specs.Instruction.{effect_outcome, load_value};
ghost use Rattle.em_hart.specs.Decoded as spec;
ghost use Rattle.em_hart.specs.Steps.{Reports};

use crate::answers::{Class, MISALIGNED_DATA, OUTSIDE_WINDOWS, Stepped};
use crate::moves::{go_on, write_and_go_on};
use crate::registers::Regs;
use crate::widths::Width;
use crate::windows::Window;

/// How much the load or store with this funct3 touches.
#[tactic(auto, unfolding(crate::specs::Decoded::width_of))]
fn width_of(op: u8) -> Width
    ensures { result ≡ spec.width_of op }
{
    match op % 4 {
        0 => Width::Byte,
        1 => Width::Half,
        _ => Width::Word,
    }
}

/// The number that stands at an address, in the own window or else in the shared one; or the cause of the fault.
#[tactic(auto, unfolding(crate::specs::Decoded::read_of))]
fn read(own: &Window, shared: &Window, width: Width, address: u32) -> Result<u32, u8>
    ensures number { result ≡ spec.read_of own.now shared.now (bytes_in width) address }
    ensures small { IfOk result (λ number. number < 2 ^ (8 * bytes_in width)) }
{
    if !width.is_aligned(address) {
        return Err(MISALIGNED_DATA);
    }
    if let Some(place) = own.place(width, address) {
        return Ok(own.number(width, place));
    }
    if let Some(place) = shared.place(width, address) {
        return Ok(shared.number(width, place));
    }
    Err(OUTSIDE_WINDOWS)
}

/// What the load with this funct3 gives for a number that was read.
fn read_value(op: u8, width: Width, number: u32) -> u32
    requires { number < 2 ^ (8 * bytes_in width) }
    ensures { result ≡ load_value (spec.is_signed op) (bytes_in width) number }
{
    if op < 2 {
        width.sign_extended(number)
    } else {
        number
    }
}

/// A load with this funct3 and this destination.
pub(crate) fn load(
    op: u8,
    rd: u8,
    address: u32,
    regs: &mut Regs,
    own: &Window,
    shared: &Window,
) -> Stepped
    requires { rd < 32 }
    ensures { let effect = loads (spec.is_signed op) (bytes_in (spec.width_of op)) address in
        Reports result (effect_outcome effect rd regs.old own.now shared.now)
        regs.old own.now shared.now regs.new own.now shared.now }
{
    let width = width_of(op);
    match read(own, shared, width, address) {
        Ok(number) => {
            let value = read_value(op, width, number);
            write_and_go_on(regs, rd, value, Class::Memory)
        }
        Err(cause) => Stepped::Fault(cause),
    }
}

/// A store with this funct3.
pub(crate) fn store(
    op: u8,
    address: u32,
    number: u32,
    regs: &mut Regs,
    own: &mut Window,
    shared: &mut Window,
) -> Stepped
    ensures step { let effect = stores (bytes_in (spec.width_of op)) address number in
        Reports result (effect_outcome effect 0 regs.old own.old shared.old)
        regs.old own.old shared.old regs.new own.new shared.new }
    ensures own_base { own.new.base ≡ own.old.base }
    ensures own_length { length own.new.bytes ≡ length own.old.bytes }
    ensures shared_base { shared.new.base ≡ shared.old.base }
    ensures shared_length { length shared.new.bytes ≡ length shared.old.bytes }
{
    let width = width_of(op);
    if !width.is_aligned(address) {
        return Stepped::Fault(MISALIGNED_DATA);
    }
    if let Some(place) = own.place(width, address) {
        own.put(width, place, number);
        return go_on(regs, Class::Memory);
    }
    if let Some(place) = shared.place(width, address) {
        shared.put(width, place, number);
        return go_on(regs, Class::Memory);
    }
    Stepped::Fault(OUTSIDE_WINDOWS)
}
