//! The names of registers.
ghost use Rattle.std.specs.Prelude.{◌≡◌, ◌<◌, IfSome, map};
ghost use Rattle.std.specs.Str.{bytes_eq};
ghost use Rattle.em_asm_read.specs.Registers.{place_among, register_of};

/// The numbered names, by register.
const NUMBERED: [&str; 32] = [
    "x0", "x1", "x2", "x3", "x4", "x5", "x6", "x7", "x8", "x9", "x10", "x11", "x12", "x13", "x14",
    "x15", "x16", "x17", "x18", "x19", "x20", "x21", "x22", "x23", "x24", "x25", "x26", "x27",
    "x28", "x29", "x30", "x31",
];

/// The names by use, by register.
const BY_USE: [&str; 32] = [
    "zero", "ra", "sp", "gp", "tp", "t0", "t1", "t2", "s0", "s1", "a0", "a1", "a2", "a3", "a4",
    "a5", "a6", "a7", "s2", "s3", "s4", "s5", "s6", "s7", "s8", "s9", "s10", "s11", "t3", "t4",
    "t5", "t6",
];

/// The number of the register that the text names, 0 to 31.
pub fn register(text: &[u8]) -> Option<u8>
    ensures value { result ≡ register_of text.now }
    ensures within { IfSome result (λ register. register < 32) }
{
    if text == b"fp".as_slice() {
        return Some(8);
    }
    match register_among(&NUMBERED, text) {
        Some(register) => Some(register),
        None => register_among(&BY_USE, text),
    }
}

/// The number of the register whose name the text is among these.
fn register_among(names: &[&str; 32], text: &[u8]) -> Option<u8>
    ensures place { result ≡ place_among (map (λ name. name.now) names.now) text.now }
    ensures within { IfSome result (λ register. register < 32) }
{
    match names.iter().position(|name| is_name(name, text)) {
        Some(place) => Some(place as u8),
        None => None,
    }
}

/// Whether the text is the name.
fn is_name(name: &str, text: &[u8]) -> bool
    ensures { result ≡ bytes_eq name.now text.now }
{
    name.as_bytes() == text
}
