//! Walks whose hints were worked out by hand.

ghost use Rattle.std.specs.Prelude.{◌<◌};
ghost use Rattle.em_isa.specs.Encoding.{IsImmediate};

use crate::scan;
use em_base::SemId;
use em_isa::{Instr, encode};
use std::process::Abort;

/// `li` of a small number.
fn loads(rd: u8, imm: i32) -> u32
    requires { (rd < 32) × IsImmediate imm }
{
    encode(&Instr::OpImm {
        op: 0,
        alt: false,
        rd,
        rs1: 0,
        imm,
    })
}

#[test]
fn an_acquire_is_found(rt: HostRuntime) {
    let ecall = encode(&Instr::Ecall);
    let code = [loads(17, 1), ecall, loads(17, 2), loads(10, 3), ecall];
    assert_eq!(rt; scan(&code, 8, 4, 0), Some(SemId(3)));
    assert_eq!(rt; scan(&code, 8, 3, 0), None);
    assert_eq!(rt; scan(&code, 0, 4, 0), None);
    assert_eq!(rt; scan(&code, 20, 4, 0), None);
}
