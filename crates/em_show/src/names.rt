//! The mnemonics of instructions.
ghost use Rattle.std.specs.Prelude.{◌≡◌, ◌<◌, false};
ghost use Rattle.em_show.specs.Show as spec;

/// The branches by their funct3; two are none.
const BRANCHES: [&str; 8] = ["beq", "bne", "", "", "blt", "bge", "bltu", "bgeu"];

/// The loads by their funct3; one is none.
const LOADS: [&str; 6] = ["lb", "lh", "lw", "", "lbu", "lhu"];

/// The stores by their funct3.
const STORES: [&str; 3] = ["sb", "sh", "sw"];

/// The operations over an immediate by their funct3.
const IMMEDIATES: [&str; 8] = [
    "addi", "slli", "slti", "sltiu", "xori", "srli", "ori", "andi",
];

/// The operations over registers by their funct3.
const OPERATIONS: [&str; 8] = ["add", "sll", "slt", "sltu", "xor", "srl", "or", "and"];

/// The mnemonic of a branch.
pub(crate) fn branch_name(op: u8) -> &'static str
    requires { op < 8 }
    ensures { result.now ≡ spec.name_at spec.branch_names op }
{
    BRANCHES[usize::from(op)]
}

/// The mnemonic of a load.
pub(crate) fn load_name(op: u8) -> &'static str
    requires { op < 6 }
    ensures { result.now ≡ spec.name_at spec.load_names op }
{
    LOADS[usize::from(op)]
}

/// The mnemonic of a store.
pub(crate) fn store_name(op: u8) -> &'static str
    requires { op < 3 }
    ensures { result.now ≡ spec.name_at spec.store_names op }
{
    STORES[usize::from(op)]
}

/// The mnemonic of an operation over an immediate.
pub(crate) fn immediate_name(op: u8, alt: bool) -> &'static str
    requires { op < 8 }
    ensures { result.now ≡ spec.immediate_name op alt }
{
    if alt {
        "srai"
    } else {
        IMMEDIATES[usize::from(op)]
    }
}

/// The mnemonic of an operation over registers.
pub(crate) fn operation_name(op: u8, alt: bool) -> &'static str
    requires { op < 8 }
    ensures { result.now ≡ spec.operation_name op alt }
{
    if !alt {
        OPERATIONS[usize::from(op)]
    } else if op == 0 {
        "sub"
    } else {
        "sra"
    }
}
