// A tuple struct for each entity, so that a number of one kind is no number of another, with document 01's limit of each.
ghost use Rattle.std.specs.Prelude.{◌≡◌};
ghost use Rattle.entity.specs.Limits.{slot_limit, reg_limit, unit_limit, class_limit, group_limit, value_limit, value_group_limit, block_limit, inst_limit, operand_limit, edit_limit, reuse_limit, byte_limit};

#[derive(Clone, Copy, PartialEq, Eq)]
pub struct SpillSlot(pub u32);

#[derive(Clone, Copy, PartialEq, Eq)]
pub struct PhysReg(pub u32);

#[derive(Clone, Copy, PartialEq, Eq)]
pub struct RegUnit(pub u32);

#[derive(Clone, Copy, PartialEq, Eq)]
pub struct RegClass(pub u32);

#[derive(Clone, Copy, PartialEq, Eq)]
pub struct RegGroup(pub u32);

#[derive(Clone, Copy, PartialEq, Eq)]
pub struct Value(pub u32);

#[derive(Clone, Copy, PartialEq, Eq)]
pub struct ValueGroup(pub u32);

#[derive(Clone, Copy, PartialEq, Eq)]
pub struct Block(pub u32);

#[derive(Clone, Copy, PartialEq, Eq)]
pub struct Inst(pub u32);

#[derive(Clone, Copy, PartialEq, Eq)]
pub struct ParamRow(pub u32);

#[derive(Clone, Copy, PartialEq, Eq)]
pub struct OperandRow(pub u32);

#[derive(Clone, Copy, PartialEq, Eq)]
pub struct EditRow(pub u32);
// The place of an operand within its instruction.
#[derive(Clone, Copy, PartialEq, Eq)]
pub struct OperandIndex(pub u32);
// The place of a byte within a sheet.
#[derive(Clone, Copy, PartialEq, Eq)]
pub struct SheetByte(pub u32);

impl SpillSlot {
    pub const LIMIT: u32 = 64;
}

impl PhysReg {
    pub const LIMIT: u32 = 128;
}

impl RegUnit {
    pub const LIMIT: u32 = 128;
}

impl RegClass {
    pub const LIMIT: u32 = 16;
}

impl RegGroup {
    pub const LIMIT: u32 = 32;
}

impl Value {
    pub const LIMIT: u32 = 256;
}

impl ValueGroup {
    pub const LIMIT: u32 = 32;
}

impl Block {
    pub const LIMIT: u32 = 64;
}

impl Inst {
    pub const LIMIT: u32 = 512;
}

impl OperandRow {
    pub const LIMIT: u32 = 2048;
}

impl EditRow {
    pub const LIMIT: u32 = 1024;
}

impl OperandIndex {
    // A reuse index is below this.
    pub const LIMIT: u32 = 128;
}

impl SheetByte {
    pub const LIMIT: u32 = 65536;
}

// The limits of the code are the limits of the definitions.
pub fn limits_agree()
    ensures slot_limit { SpillSlot.LIMIT ≡ slot_limit }
    ensures reg_limit { PhysReg.LIMIT ≡ reg_limit }
    ensures unit_limit { RegUnit.LIMIT ≡ unit_limit }
    ensures class_limit { RegClass.LIMIT ≡ class_limit }
    ensures group_limit { RegGroup.LIMIT ≡ group_limit }
    ensures value_limit { Value.LIMIT ≡ value_limit }
    ensures value_group_limit { ValueGroup.LIMIT ≡ value_group_limit }
    ensures block_limit { Block.LIMIT ≡ block_limit }
    ensures inst_limit { Inst.LIMIT ≡ inst_limit }
    ensures operand_limit { OperandRow.LIMIT ≡ operand_limit }
    ensures edit_limit { EditRow.LIMIT ≡ edit_limit }
    ensures reuse_limit { OperandIndex.LIMIT ≡ reuse_limit }
    ensures byte_limit { SheetByte.LIMIT ≡ byte_limit }
{}
