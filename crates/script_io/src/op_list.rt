ghost use Rattle.std.specs.Prelude.{◌≡◌, ◌<◌, length, Some};
ghost use Rattle.std.specs.List.{slice_get};

use base_core::Text;
use std::marker::Model;

/// What is done with one key.
#[derive(Debug, Drop)]
pub enum Op {
    /// The key is read.
    Read(Text),
    /// The key becomes a value.
    Set(Text, Text),
    /// The key is deleted.
    Delete(Text),
}

/// What is done with keys, in the order in which it was asked for.
#[derive(Debug, Drop)]
pub struct OpList {
    ops: Vec<Op>,
}

impl Model for OpList {
    ghost use Rattle.std.specs.Prelude.{List};
    ghost use Rattle.script_io.specs.declared.op_list.Op.{Op};

    ghost Value = { List Op };

    ghost view = { λ list. list.ops.items };
}

impl OpList {
    /// These operations.
    pub(crate) fn new(ops: Vec<Op>) -> OpList
        ensures { result ≡ ops.items }
    {
        OpList { ops }
    }

    /// How many there are. It takes no memory.
    pub fn len(&self) -> u64
        ensures { result ≡ length self.now }
    {
        self.ops.len() as u64
    }

    /// The operation at a place, counted from 0. It takes no memory.
    pub fn at(&self, place: u64) -> &Op
        requires { place < length self.now }
        ensures { slice_get self.now place ≡ Some result.now }
    {
        &self.ops[place as usize]
    }
}
