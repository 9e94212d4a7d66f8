//! Maps of values and blocks.
ghost use Rattle.std.specs.Prelude.{◌≡◌, ◌≤◌, OnOk, OnErr};
ghost use Rattle.std.specs.HashMap.{get, hash_map_len, spare};
ghost use Rattle.std.specs.Option.{option_or};
ghost use Rattle.plir_copies.specs.Images.{block_in, for_call, images, no_images, over, value_in, with_block};
ghost use Rattle.plir_copies.specs.Images.{with_value};

use plir_core::{BasicBlock, Ptr, Value};
use plir_data::{Location, Memory};
use std::alloc::Global;
use std::collections::HashMap;
use std::hash::Hash;

/// What stands in place of values and blocks, and where the call was written in place of which copies stand, if they
/// stand in place of one. A value or a block that nothing was put in place of stands for itself.
#[derive(Drop)]
pub struct ValueMap {
    pub(crate) values: HashMap<Value, Value>,
    pub(crate) blocks: HashMap<Ptr<BasicBlock>, Ptr<BasicBlock>>,
    pub(crate) call: Location,
}

impl ValueMap {
    /// A map in which each value and each block stands for itself, and copies stand in place of no call.
    pub fn new(alloc: Global) -> ValueMap
        ensures { images result ≡ no_images }
    {
        ValueMap {
            values: HashMap::new(alloc),
            blocks: HashMap::new(alloc),
            call: Location::Unknown,
        }
    }

    /// Says that copies stand in place of a call that was written here: their locations tell it then.
    pub fn set_call(&mut self, call: Location)
        ensures { images self.new ≡ for_call (images self.old) call }
    {
        self.call = call;
    }

    /// Where the call was written in place of which copies stand; unknown, where they stand in place of none.
    pub fn call(&self) -> Location
        ensures { result ≡ (images self.now).call }
    {
        self.call
    }

    /// Puts a value in place of another one. After a refusal all is as before.
    pub fn map_value(&mut self, from: Value, to: Value) -> Result<(), Memory>
        ensures ok { OnOk result (images self.new ≡ with_value (images self.old) from to) }
        ensures err { OnErr result (images self.new ≡ images self.old) }
    {
        self.values.insert(from, to)?;
        Ok(())
    }

    /// Puts a block in place of another one. After a refusal all is as before.
    pub fn map_block(&mut self, from: Ptr<BasicBlock>, to: Ptr<BasicBlock>) -> Result<(), Memory>
        ensures ok { OnOk result (images self.new ≡ with_block (images self.old) from to) }
        ensures err { OnErr result (images self.new ≡ images self.old) }
    {
        self.blocks.insert(from, to)?;
        Ok(())
    }

    /// What was put in place of a value.
    pub fn find_value(&self, from: Value) -> Option<Value>
        ensures { result ≡ (images self.now).value from }
    {
        self.values.get(&from).copied()
    }

    /// What was put in place of a block.
    pub fn find_block(&self, from: Ptr<BasicBlock>) -> Option<Ptr<BasicBlock>>
        ensures { result ≡ (images self.now).block from }
    {
        self.blocks.get(&from).copied()
    }

    /// What stands in place of a value: itself, where nothing was put there.
    pub fn value(&self, from: Value) -> Value
        ensures { result ≡ value_in (images self.now) from }
    {
        self.find_value(from).unwrap_or(from)
    }

    /// What stands in place of a block: itself, where nothing was put there.
    pub fn block(&self, from: Ptr<BasicBlock>) -> Ptr<BasicBlock>
        ensures { result ≡ block_in (images self.now) from }
    {
        self.find_block(from).unwrap_or(from)
    }

    /// Puts all that another map has put in place of values and blocks in place of them here too; copies stand in place
    /// of the call of this map, as before. After a refusal all is as before.
    pub fn extend(&mut self, other: &ValueMap) -> Result<(), Memory>
        ensures ok { OnOk result (images self.new ≡ over (images other.now) (images self.old)) }
        ensures err { OnErr result (images self.new ≡ images self.old) }
    {
        self.values.reserve(other.values.len())?;
        self.blocks.reserve(other.blocks.len())?;
        put_all(&mut self.values, &other.values);
        put_all(&mut self.blocks, &other.blocks);
        Ok(())
    }
}

// Puts all entries of a map into another one that has room for them.
fn put_all<K: Copy + Eq + Hash>(into: &mut HashMap<K, K>, from: &HashMap<K, K>)
    requires { hash_map_len from.now ≤ spare into.old }
    ensures { (k : K) → get K.eq into.new k ≡ option_or (get K.eq from.now k) (get K.eq into.old k) }
{
    for (key, value) in from {
        match into.insert(*key, *value) {
            Ok(_) => {}
            Err(_) => unreachable!(),
        }
    }
}
