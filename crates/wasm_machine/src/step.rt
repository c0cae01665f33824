//! Steps of the machine.
ghost use Rattle.std.specs.Prelude.{◌≡◌, ◌≢◌, ◌≤◌, ◌<◌, ◌+◌, ◌^◌, [], List, ℕ, length, suc, ◌∷◌, ◌==◌, slice_get, slice_index_or, if◌then◌else◌, IfOk, OnErr, Ok, Some};
ghost use Rattle.wasm_types.specs.declared.instr.Instr.TheVariants.{BrIf, BrTable};
ghost use Rattle.wasm_types.specs.declared.module.Module.{Module};
ghost use Rattle.wasm_machine.specs.declared.stack.Turn.TheVariants as Turn;
ghost use Rattle.wasm_types.specs.Back.{nested_module};
ghost use Rattle.code_specs.specs.Stores.{Store};
ghost use Rattle.code_specs.specs.Execution.{Stuck};
ghost use Rattle.machine_steps.specs.Steps.{Stop};
ghost use Rattle.machine_steps.specs.Steps as steps;
ghost use Rattle.machine_steps.specs.Modules.{IsEncodable, IsReady};
ghost use Rattle.machine_steps.specs.Rooms.{HasRoom};
ghost use Rattle.wasm_memory.specs.Pools.{bytes_in, IsUnshared};
ghost use Rattle.wasm_machine.specs.Seen.{seen, choosing_in, local_in, entry_in, executing_in, step_in, TakesUnit};
ghost use Rattle.wasm_machine.specs.Instances.{store_in, Stands, Leaves, LargerStep};

use crate::instance::Instance;
use crate::plain::plain;
use crate::stack::{
    Stack, Turn, Values, func_at, get_local, instr_at, pop, push, set_local, top, type_at,
};
use crate::types::{function_type, is_same_type};
use code_specs::TrapKind;
use machine_steps::Label;
use std::alloc::{AllocError, Global};
use wasm_memory::Pool;
use wasm_types::{Instr, Labels, Module, ValType};

#[inline(always)]
fn block_label(end: u32, height: usize, carries: Option<ValType>) -> Label
    ensures { result ≡ steps.block_label end height carries }
{
    Label {
        target: end as usize + 1,
        height,
        carries,
        again: false,
    }
}

#[inline(always)]
fn loop_label(position: usize, height: usize) -> Label
    ensures { result ≡ steps.loop_label position height }
{
    Label {
        target: position,
        height,
        carries: None,
        again: true,
    }
}

// The label that an index picks, or the default.
#[inline(always)]
fn picked(labels: &[u32], index: u64, default: u32) -> u32
    ensures { result ≡ slice_index_or labels.now index default }
{
    let at = index as usize;
    if at < labels.len() {
        labels[at]
    } else {
        default
    }
}

// An entry of a table.
#[inline(always)]
fn entry_at(table: &[Option<u32>], index: u64) -> Option<Option<u32>>
    ensures { result ≡ slice_get table.now index }
{
    let at = index as usize;
    if at < table.len() {
        Some(table[at])
    } else {
        None
    }
}

#[inline(always)]
fn select(values: &mut Values)
    requires there { 3 ≤ length values.old }
    requires room { length values.old ≤ 1048576 }
    ensures { (c upper lower : ℕ) (below : List ℕ) → values.old ≡ c ∷ (upper ∷ (lower ∷ below)) → values.new ≡ (if c == 0 then upper else lower) ∷ below }
{
    let condition = pop(values);
    let upper = pop(values);
    let lower = pop(values);
    push(values, if condition == 0 { upper } else { lower });
}

impl Stack {
    // The run goes on at the next instruction.
    #[inline(always)]
    fn next(&mut self) -> Turn
        requires { self.old.position + 1 < 2 ^ 64 }
        ensures go { result ≡ Turn.Go }
        ensures position { self.new ≡ record self.old { position = self.old.position + 1 } }
    {
        self.position += 1;
        Turn::Go
    }

    // A branch, if the condition on top isn't 0.
    #[inline(always)]
    #[tactic(auto, unfolding(code_specs::specs::Effects::effect_of))]
    fn branch_if(&mut self, parts: &Module, label: u32) -> Turn
        requires fine { (s : Store) × (fuel : ℕ) × (executing_in parts.now (BrIf label) self.old s fuel ≢ Stop Stuck) }
        requires position { self.old.position + 1 < 2 ^ 64 }
        requires room { HasRoom self.old.depth self.old.values self.old.labels self.old.callers }
        requires ready { IsReady parts.now }
        ensures { (s : Store) (fuel : ℕ) → executing_in parts.now (BrIf label) self.old s fuel ≡ seen result self.new s fuel }
    {
        if pop(&mut self.values) != 0 {
            return self.branch(parts, label);
        }
        self.next()
    }

    // A branch to the label that the value on top picks.
    #[inline(always)]
    #[tactic(auto, unfolding(code_specs::specs::Effects::effect_of))]
    fn branch_table(&mut self, parts: &Module, labels: &Labels, default: u32) -> Turn
        requires fine { (s : Store) × (fuel : ℕ) × (executing_in parts.now (BrTable labels.now default) self.old s fuel ≢ Stop Stuck) }
        requires room { HasRoom self.old.depth self.old.values self.old.labels self.old.callers }
        requires ready { IsReady parts.now }
        ensures { (s : Store) (fuel : ℕ) → executing_in parts.now (BrTable labels.now default) self.old s fuel ≡ seen result self.new s fuel }
    {
        let index = pop(&mut self.values);
        let label = picked(labels.as_slice(), index, default);
        self.branch(parts, label)
    }

    // An if, by the condition on top.
    #[inline(always)]
    fn choose(&mut self, carries: Option<ValType>, else_at: Option<u32>, end: u32) -> Turn
        requires fine { (s : Store) × (fuel : ℕ) × (choosing_in carries else_at end self.old s fuel ≢ Stop Stuck) }
        requires position { self.old.position + 1 < 2 ^ 64 }
        requires room { HasRoom self.old.depth self.old.values self.old.labels self.old.callers }
        ensures { (s : Store) (fuel : ℕ) → choosing_in carries else_at end self.old s fuel ≡ seen result self.new s fuel }
    {
        let condition = pop(&mut self.values);
        let label = block_label(end, self.values.len(), carries);
        if condition != 0 {
            return self.enter(self.position + 1, label);
        }
        match else_at {
            Some(at) => self.enter(at as usize + 1, label),
            None => {
                self.position = end as usize + 1;
                Turn::Go
            }
        }
    }

    // local.get, local.set and local.tee.
    #[inline(always)]
    fn local(&mut self, op: u8, index: u32) -> Turn
        requires fine { (fm : Module) × (s : Store) × (fuel : ℕ) × (local_in fm op index self.old s fuel ≢ Stop Stuck) }
        requires position { self.old.position + 1 < 2 ^ 64 }
        requires room { HasRoom self.old.depth self.old.values self.old.labels self.old.callers }
        ensures { (fm : Module) (s : Store) (fuel : ℕ) → local_in fm op index self.old s fuel ≡ seen result self.new s fuel }
    {
        match op {
            0x20 => {
                let n = get_local(&self.values, self.base, index);
                push(&mut self.values, n);
            }
            0x21 => {
                let n = pop(&mut self.values);
                set_local(&mut self.values, self.base, index, n);
            }
            _ => {
                let n = top(&self.values);
                set_local(&mut self.values, self.base, index, n);
            }
        }
        self.next()
    }

    // call_indirect, at this entry of the table.
    #[inline(always)]
    fn call_entry(&mut self, parts: &Module, entry: Option<Option<u32>>, ty: u32) -> Turn
        requires fine { (s : Store) × (fuel : ℕ) × (entry_in parts.now entry ty self.old s fuel ≢ Stop Stuck) }
        requires position { self.old.position + 1 < 2 ^ 64 }
        requires room { HasRoom self.old.depth self.old.values self.old.labels self.old.callers }
        requires ready { IsReady parts.now }
        ensures { (s : Store) (fuel : ℕ) → entry_in parts.now entry ty self.old s fuel ≡ seen result self.new s fuel }
    {
        match entry {
            None => Turn::Trapped(TrapKind::Table),
            Some(None) => Turn::Trapped(TrapKind::Null),
            Some(Some(index)) => {
                let Some(has) = function_type(parts, index) else {
                    unreachable!()
                };
                if is_same_type(type_at(parts, ty), has) {
                    self.call(parts, index)
                } else {
                    Turn::Trapped(TrapKind::Signature)
                }
            }
        }
    }

    /// An instruction that has taken its unit.
    #[inline(always)]
    #[tactic(auto, unfolding(code_specs::specs::Effects::effect_of))]
    fn execute(
        &mut self,
        alloc: Global,
        parts: &Module,
        instance: &mut Instance,
        pool: &mut Pool,
        instr: &Instr,
    ) -> Result<Turn, AllocError>
        requires fine { (fuel : ℕ) × (executing_in parts.now instr.now self.old (store_in pool.old instance.old) fuel ≢ Stop Stuck) }
        requires takes { TakesUnit instr.now }
        requires encodable { IsEncodable instr.now }
        requires position { self.old.position + 1 < 2 ^ 64 }
        requires room { HasRoom self.old.depth self.old.values self.old.labels self.old.callers }
        requires ready { IsReady parts.now }
        requires stands { Stands parts.now pool.old instance.old }
        ensures step { (fuel : ℕ) → IfOk result (λ t. executing_in parts.now instr.now self.old (store_in pool.old instance.old) fuel ≡ seen t self.new (store_in pool.new instance.new) fuel) }
        ensures leaves { Leaves parts.now pool.old pool.new instance.old instance.new }
        ensures larger { IsUnshared pool.old instance.old.memory.table → (fuel : ℕ) → OnErr result (LargerStep (length (bytes_in pool.old instance.old.memory)) (executing_in parts.now instr.now self.old (store_in pool.old instance.old) fuel)) }
    {
        match instr {
            Instr::Block { result, end } => {
                let label = block_label(*end, self.values.len(), *result);
                Ok(self.enter(self.position + 1, label))
            }
            Instr::Loop { .. } => {
                let label = loop_label(self.position + 1, self.values.len());
                Ok(self.enter(self.position + 1, label))
            }
            Instr::Br(label) => Ok(self.branch(parts, *label)),
            Instr::BrIf(label) => Ok(self.branch_if(parts, *label)),
            Instr::Return => Ok(self.leave(parts)),
            Instr::Call(index) => Ok(self.call(parts, *index)),
            Instr::Drop => {
                let _dropped = pop(&mut self.values);
                Ok(self.next())
            }
            Instr::Unreachable => Ok(Turn::Trapped(TrapKind::Unreachable)),
            Instr::If {
                result,
                else_at,
                end,
            } => Ok(self.choose(*result, *else_at, *end)),
            Instr::BrTable { labels, default } => Ok(self.branch_table(parts, labels, *default)),
            Instr::CallIndirect(ty) => {
                let index = pop(&mut self.values);
                Ok(self.call_entry(parts, entry_at(&instance.table, index), *ty))
            }
            Instr::Select => {
                select(&mut self.values);
                Ok(self.next())
            }
            Instr::Local { op, index } => Ok(self.local(*op, *index)),
            _ => match plain(alloc, &mut self.values, parts, instance, pool, instr)? {
                None => Ok(self.next()),
                Some(kind) => Ok(Turn::Trapped(kind)),
            },
        }
    }

    /// One step: an instruction for a unit of fuel, or the end of a list for none. It takes memory only where a page is
    /// shared or pages are added.
    #[inline(always)]
    pub(crate) fn step(
        &mut self,
        alloc: Global,
        parts: &Module,
        instance: &mut Instance,
        pool: &mut Pool,
        fuel: &mut u64,
    ) -> Result<Turn, AllocError>
        requires fine { step_in parts.now self.old (store_in pool.old instance.old) fuel.old ≢ Stop Stuck }
        requires room { HasRoom self.old.depth self.old.values self.old.labels self.old.callers }
        requires ready { IsReady parts.now }
        requires stands { Stands parts.now pool.old instance.old }
        ensures step { IfOk result (λ t. step_in parts.now self.old (store_in pool.old instance.old) fuel.old ≡ seen t self.new (store_in pool.new instance.new) fuel.new) }
        ensures leaves { Leaves parts.now pool.old pool.new instance.old instance.new }
        ensures larger { IsUnshared pool.old instance.old.memory.table → OnErr result (LargerStep (length (bytes_in pool.old instance.old.memory)) (step_in parts.now self.old (store_in pool.old instance.old) fuel.old)) }
    {
        let instr = instr_at(func_at(parts, self.func), self.position);
        match instr {
            Instr::End => return Ok(self.close(parts, self.position + 1)),
            Instr::Else { end } => return Ok(self.close(parts, *end as usize + 1)),
            _ => {}
        }
        if *fuel == 0 {
            return Ok(Turn::Spent);
        }
        *fuel -= 1;
        self.execute(alloc, parts, instance, pool, instr)
    }
}
