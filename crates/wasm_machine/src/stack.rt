//! The stack of a run: values, open lists and the functions that wait.
ghost use Rattle.std.specs.Prelude.{List, ◌≡◌, ◌≢◌, ◌<◌, ◌≤◌, ◌+◌, ◌^◌, [], ◌∷◌, ◌++◌, length, reverse, slice_get, slice_set, replicate, drop, None, Some, ℕ, IfOk};
ghost use Rattle.code_specs.specs.Values.{split_first};
ghost use Rattle.code_specs.specs.Signatures.{types_of};
ghost use Rattle.code_specs.specs.Stores.{Store};
ghost use Rattle.code_specs.specs.Execution.{Stuck};
ghost use Rattle.machine_steps.specs.Steps.{Stop, cut, block_label};
ghost use Rattle.machine_steps.specs.Modules.{IsReady};
ghost use Rattle.machine_steps.specs.Rooms.{HasRoom};
ghost use Rattle.wasm_machine.specs.Seen.{values_of, seen, returning_in, calling_in, branching_in, closing_in, choosing_in, opening_in};

use crate::room::Room;
use code_specs::TrapKind;
use machine_steps::{Frame, Label};
use std::alloc::{AllocError, Global};
use wasm_types::{Func, FuncType, Instr, Module, ValType};

/// The locals and operands of all frames: 4,096 for each of 256, and one more before the next test.
pub type Values = Room<u64, 1_048_577>;

/// The open lists of all frames: 1,024 for each of 256, and one more.
pub type Labels = Room<Label, 262_145>;

/// The functions that wait.
pub type Callers = Room<Frame, 255>;

/// The room for 256 frames, and the run in it.
#[derive(Drop)]
pub struct Stack {
    /// The index of the function.
    pub(crate) func: u32,
    /// The position of the next instruction.
    pub(crate) position: usize,
    /// The place of the first local among the values.
    pub(crate) base: usize,
    /// How many lists of the function are open.
    pub(crate) depth: usize,
    pub(crate) values: Values,
    pub(crate) labels: Labels,
    pub(crate) callers: Callers,
}

/// What comes of a step.
#[derive(Clone, Copy)]
pub enum Turn {
    /// The run goes on.
    Go,
    /// The first function has returned, with its result, if it has one.
    Returned(Option<u64>),
    /// The run is aborted.
    Trapped(TrapKind),
    /// No fuel was left for the next instruction.
    Spent,
}

/// A function of a module.
#[inline(always)]
pub(crate) fn func_at(parts: &Module, index: u32) -> &Func
    requires { slice_get parts.now.funcs index ≢ None }
    ensures { slice_get parts.now.funcs index ≡ Some result.now }
{
    &parts.funcs.as_slice()[index as usize]
}

/// A function type of a module.
#[inline(always)]
pub(crate) fn type_at(parts: &Module, index: u32) -> &FuncType
    requires { slice_get parts.now.types index ≢ None }
    ensures { slice_get parts.now.types index ≡ Some result.now }
{
    &parts.types.as_slice()[index as usize]
}

/// The instruction at a position.
#[inline(always)]
pub(crate) fn instr_at(func: &Func, position: usize) -> &Instr
    requires { slice_get func.now.body position ≢ None }
    ensures instr { slice_get func.now.body position ≡ Some result.now }
    ensures within { position + 1 < 2 ^ 64 }
{
    &func.body.as_slice()[position]
}

/// Takes the value on top.
#[inline(always)]
pub(crate) fn pop(values: &mut Values) -> u64
    requires { values.old ≢ [] }
    ensures { values.old ≡ result ∷ values.new }
{
    values.pop()
}

/// The value on top.
#[inline(always)]
pub(crate) fn top(values: &Values) -> u64
    requires { values.now ≢ [] }
    ensures { (n : ℕ) (below : List ℕ) → values.now ≡ n ∷ below → result ≡ n }
{
    values.get(values.len() - 1)
}

/// Puts a value on top.
#[inline(always)]
pub(crate) fn push(values: &mut Values, n: u64)
    requires { length values.old ≤ 1048576 }
    ensures { values.new ≡ n ∷ values.old }
{
    values.push(n);
}

pub(crate) fn push_zeros(values: &mut Values, count: usize)
    requires { count + length values.old ≤ 1048576 }
    ensures { values.new ≡ replicate count 0 ++ values.old }
{
    for _i in 0..count {
        values.push(0);
    }
}

pub(crate) fn push_all(values: &mut Values, arguments: &[u64])
    requires { length arguments.now + length values.old ≤ 1048576 }
    ensures { values.new ≡ reverse arguments.now ++ values.old }
{
    for n in arguments {
        values.push(*n);
    }
}

#[inline(always)]
pub(crate) fn get_local(values: &Values, base: usize, index: u32) -> u64
    requires there { slice_get (reverse values.now) (base + index) ≢ None }
    requires room { length values.now ≤ 1048576 }
    ensures { slice_get (reverse values.now) (base + index) ≡ Some result }
{
    values.get(base + index as usize)
}

#[inline(always)]
pub(crate) fn set_local(values: &mut Values, base: usize, index: u32, n: u64)
    requires there { slice_get (reverse values.old) (base + index) ≢ None }
    requires room { length values.old ≤ 1048576 }
    ensures { values.new ≡ reverse (slice_set (reverse values.old) (base + index) n) }
{
    values.set(base + index as usize, n);
}

// The values down to a height.
#[inline(always)]
fn cut_to(values: &mut Values, height: usize)
    ensures { values.new ≡ cut height values.old }
{
    if height < values.len() {
        values.cut(height);
    }
}

// The value that a branch carries, if it carries one.
#[inline(always)]
fn take_carried(values: &mut Values, carries: Option<ValType>) -> Option<u64>
    requires { split_first (length (types_of carries)) values.old ≢ None }
    ensures { split_first (length (types_of carries)) values.old ≡ Some (record { top = values_of result; below = values.new }) }
{
    match carries {
        None => None,
        Some(_) => Some(pop(values)),
    }
}

// The result of a function, if it has one.
#[inline(always)]
fn take_result(values: &mut Values, ty: &FuncType) -> Option<u64>
    requires there { split_first (length ty.now.results) values.old ≢ None }
    requires one { length ty.now.results ≤ 1 }
    ensures { split_first (length ty.now.results) values.old ≡ Some (record { top = values_of result; below = values.new }) }
{
    if ty.results.as_slice().len() > 0 {
        Some(pop(values))
    } else {
        None
    }
}

#[inline(always)]
fn put_back(values: &mut Values, value: Option<u64>)
    requires { length values.old ≤ 1048576 }
    ensures { values.new ≡ values_of value ++ values.old }
{
    match value {
        None => {}
        Some(n) => values.push(n),
    }
}

#[inline(always)]
fn label_from_top(labels: &Labels, label: usize) -> Label
    requires { label < length labels.now }
    ensures { slice_get labels.now label ≡ Some result }
{
    labels.get(labels.len() - 1 - label)
}

#[inline(always)]
fn drop_labels(labels: &mut Labels, count: usize)
    requires { count ≤ length labels.old }
    ensures { labels.new ≡ drop count labels.old }
{
    labels.cut(labels.len() - count);
}

impl Stack {
    /// Takes the room, for 256 frames.
    pub fn new(alloc: Global) -> Result<Stack, AllocError>
        ensures { IfOk result (λ k. k.values ≡ []) }
    {
        let no_label = Label {
            target: 0,
            height: 0,
            carries: None,
            again: false,
        };
        let no_frame = Frame {
            func: 0,
            position: 0,
            base: 0,
            depth: 0,
        };
        Ok(Stack {
            func: 0,
            position: 0,
            base: 0,
            depth: 0,
            values: Room::new(alloc, 0)?,
            labels: Room::new(alloc, no_label)?,
            callers: Room::new(alloc, no_frame)?,
        })
    }

    /// The function returns.
    #[inline(always)]
    pub(crate) fn leave(&mut self, parts: &Module) -> Turn
        requires fine { (s : Store) × (fuel : ℕ) × (returning_in parts.now self.old s fuel ≢ Stop Stuck) }
        requires room { HasRoom self.old.depth self.old.values self.old.labels self.old.callers }
        requires ready { IsReady parts.now }
        ensures { (s : Store) (fuel : ℕ) → returning_in parts.now self.old s fuel ≡ seen result self.new s fuel }
    {
        let ty = type_at(parts, func_at(parts, self.func).ty);
        let value = take_result(&mut self.values, ty);
        if self.callers.len() == 0 {
            return Turn::Returned(value);
        }
        let frame = self.callers.pop();
        cut_to(&mut self.values, self.base);
        put_back(&mut self.values, value);
        drop_labels(&mut self.labels, self.depth);
        self.func = frame.func;
        self.position = frame.position;
        self.base = frame.base;
        self.depth = frame.depth;
        Turn::Go
    }

    /// A branch.
    #[inline(always)]
    pub(crate) fn branch(&mut self, parts: &Module, label: u32) -> Turn
        requires fine { (s : Store) × (fuel : ℕ) × (branching_in parts.now label self.old s fuel ≢ Stop Stuck) }
        requires room { HasRoom self.old.depth self.old.values self.old.labels self.old.callers }
        requires ready { IsReady parts.now }
        ensures { (s : Store) (fuel : ℕ) → branching_in parts.now label self.old s fuel ≡ seen result self.new s fuel }
    {
        let inside = label as usize;
        if inside >= self.depth {
            return self.leave(parts);
        }
        let label = label_from_top(&self.labels, inside);
        let value = take_carried(&mut self.values, label.carries);
        cut_to(&mut self.values, label.height);
        put_back(&mut self.values, value);
        let closed = if label.again { inside } else { inside + 1 };
        drop_labels(&mut self.labels, closed);
        self.position = label.target;
        self.depth -= closed;
        Turn::Go
    }

    /// A list ends, and this position comes next.
    #[inline(always)]
    pub(crate) fn close(&mut self, parts: &Module, position: usize) -> Turn
        requires fine { (s : Store) × (fuel : ℕ) × (closing_in parts.now position self.old s fuel ≢ Stop Stuck) }
        requires room { HasRoom self.old.depth self.old.values self.old.labels self.old.callers }
        requires ready { IsReady parts.now }
        ensures { (s : Store) (fuel : ℕ) → closing_in parts.now position self.old s fuel ≡ seen result self.new s fuel }
    {
        if self.depth == 0 {
            return self.leave(parts);
        }
        drop_labels(&mut self.labels, 1);
        self.position = position;
        self.depth -= 1;
        Turn::Go
    }

    /// A list begins at this position.
    #[inline(always)]
    pub(crate) fn enter(&mut self, position: usize, label: Label) -> Turn
        requires labels { length self.old.labels ≤ 262144 }
        requires depth { self.old.depth ≤ length self.old.labels }
        ensures { (s : Store) (fuel : ℕ) → opening_in position label self.old s fuel ≡ seen result self.new s fuel }
    {
        self.labels.push(label);
        self.position = position;
        self.depth += 1;
        Turn::Go
    }

    /// A call.
    pub(crate) fn call(&mut self, parts: &Module, index: u32) -> Turn
        requires fine { (s : Store) × (fuel : ℕ) × (calling_in parts.now index self.old s fuel ≢ Stop Stuck) }
        requires position { self.old.position + 1 < 2 ^ 64 }
        requires room { HasRoom self.old.depth self.old.values self.old.labels self.old.callers }
        requires ready { IsReady parts.now }
        ensures { (s : Store) (fuel : ℕ) → calling_in parts.now index self.old s fuel ≡ seen result self.new s fuel }
    {
        if self.callers.len() >= 255 {
            return Turn::Trapped(TrapKind::Depth);
        }
        let func = func_at(parts, index);
        let params = type_at(parts, func.ty).params.as_slice().len();
        let base = self.values.len() - params;
        push_zeros(&mut self.values, func.locals.as_slice().len());
        self.callers.push(Frame {
            func: self.func,
            position: self.position + 1,
            base: self.base,
            depth: self.depth,
        });
        self.func = index;
        self.position = 0;
        self.base = base;
        self.depth = 0;
        Turn::Go
    }
}
