//! A module, built part by part.
ghost use Rattle.std.specs.Prelude.{◌≡◌, ◌<◌, ◌≤◌, ◌^◌, length, All, IfOk, IsOk, OnOk, OnErr};
ghost use Rattle.wasm_types.specs.declared.instr.ValType.TheVariants.{I32};
ghost use Rattle.wasm_writer.specs.Building.{nothing, with_type, with_func, with_memory, with_global, with_export, segment_at, with_segment};

use std::alloc::{AllocError, Global};
use std::marker::Model;
use wasm_types::{
    Bytes, Constant, Data, Datas, Elements, Export, Exports, Func, FuncType, FuncTypes, Funcs,
    GlobalVar, Globals, Instr, Instrs, Limits, LimitsList, Module, ValType, ValTypes,
};

/// A module so far. Contracts see it as that module.
#[derive(Drop)]
pub struct ModuleBuilder {
    types: Vec<FuncType>,
    funcs: Vec<Func>,
    tables: LimitsList,
    memories: Vec<Limits>,
    globals: Vec<GlobalVar>,
    exports: Vec<Export>,
    elements: Elements,
    datas: Vec<Data>,
}

impl Model for ModuleBuilder {
    ghost use Rattle.std.specs.Prelude.{None};
    ghost use Rattle.wasm_types.specs.declared.module.Module.{Module};

    ghost Value = { Module };

    ghost view = { λ b. record {
      types = b.types.items;
      funcs = b.funcs.items;
      tables = b.tables;
      memories = b.memories.items;
      globals = b.globals.items;
      exports = b.exports.items;
      start = None;
      elements = b.elements;
      datas = b.datas.items;
    } };
}

// The position of the next item. A list with a position for each u32 takes no more: that is want of memory too.
fn position(len: usize) -> Result<u32, AllocError>
    ensures is { IfOk result (λ n. n ≡ len) }
    ensures fits { len < 2 ^ 32 → IsOk result }
{
    match u32::try_from(len) {
        Ok(n) => Ok(n),
        Err(_) => Err(AllocError),
    }
}

impl ModuleBuilder {
    /// A module without anything. Takes no memory.
    pub fn new(alloc: Global) -> ModuleBuilder
        ensures { result ≡ nothing }
    {
        ModuleBuilder {
            types: Vec::new(alloc),
            funcs: Vec::new(alloc),
            tables: LimitsList::of(Vec::new(alloc)),
            memories: Vec::new(alloc),
            globals: Vec::new(alloc),
            exports: Vec::new(alloc),
            elements: Elements::of(Vec::new(alloc)),
            datas: Vec::new(alloc),
        }
    }

    /// Appends a function type, and gives its index.
    pub fn ty(
        &mut self,
        alloc: Global,
        params: &[ValType],
        results: &[ValType],
    ) -> Result<u32, AllocError>
        ensures index { IfOk result (λ index. index ≡ length self.old.types) }
        ensures ok { OnOk result (self.new ≡ with_type (record { params = params.now; results = results.now }) self.old) }
        ensures err { OnErr result (self.new ≡ self.old) }
    {
        let index = position(self.types.len())?;
        let params = ValTypes::of(Vec::from_slice(alloc, params)?);
        let results = ValTypes::of(Vec::from_slice(alloc, results)?);
        self.types.push(FuncType { params, results })?;
        Ok(index)
    }

    /// Appends a function of a type, with the `End` that closes its body, and gives its index. After want of memory the
    /// body is dropped.
    pub fn func(
        &mut self,
        alloc: Global,
        ty: u32,
        locals: &[ValType],
        body: Vec<Instr>,
    ) -> Result<u32, AllocError>
        ensures index { IfOk result (λ index. index ≡ length self.old.funcs) }
        ensures ok { OnOk result (self.new ≡ with_func (record { ty = ty; locals = locals.now; body = body.items }) self.old) }
        ensures err { OnErr result (self.new ≡ self.old) }
    {
        let index = position(self.funcs.len())?;
        let locals = ValTypes::of(Vec::from_slice(alloc, locals)?);
        let body = Instrs::of(body);
        self.funcs.push(Func { ty, locals, body })?;
        Ok(index)
    }

    /// Appends a memory, with its least and greatest size in pages.
    pub fn memory(&mut self, _alloc: Global, min: u32, max: Option<u32>) -> Result<(), AllocError>
        ensures ok { OnOk result (self.new ≡ with_memory (record { min = min; max = max }) self.old) }
        ensures err { OnErr result (self.new ≡ self.old) }
    {
        self.memories.push(Limits { min, max })?;
        Ok(())
    }

    /// Appends a global variable with the bits of its first value, and gives its index.
    pub fn global(
        &mut self,
        _alloc: Global,
        ty: ValType,
        mutable: bool,
        init: u64,
    ) -> Result<u32, AllocError>
        requires { ty ≡ I32 → init < 2 ^ 32 }
        ensures index { IfOk result (λ index. index ≡ length self.old.globals) }
        ensures ok { OnOk result (self.new
            ≡ with_global (record { ty = ty; mutable = mutable; init = record { ty = ty; value = init } }) self.old) }
        ensures err { OnErr result (self.new ≡ self.old) }
    {
        let index = position(self.globals.len())?;
        let init = Constant { ty, value: init };
        self.globals.push(GlobalVar { ty, mutable, init })?;
        Ok(index)
    }

    /// Appends an export under a name in ASCII: of kind 0 a function, 1 a table, 2 a memory, 3 a global.
    pub fn export(
        &mut self,
        alloc: Global,
        name: &[u8],
        kind: u8,
        index: u32,
    ) -> Result<(), AllocError>
        requires ascii { All (λ byte. byte < 128) name.now }
        requires kind { kind ≤ 3 }
        ensures ok { OnOk result (self.new ≡ with_export (record { name = name.now; kind = kind; index = index }) self.old) }
        ensures err { OnErr result (self.new ≡ self.old) }
    {
        let name = Bytes::of(Vec::from_slice(alloc, name)?);
        self.exports.push(Export { name, kind, index })?;
        Ok(())
    }

    /// Appends bytes that fill the memory from an address on.
    pub fn segment(&mut self, alloc: Global, offset: u32, bytes: &[u8]) -> Result<(), AllocError>
        ensures ok { OnOk result (self.new ≡ with_segment (segment_at offset bytes.now) self.old) }
        ensures err { OnErr result (self.new ≡ self.old) }
    {
        let bytes = Bytes::of(Vec::from_slice(alloc, bytes)?);
        let offset = Constant {
            ty: ValType::I32,
            value: offset as u64,
        };
        self.datas.push(Data { offset, bytes })?;
        Ok(())
    }

    /// The module that was built. Takes no memory.
    pub fn finish(self) -> Module
        ensures { result ≡ self }
    {
        Module {
            types: FuncTypes::of(self.types),
            funcs: Funcs::of(self.funcs),
            tables: self.tables,
            memories: LimitsList::of(self.memories),
            globals: Globals::of(self.globals),
            exports: Exports::of(self.exports),
            start: None,
            elements: self.elements,
            datas: Datas::of(self.datas),
        }
    }
}
