//! What is saved of a guest, and guests that are made of it again.
ghost use Rattle.std.specs.Prelude.{◌≡◌, ◌≤◌, ℕ, true, false, None, Ok, IfOk, IfSome, OnErr, is_some};
ghost use Rattle.fmi_states.specs.declared.phase.Phase.TheVariants.{Step};
ghost use Rattle.fmi_states.specs.Parts.{Among, Spares};
ghost use Rattle.wasm_types.specs.Back.{nested_module};
ghost use Rattle.code_specs.specs.Instances.{first_misfit};
ghost use Rattle.wasm_memory.specs.Pools.{bytes_in};
ghost use Rattle.wasm_machine.specs.Instances.{Stands};
ghost use Rattle.binding_specs.specs.Exports.{binding_fault};
ghost use Rattle.binding_specs.specs.Guests.{greatest_size};
ghost use Rattle.fmi_binding.specs.Ecus.{part_at, parts_of, state_of, IsIn};
ghost use Rattle.fmi_binding.specs.Images.{image_of, image_suits, state_from};

use crate::bound_unit::BoundUnit;
use crate::copies::copy_description;
use crate::guests::Guests;
use crate::sizes::area_size;
use crate::wasm_ecu::WasmEcu;
use fmi_states::Phase;
use fmu_description::Description;
use std::alloc::{AllocError, Global};
use wasm_machine::{Instance, suits};
use wasm_memory::Pool;
use wasm_types::{Bytes, Items, Module};
use wasm_validate::Checked;

const PAGE: u32 = 65_536;

/// What is saved of a guest: all of its state but its module, its description and its fuel.
#[derive(Drop)]
pub struct Image {
    /// Its phase.
    pub phase: Phase,
    /// The address of its area, in bytes.
    pub area: u32,
    /// The size of its memory, in pages of 65,536 bytes.
    pub pages: u32,
    /// The bytes of its memory.
    pub bytes: Bytes,
    /// The numbers in its globals; an i32 lies in the low 32 bits.
    pub globals: Items<u64>,
}

/// A copy of all bytes of an instance's memory.
fn memory_of(
    alloc: Global,
    pool: &Pool,
    code: &Checked,
    instance: &Instance,
) -> Result<Vec<u8>, AllocError>
    requires { Stands code.now pool.now instance.now }
    ensures { IfOk result (λ bytes. bytes.items ≡ bytes_in pool.now instance.now.memory) }
{
    match instance.read(alloc, pool, 0, instance.pages() * PAGE)? {
        Some(bytes) => Ok(bytes),
        // The memory has so many bytes.
        None => unreachable!(),
    }
}

/// Whether a guest of this module, with this description, may be as the image says.
fn image_suits(code: &Module, description: &Description, image: &Image) -> bool
    requires { greatest_size description.now.terminals ≤ 65536 }
    ensures { result ≡ image_suits (nested_module code.now) description.now image.now }
{
    let bytes = image.bytes.as_slice();
    let end = u64::from(image.area) + u64::from(area_size(description));
    matches!(image.phase, Phase::Step)
        && suits(code, image.pages, bytes, image.globals.as_slice())
        && end <= bytes.len() as u64
}

impl WasmEcu {
    /// What is saved of the guest.
    pub fn image(&self, alloc: Global, shared: &Guests) -> Result<Image, AllocError>
        requires here { IsIn self.now shared.now }
        ensures image { IfOk result (λ i. i ≡ image_of (state_of self.now shared.now)) }
        // In Step Mode it suits the guest's module.
        ensures suits { let s = state_of self.now shared.now in s.phase ≡ Step
            → IfOk result (λ i. image_suits (nested_module s.code) s.description i ≡ true) }
    {
        let bytes = memory_of(alloc, &shared.pool, &self.bound.code, &self.instance)?;
        let globals = Vec::from_slice(alloc, self.instance.globals())?;
        Ok(Image {
            phase: self.phase,
            area: self.area,
            pages: self.instance.pages(),
            bytes: Items::of(bytes),
            globals: Items::of(globals),
        })
    }

    /// The guest that an image was saved of, in a table that wasn't there before. Each function may use so much fuel.
    /// None, and then no memory is taken, exactly where
    /// - the phase isn't Step Mode,
    /// - or no instance of the module has so many pages with these bytes and these numbers in the globals,
    /// - or the area of the description doesn't lie in the memory.
    ///
    /// Every other table is as it was, and after want of memory every table.
    pub fn from_image(
        alloc: Global,
        shared: &mut Guests,
        code: Checked,
        description: &Description,
        fuel: u64,
        image: &Image,
    ) -> Result<Option<WasmEcu>, AllocError>
        // `fits` is Ok, and so is `check`.
        requires fits { first_misfit (nested_module code) ≡ None }
        requires bound { binding_fault (nested_module code) ≡ None }
        // No binary of a terminal is longer than 65,536 bytes.
        requires sizes { greatest_size description.now.terminals ≤ 65536 }
        ensures some { IfOk result (λ made. is_some made ≡ image_suits (nested_module code) description.now image.now) }
        ensures refused { image_suits (nested_module code) description.now image.now ≡ false → result ≡ Ok None }
        ensures kept { image_suits (nested_module code) description.now image.now ≡ false → (p : ℕ) → part_at p shared.new ≡ part_at p shared.old }
        ensures state { IfOk result (λ made. IfSome made (λ e. state_of e shared.new ≡ state_from code description.now fuel image.now)) }
        ensures here { IfOk result (λ made. IfSome made (λ e. IsIn e shared.new)) }
        ensures fresh { IfOk result (λ made. IfSome made (λ e. (p : ℕ) → Among p (parts_of e) → part_at p shared.old ≡ None)) }
        ensures others { IfOk result (λ made. IfSome made (λ e. Spares part_at (parts_of e) shared.old shared.new)) }
        ensures err { OnErr result ((p : ℕ) → part_at p shared.new ≡ part_at p shared.old) }
    {
        if !image_suits(code.module(), description, image) {
            return Ok(None);
        }
        let description = copy_description(alloc, description)?;
        let bytes = image.bytes.as_slice();
        let globals = image.globals.as_slice();
        match Instance::from_state(alloc, &mut shared.pool, &code, image.pages, bytes, globals)? {
            None => Ok(None),
            Some(instance) => Ok(Some(WasmEcu {
                bound: BoundUnit {
                    code,
                    description,
                    budget: fuel,
                },
                instance,
                phase: image.phase,
                area: image.area,
            })),
        }
    }
}
