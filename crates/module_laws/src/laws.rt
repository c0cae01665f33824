//! What holds of the grammar of modules, and of what a file is read as.
ghost use Rattle.module_specs.specs.ModuleSpelling.{SpellsModule};
ghost use Rattle.module_specs.specs.ModuleReading.{module_read};
ghost use Rattle.module_laws.specs.Grammars.{SpellsOne, SpellsUnlessCause, IgnoresCustom};
ghost use Rattle.module_laws.specs.Readings.{GivesSpelled, RefusesUnspelled, RefusalsHaveCauses, FaultsLieInFile, FaultsAreOfBytes, FaultsStay};
ghost use Rattle.module_laws.specs.Cuts.{EachPlace, RefusesCuts, CutsAreModules, CutsAreCounted};

/// Two modules with one spelling are one.
pub fn a_file_spells_one_module()
    ensures one { SpellsOne SpellsModule }
{}

/// A file within the limit spells a module, unless it has no header, or somewhere behind its header and its sections what
/// is no section, or functions without bodies.
pub fn files_without_a_module_have_a_cause()
    ensures cause { SpellsUnlessCause SpellsModule }
{}

/// A module with a custom section more, behind its header or behind any section, is the same module.
pub fn custom_sections_change_nothing()
    ensures same { IgnoresCustom SpellsModule }
{}

/// A file is read as the module that it spells, and is refused exactly where it spells none.
pub fn reading_is_exact()
    ensures gives { GivesSpelled module_read }
    ensures refuses { RefusesUnspelled module_read }

    // Without a header the fault is one of the header; without bodies it is Count at the end.
    ensures causes { RefusalsHaveCauses module_read }
{}

/// The first fault of a file lies in the file or at its end, but for a section's size that leads past the file.
pub fn faults_lie_in_their_file()
    ensures place { FaultsLieInFile module_read }

    // It is a fault of the bytes: want of memory is none.
    ensures of_bytes { FaultsAreOfBytes module_read }
{}

/// A fault of a section whose stated end lies in the file doesn't change with what stands behind that end.
pub fn faults_stay_with_their_section()
    ensures stay { FaultsStay module_read }
{}

/// A module that is cut is told from a whole one, but for cuts between sections.
pub fn cut_modules_are_told()
    // Each place of a module lies inside its header or a section, or behind one.
    ensures each { EachPlace SpellsModule }

    // Cut inside, it is refused.
    ensures inside { RefusesCuts module_read }

    // Cut behind, it is a module of its own where each function that is left has a body, and else it has the fault
    // Count at its end.
    ensures behind { CutsAreModules module_read }
    ensures counted { CutsAreCounted module_read }
{}
