//! Laws of modules as their binary format spells them (WebAssembly Core 1.0, section 5.5), and of reading them: each is the
//! contract of a function with an empty body, and holds of every file.
#![tactic(auto)]

mod laws;
mod wrong;

pub use laws::{
    a_file_spells_one_module, custom_sections_change_nothing, cut_modules_are_told,
    faults_lie_in_their_file, faults_stay_with_their_section, files_without_a_module_have_a_cause,
    reading_is_exact,
};
pub use wrong::{wrong_grammars_are_refused, wrong_readings_are_refused};
