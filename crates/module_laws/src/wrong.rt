//! Grammars and readings that are wrong in one thing, each with the law that it breaks.
ghost use Rattle.module_laws.specs.Grammars.{SpellsOne, SpellsUnlessCause, IgnoresCustom};
ghost use Rattle.module_laws.specs.Readings.{GivesSpelled, RefusesUnspelled, RefusalsHaveCauses, FaultsLieInFile, FaultsAreOfBytes, FaultsStay};
ghost use Rattle.module_laws.specs.Cuts.{RefusesCuts, CutsAreModules, CutsAreCounted};
ghost use Rattle.module_laws.specs.Wrong as wrong;

/// A wrong grammar breaks a law of grammars.
pub fn wrong_grammars_are_refused()
    ensures more_behind { SpellsOne wrong.SpellsFront → ⊥ }
    ensures unmarked { IgnoresCustom wrong.SpellsUnmarked → ⊥ }
    ensures unmarked_cause { SpellsUnlessCause wrong.SpellsUnmarked → ⊥ }
{}

/// A wrong reading breaks a law of readings.
pub fn wrong_readings_are_refused()
    ensures header_alone { GivesSpelled wrong.header_alone → ⊥ }
    ensures never_refused { RefusesUnspelled wrong.never_refused → ⊥ }
    ensures no_count { RefusalsHaveCauses wrong.no_count → ⊥ }
    ensures past_the_end { FaultsLieInFile wrong.past_the_end → ⊥ }
    ensures never_read { FaultsAreOfBytes wrong.never_read → ⊥ }
    ensures at_the_end { FaultsStay wrong.at_the_end → ⊥ }
    ensures cut_accepted { RefusesCuts wrong.header_alone → ⊥ }
    ensures cut_refused { CutsAreModules wrong.never_read → ⊥ }
    ensures uncounted { CutsAreCounted wrong.uncounted → ⊥ }
{}
