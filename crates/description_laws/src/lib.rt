//! Laws of descriptions: what every accepted one is, which check a refusal names, and what changes nothing.
#![tactic(auto)]

ghost use Rattle.std.specs.Prelude.{◌≡◌, ◌≤◌, ℕ, false, List, [], length, Some, Ok, Err};
ghost use Rattle.toml.specs.Data.{Data, Members, member};
ghost use Rattle.document_specs.specs.Checks.{each};
ghost use Rattle.document_specs.specs.Documents.{document};
ghost use Rattle.unit_specs.specs.Description.{Description};
ghost use Rattle.description_specs.specs.declared.variable.ClockVariable.{ClockVariable};
ghost use Rattle.description_specs.specs.declared.variable.BinaryVariable.{BinaryVariable};
ghost use Rattle.description_specs.specs.Variables.{Refusal};
ghost use Rattle.description_specs.specs.Clocks.{clock_of};
ghost use Rattle.description_specs.specs.Binaries.{binary_of};
ghost use Rattle.description_specs.specs.Terminals.{terminal_of};
ghost use Rattle.description_specs.specs.Descriptions.{description_of, most_bytes};
ghost use Rattle.description_laws.specs.Fit.{HoldsTogether, AreDifferent, references_of};
ghost use Rattle.description_laws.specs.Ranges.{IsInRange};
ghost use Rattle.description_laws.specs.Order.{IsFirstRefusal};
ghost use Rattle.description_laws.specs.Keys.{TellTheSame, is_read};

/// The clocks of an accepted description have value references of their own, those that count down are inputs,
/// and there are at most 8 of these. Its binaries have references of their own, also apart from the clocks, and
/// the clock of each is there, is triggered, and is an input or an output as the binary is. Its terminals name an
/// input and an output of these binaries with their clocks and lengths, and no variable stands in two of them.
pub fn an_accepted_description_holds_together()
    ensures { (bytes : List ℕ) (d : Description) → description_of bytes ≡ Ok d → HoldsTogether d }
{}

/// The value references that an accepted description keeps, of its countdown clocks and of the four variables of
/// each terminal, are all different.
pub fn its_references_are_all_different()
    ensures { (bytes : List ℕ) (d : Description) → description_of bytes ≡ Ok d → AreDifferent (references_of d) }
{}

/// An accepted description has at most 8 countdown clocks and 1 to 4 terminals, its identifier and the names of its
/// terminals have 1 to 64 letters, digits and underscores, its references are numbers of 32 bits, and its binaries'
/// greatest lengths are 256 to 65,536 bytes.
pub fn its_numbers_lie_in_their_ranges()
    ensures { (bytes : List ℕ) (d : Description) → description_of bytes ≡ Ok d → IsInRange d }
{}

/// Within the limit, two documents in which the same stands at each key that is read are the same description, or are
/// refused alike: keys that aren't read, at the top, in a table or in a row, change nothing.
pub fn unknown_keys_change_nothing()
    ensures { (one other : List ℕ) (t u : Members) → length one ≤ most_bytes → length other ≤ most_bytes
        → document one ≡ Some t → document other ≡ Some u → TellTheSame t u → description_of one ≡ description_of other }
{}

/// A document with one more key at its top that isn't read tells the same.
pub fn one_more_key_tells_the_same()
    ensures { (key : List ℕ) (d : Data) (t : Members) → is_read key ≡ false → TellTheSame (member key d t) t }
{}

/// A refusal among the rows of clocks is that of the first row that isn't a clock, at its position.
pub fn a_refused_clock_is_the_first()
    ensures { (rows : List Members) (e : Refusal) → each clock_of [] rows ≡ Err e → IsFirstRefusal clock_of rows e }
{}

/// A refusal among the rows of binaries is that of the first row that isn't a binary, at its position.
pub fn a_refused_binary_is_the_first()
    ensures { (clocks : List ClockVariable) (rows : List Members) (e : Refusal) → each (binary_of clocks) [] rows ≡ Err e
        → IsFirstRefusal (binary_of clocks) rows e }
{}

/// A refusal among the rows of terminals is that of the first row that isn't a terminal, at its position.
pub fn a_refused_terminal_is_the_first()
    ensures { (binaries : List BinaryVariable) (rows : List Members) (e : Refusal) → each (terminal_of binaries) [] rows ≡ Err e
        → IsFirstRefusal (terminal_of binaries) rows e }
{}
