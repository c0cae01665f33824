//! What holds of the names that a report prints.
ghost use Rattle.std.specs.Prelude.{◌≡◌};
ghost use Rattle.network_specs.specs.declared.field.NetworkField.{NetworkField};
ghost use Rattle.network_specs.specs.Names.{name_of as network_name};
ghost use Rattle.description_specs.specs.declared.field.Field.{Field};
ghost use Rattle.description_specs.specs.Names.{name_of as description_name};
ghost use Rattle.refusal_names.specs.Fields.{why_of_network, why_of_description};
ghost use Rattle.bench_top.specs.Report.{why_text};

/// What is printed of a field of a network file or of a description is the field's name.
pub fn a_field_is_printed_by_its_name()
    ensures network { (f : NetworkField) → why_text (why_of_network f) ≡ network_name f }
    ensures description { (f : Field) → why_text (why_of_description f) ≡ description_name f }
{}
