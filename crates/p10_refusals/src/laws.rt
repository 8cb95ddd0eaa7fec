//! The laws; the functions do nothing but call other laws.

ghost use Rattle.p10_refusals.specs.Bodies.{DefinitionsAreTold};
ghost use Rattle.p10_refusals.specs.Forms.{DeclaratorsAreTold, FormRowsOfDeclarationsAreTold, LengthsOfDeclarationsAreTold};
ghost use Rattle.p10_refusals.specs.InBodies.{PartsOfBodiesAreTold};
ghost use Rattle.p10_refusals.specs.InRoots.{DeclarationsAreTold};
ghost use Rattle.p10_refusals.specs.Inside.{PartsOfDeclarationsAreTold};
ghost use Rattle.p10_refusals.specs.Laws.{TheFirstOfAllIsTold};
ghost use Rattle.p10_refusals.specs.MisplacedBodies.{MisplacedBodiesAreTold};
ghost use Rattle.p10_refusals.specs.NameForms.{NameFormsAreTold};
ghost use Rattle.p10_refusals.specs.Redeclarations.{RedeclarationsAreTold};
ghost use Rattle.p10_refusals.specs.RepeatedLabels.{RepeatedLabelsAreTold};
ghost use Rattle.p10_refusals.specs.Sizes.{SizesAreTold};
ghost use Rattle.p10_refusals.specs.Switches.{LabelsOfSwitchesAreThoseWritten};

use p10_elab::laws::nameless_parameters_are_told;
use p10_elabd::laws::{form_rows_are_told, lengths_are_told};

/// Where every row that holds anywhere is kept, the first of them is the one that is answered.
pub fn the_first_of_all_is_told()
    ensures { TheFirstOfAllIsTold }
{}

/// What is told of a declarator is told of its declaration, whatever else is refused there: so is each row on its form, and each of its
/// lengths that isn't a constant of at least 1, unless a part of it is refused.
pub fn declarators_are_told()
    ensures all { DeclaratorsAreTold }
    ensures forms { FormRowsOfDeclarationsAreTold }
    ensures lengths { LengthsOfDeclarationsAreTold }
{
    lengths_are_told();
    form_rows_are_told();
}

/// Rows on the form of members, of parameters and of their lists, their lengths that aren't constants of at least 1, and rows of constants of
/// enumerations are told of the declaration in which they stand, whatever else is refused there.
pub fn parts_of_declarations_are_told()
    ensures { PartsOfDeclarationsAreTold }
{
    lengths_are_told();
    form_rows_are_told();
}

/// What is told of the declarator of a function with a body is told of the whole function: rows on its form, its lengths, and those of
/// its parameters and of members in its specifiers. And each of its parameters without a name is told.
pub fn definitions_are_told()
    ensures { DefinitionsAreTold }
{
    lengths_are_told();
    form_rows_are_told();
    nameless_parameters_are_told();
}

/// A declarator in which no parameters stand is told where a body stands after it, whatever else is refused there; and where parameters
/// stand in one that declares no function, a row on its form is.
pub fn misplaced_bodies_are_told()
    ensures { MisplacedBodiesAreTold }
{
    lengths_are_told();
    form_rows_are_told();
}

/// An object outside of functions that has no size is told at its name: at its declaration where it has an initialiser or is `static`, and
/// at each of its tentative definitions where it has none at the end of its root, whatever else is declared by that name.
pub fn sizes_are_told()
    ensures { SizesAreTold }
{
    form_rows_are_told();
}

/// A typedef of a function or of an array without a length is told at its name, and in a block a prototype and an array without a length
/// and an initialiser are, whatever is refused in their types.
pub fn name_forms_are_told()
    ensures { NameFormsAreTold }
{
    form_rows_are_told();
}

/// A declaration of a function that doesn't agree with the one before it is told at its name, also where a part of one of them is refused:
/// so is each whose list of parameters doesn't go with that of the other by its form, in one root or in two.
pub fn redeclarations_are_told()
    ensures { RedeclarationsAreTold }
{
    form_rows_are_told();
}

/// What is told of a part of a body, of a declaration in a block or in the first clause of a `for` as of an expression or a label, is told of
/// each statement round it, of the function, and of all roots.
pub fn parts_of_bodies_are_told()
    ensures { PartsOfBodiesAreTold }
{
    form_rows_are_told();
}

/// What is told of a declaration or a function outside of functions is told of all roots, whatever stands beside it.
pub fn declarations_are_told()
    ensures { DeclarationsAreTold }
{
    form_rows_are_told();
}

/// The labels of each `switch` are those that stand before the items of its block in the tree, with the places of these items; the value of
/// each `case` is that of its own constant in the scope where that stands.
pub fn labels_of_switches_are_those_written()
    ensures { LabelsOfSwitchesAreThoseWritten }
{}

/// A second `default` of a `switch` is told at its place, and so is a `case` whose value a label before it has.
pub fn repeated_labels_are_told()
    ensures { RepeatedLabelsAreTold }
{}
