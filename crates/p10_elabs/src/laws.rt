//! What holds of the items of a body and of labels: each law is the contract of a function without a body.

ghost use Rattle.p10_elabs.specs.Laws.{ItemsAreThoseWritten, LabelsAreThoseWritten};

/// The pragmas of `main` are placed among the items of the source, each of which counts by its form: a declaration of types is one too.
pub fn items_are_those_written()
    ensures { ItemsAreThoseWritten }
{}

/// The labels of an item of a `switch` are those that stand before it in the tree, in their order.
pub fn labels_are_those_written()
    ensures { LabelsAreThoseWritten }
{}
