//! What holds of the rows of structs, whoever makes them.
ghost use Rattle.exchangeable_types.specs.Laws.{OneStructRows, OneTypes};

/// An interface part stands for one list of struct rows at most.
pub fn one_struct_rows()
    ensures { OneStructRows }
{}

/// An interface part stands for one value of [`Types`](crate::check::Types) at most.
pub fn one_types()
    ensures { OneTypes }
{}
