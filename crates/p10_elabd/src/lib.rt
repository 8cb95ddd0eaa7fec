//! What declarations declare: specifiers and declarators to types, tags, members, constants of enumerations, initialisers (C99 6.7).
//!
//! Definitions with laws: `specified` and `declarator_passed` (`specs/Declaring.antt`) say which type is declared and what stands after
//! it, `initialized` (`specs/Initializers.antt`) what an initialiser writes. Each notes the rows of the subset that hold on the way, all
//! of them or the first alone (`specs/Standing.antt`).
//! In code: [`Standing`], what stands round a declaration; [`specified`], the type of specifiers with what they declare on the way;
//! [`declarator_passed`], what a declarator makes of it; [`initialized`], the typed initialiser of an object; [`expression_value`], an
//! expression where a declaration or a statement stands. Each notes the first row of the subset that holds, and goes on after it.
//! In the scope of `int n;` the declaration `struct s { int a; int a; } x[n];` notes S26 at the second `a`, and not S21 at `n`, which
//! comes later.
//! Linkage, storage and what declarations become in blocks are left to `p10_elab`.
#![tactic(auto)]

mod addresses;
mod arrays;
mod bases;
mod blocks;
mod constants;
mod declaration;
mod enumerations;
mod expressions;
mod first_scalar;
mod functions;
mod initializers;
mod items;
mod known_tag;
pub mod laws;
mod lifetime;
mod members;
mod named_members;
mod parameters;
mod pointers;
mod shapes;
mod site;
mod slots;
mod specifiers;
mod standing;
mod static_values;
mod strings;
mod structures;
mod surplus;
mod tagged;
mod tags;
mod target;
mod walk;
mod words;

pub use bases::{based, based_on, none_allowed};
pub use constants::{enumerator_meaning, int_value, value_after};
pub use declaration::{
    Declared, DeclaredFunction, DeclaredParameter, ParameterList, PlacedParameter, RefusedFunction,
};
pub use expressions::{constant_value, declare_tags, expression_value, noted};
pub use functions::{parameter_declared, result_declared};
pub use initializers::initialized;
pub use known_tag::KnownTag;
pub use lifetime::Lifetime;
pub use pointers::{element_declared, pointer_declared};
pub use shapes::{
    declares_function, declares_open_array, has_parameters, is_plain_name, name_in, place_or,
};
pub use site::{Allowed, Site, Storage};
pub use standing::Standing;
pub use static_values::{constant_number, static_value};
pub use strings::elements_given;
pub use surplus::surplus_item;
pub use walk::{declarator_passed, specified};
pub use words::{is_storage, is_volatile, storage_of, word_row};
