//! What a pass over statements knows of variables: each range is one of values of its variable's type.
//!
//! Nothing runs here. `p10_pass` says what is known after statements; the functions of [`laws`] stand for what holds of it. So of
//! `unsigned char c` no range below 0 or above 255 is ever known, nor one without a number, whatever is assigned to it, and what
//! `return c;` gives is such a range too.
//! The definitions in `specs/` say what is asked of environments and of claims (`specs/Typing.antt`), and which laws hold.
#![tactic(auto)]

pub mod laws;
