//! By what calls and loops count.

use p10_cert::{Cert, LoopClaim, ValueClaim};
use p10_core::Variable;

/// By what calls, inner loops and returns count in a function: by the claims of a certificate, or in a trial pass by none.
#[derive(Clone, Copy)]
pub struct Manner<'a, 's> {
    /// The certificate whose claims calls have. Without one a call has any value of its type.
    pub calls: Option<&'a Cert>,
    /// The claims of the function's loops. Without them a loop gives each variable that it assigns any value of its type.
    pub loops: Option<&'a [LoopClaim]>,
    /// The claim of the function's result, if there is one.
    pub result: Option<ValueClaim>,
    /// The function's variables.
    pub variables: &'a [Variable<'s>],
}
