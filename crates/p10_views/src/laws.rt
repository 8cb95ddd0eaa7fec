//! The laws: each function does nothing, and its contract is the law.

ghost use Rattle.p10_views.specs.Laws.{ViewsDecide};
ghost use Rattle.p10_views.specs.SmallViews.{ViewsCompared};

/// Functions of one view, with the same claims and evidence, have failing conditions both or neither.
pub fn views_decide()
    ensures { ViewsDecide }
{}

/// The views of small functions.
pub fn views_compared()
    ensures { ViewsCompared }
{}
