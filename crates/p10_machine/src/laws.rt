//! What holds of machines. Nothing runs here: the function stands for the law that its contract states.

ghost use Rattle.p10_machine.specs.Rooms.{TurnsStayBounded};

/// A run needs no more slots and callers than the greatest depth of its calls tells: so room that is made for the bounds of a certificate
/// is enough, as long as calls stay within them.
pub fn turns_stay_bounded()
    ensures { TurnsStayBounded }
{}
