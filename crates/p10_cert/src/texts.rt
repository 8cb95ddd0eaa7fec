//! The texts of what is claimed of one function.

ghost use Rattle.std.specs.Prelude.{◌≤◌, [], ◌∷◌, map, OnErr, OnOk};
ghost use Rattle.std.specs.Io.KnownBytes.{Appends};
ghost use Rattle.p10_world.specs.Faults.{Rose};
ghost use Rattle.p10_world.specs.Sink.{TakesFront};
ghost use Rattle.p10_cert.specs.Claims.{func_of, loop_of, value_of};
ghost use Rattle.p10_cert.specs.Certificate.{func_head, loop_head};
ghost use Rattle.p10_cert.specs.Lines.{FuncLine, LoopLine, ResultLine, VarLine, text_of};

use crate::claims::{FuncClaim, LoopClaim, Rank, ValueClaim, VarRange};
use crate::pieces::Piece;
use crate::var_ranges::VarRanges;
use crate::writing::{Text, put_all};
use p10_world::{Sink, SinkFault};

// A function: its lines.
impl Text for FuncClaim {
    ghost use Rattle.p10_cert.specs.Claims.{func_of};
    ghost use Rattle.p10_cert.specs.Certificate.{func_text};

    ghost text = { λ f. func_text (func_of f) };

    fn put<O: Sink>(&self, out: &mut O) -> Result<(), SinkFault> {
        put_head(out, self)?;
        put_all(out, self.params.as_slice())?;
        put_result(out, &self.result)?;
        put_all(out, self.loops.as_slice())
    }
}

// A loop: its lines.
impl Text for LoopClaim {
    ghost use Rattle.p10_cert.specs.Claims.{loop_of};
    ghost use Rattle.p10_cert.specs.Certificate.{loop_lines};
    ghost use Rattle.p10_cert.specs.Lines.{text_of};

    ghost text = { λ l. text_of (loop_lines (loop_of l)) };

    fn put<O: Sink>(&self, out: &mut O) -> Result<(), SinkFault> {
        put_start(out, self)?;
        put_vars(out, &self.inv)
    }
}

// A parameter: its line.
impl Text for ValueClaim {
    ghost use Rattle.std.specs.Prelude.{[], ◌∷◌};
    ghost use Rattle.p10_cert.specs.Claims.{value_of};
    ghost use Rattle.p10_cert.specs.Lines.{ParamLine, text_of};

    ghost text = { λ v. text_of (ParamLine (value_of v) ∷ []) };

    fn put<O: Sink>(&self, out: &mut O) -> Result<(), SinkFault> {
        match self {
            ValueClaim::Ints(range) => put_all(
                out,
                &[
                    Piece::Bytes(b"param "),
                    Piece::Signed(&range.lo),
                    Piece::Bytes(b" "),
                    Piece::Signed(&range.hi),
                    Piece::Bytes(b"\n"),
                ],
            ),
            ValueClaim::Pointer => out.put(b"param *\n"),
            ValueClaim::Void => out.put(b"param void\n"),
        }
    }
}

// A variable: its line.
impl Text for VarRange {
    ghost use Rattle.std.specs.Prelude.{[], ◌∷◌};
    ghost use Rattle.p10_cert.specs.Claims.{var_of};
    ghost use Rattle.p10_cert.specs.Lines.{VarLine, text_of};

    ghost text = { λ v. text_of (VarLine (var_of v) ∷ []) };

    fn put<O: Sink>(&self, out: &mut O) -> Result<(), SinkFault> {
        put_all(
            out,
            &[
                Piece::Bytes(b"var "),
                Piece::Index(self.var),
                Piece::Bytes(b" "),
                Piece::Signed(&self.range.lo),
                Piece::Bytes(b" "),
                Piece::Signed(&self.range.hi),
                Piece::Bytes(b"\n"),
            ],
        )
    }
}

/// Writes the first line of a function.
pub(crate) fn put_head<O: Sink>(out: &mut O, func: &FuncClaim) -> Result<(), SinkFault>
    ensures ok { OnOk result (Appends (O.taken out.old) (O.taken out.new) (text_of (FuncLine (func_head (func_of func.now)) ∷ []))) }
    ensures front { OnErr result (TakesFront (O.taken out.old) (O.taken out.new) (text_of (FuncLine (func_head (func_of func.now)) ∷ []))) }
    ensures failed { OnErr result (Rose (O.faults out.old) (O.faults out.new)) }
    ensures count { O.faults out.old ≤ O.faults out.new }
{
    put_all(
        out,
        &[
            Piece::Bytes(b"func "),
            Piece::Name(&func.name),
            Piece::Bytes(b" rank "),
            Piece::Index(func.rank),
            Piece::Bytes(b" steps "),
            Piece::Number(func.steps),
            Piece::Bytes(b" calls "),
            Piece::Number(func.calls),
            Piece::Bytes(b" bytes "),
            Piece::Number(func.bytes),
            Piece::Bytes(b" alloc "),
            Piece::Flag(func.alloc),
            Piece::Bytes(b"\n"),
        ],
    )
}

/// Writes the line of a result.
pub(crate) fn put_result<O: Sink>(out: &mut O, value: &ValueClaim) -> Result<(), SinkFault>
    ensures ok { OnOk result (Appends (O.taken out.old) (O.taken out.new) (text_of (ResultLine (value_of value.now) ∷ []))) }
    ensures front { OnErr result (TakesFront (O.taken out.old) (O.taken out.new) (text_of (ResultLine (value_of value.now) ∷ []))) }
    ensures failed { OnErr result (Rose (O.faults out.old) (O.faults out.new)) }
    ensures count { O.faults out.old ≤ O.faults out.new }
{
    match value {
        ValueClaim::Ints(range) => put_all(
            out,
            &[
                Piece::Bytes(b"result "),
                Piece::Signed(&range.lo),
                Piece::Bytes(b" "),
                Piece::Signed(&range.hi),
                Piece::Bytes(b"\n"),
            ],
        ),
        ValueClaim::Pointer => out.put(b"result *\n"),
        ValueClaim::Void => out.put(b"result void\n"),
    }
}

/// Writes the lines of variables.
fn put_vars<O: Sink>(out: &mut O, ranges: &VarRanges) -> Result<(), SinkFault>
    ensures ok { OnOk result (Appends (O.taken out.old) (O.taken out.new) (text_of (map VarLine ranges.now))) }
    ensures front { OnErr result (TakesFront (O.taken out.old) (O.taken out.new) (text_of (map VarLine ranges.now))) }
    ensures failed { OnErr result (Rose (O.faults out.old) (O.faults out.new)) }
    ensures count { O.faults out.old ≤ O.faults out.new }
{
    let mut left = ranges.reader();
    while let Some(line) = left.next() {
        line.put(out)?;
    }
    Ok(())
}

/// Writes the first line of a loop.
fn put_start<O: Sink>(out: &mut O, claim: &LoopClaim) -> Result<(), SinkFault>
    ensures ok { OnOk result (Appends (O.taken out.old) (O.taken out.new) (text_of (LoopLine (loop_head (loop_of claim.now)) ∷ []))) }
    ensures front { OnErr result (TakesFront (O.taken out.old) (O.taken out.new) (text_of (LoopLine (loop_head (loop_of claim.now)) ∷ []))) }
    ensures failed { OnErr result (Rose (O.faults out.old) (O.faults out.new)) }
    ensures count { O.faults out.old ≤ O.faults out.new }
{
    match &claim.rank {
        Rank::Up { var, bound } => put_all(
            out,
            &[
                Piece::Bytes(b"loop "),
                Piece::Index(claim.depth),
                Piece::Bytes(b" up "),
                Piece::Index(*var),
                Piece::Bytes(b" "),
                Piece::Signed(bound),
                Piece::Bytes(b" turns "),
                Piece::Number(claim.turns),
                Piece::Bytes(b"\n"),
            ],
        ),
        Rank::Down { var, bound } => put_all(
            out,
            &[
                Piece::Bytes(b"loop "),
                Piece::Index(claim.depth),
                Piece::Bytes(b" down "),
                Piece::Index(*var),
                Piece::Bytes(b" "),
                Piece::Signed(bound),
                Piece::Bytes(b" turns "),
                Piece::Number(claim.turns),
                Piece::Bytes(b"\n"),
            ],
        ),
        Rank::One => put_all(
            out,
            &[
                Piece::Bytes(b"loop "),
                Piece::Index(claim.depth),
                Piece::Bytes(b" one turns "),
                Piece::Number(claim.turns),
                Piece::Bytes(b"\n"),
            ],
        ),
        Rank::Task => put_all(
            out,
            &[
                Piece::Bytes(b"task steps "),
                Piece::Number(claim.turns),
                Piece::Bytes(b"\n"),
            ],
        ),
    }
}
