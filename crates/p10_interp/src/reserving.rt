//! Room that is made before a run.

ghost use Rattle.std.specs.Prelude.{◌≡◌};

use crate::calls::Calls;
use crate::engine::Engine;
use p10_store::Store;
use std::alloc::AllocError;

impl<'p> Engine<'p> {
    ghost use Rattle.p10_interp.specs.private.Reserving.{StaysButRoom};

    /// Makes room for `calls` further calls, whose frames have `bytes` bytes, and each of which has at most `room` on a stack at once.
    /// Each variable, object and cell of a frame has a byte at least.
    pub fn reserve(&mut self, calls: u64, bytes: u64, room: u64) -> Result<(), AllocError>
        ensures { StaysButRoom self.old self.new }
    {
        let all = calls.saturating_mul(room);
        self.stacks.tasks.reserve(all)?;
        self.stacks.operands.reserve(all)?;
        reserve_calls(&mut self.stacks.calls, calls, bytes, all)?;
        reserve_objects(&mut self.outside.store, bytes)
    }
}

/// Makes room for `count` calls, whose frames have `bytes` bytes, with `blocks` blocks.
fn reserve_calls(
    calls: &mut Calls<'_>,
    count: u64,
    bytes: u64,
    blocks: u64,
) -> Result<(), AllocError>
    ensures bases { calls.new.bases.items ≡ calls.old.bases.items }
    ensures held { calls.new.held.items ≡ calls.old.held.items }
    ensures marks { calls.new.marks.items ≡ calls.old.marks.items }
{
    calls.bases.reserve(count as usize)?;
    calls.held.reserve(bytes as usize)?;
    calls.marks.reserve(bytes.saturating_add(blocks) as usize)
}

/// Makes room for objects that have `bytes` bytes.
fn reserve_objects(store: &mut Store, bytes: u64) -> Result<(), AllocError>
    ensures objects { store.new.objects ≡ store.old.objects }
    ensures opened { store.new.opened ≡ store.old.opened }
{
    store.reserve(bytes, bytes)
}
