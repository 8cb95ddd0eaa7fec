//! What no command can show of verifying again after an edit: that the functions which the edit can't have touched aren't passed beside
//! those that are counted.

ghost use Rattle.p10_core.specs.Views.{plain_program};
ghost use Rattle.p10_core.specs.WholePrograms.{IsWholeProgram};
ghost use Rattle.std.specs.Prelude.{IsSomeAnd};
ghost use Rattle.p10_expand.specs.Gathering.{HaveWords};
ghost use Rattle.p10_diff.specs.Evidence.{stands_by_differences};
ghost use Rattle.p10_diff_evidence.specs.Reading.{ranks_in};

use p10_absx::Env;
use p10_base::{Bounds, ListBuf, Sources, TextBuf};
use p10_cert::{Cert2, LoopClaim, read2};
use p10_check::{Evidence, TextVerdict};
use p10_command::{GatheredRoots, ReadSources, gather_roots, read_sources};
use p10_core::Program;
use p10_diff_evidence::DiffEvidence;
use p10_front::{Reading, digests};
use p10_incr::{PlainPasser, recheck};
use p10_world::MemFiles;
use std::alloc::{AllocError, Global};
use std::process::Abort;
use std::test::Fail;

/// Each turn of the search halves the range from `lo` to `hi`.
const SEARCH: &str = "#include <assert.h>
static int find(int lo, int hi) {
    assert(lo >= 0);
    assert(hi <= 100);
    while (lo < hi) {
        int mid = lo + (hi - lo) / 2;
        if (mid > 40) { hi = mid; } else { lo = mid + 1; }
    }
    return lo;
}
int main(void) { return find(0, 99); }
";

/// The certificate that is derived with differences where `main` is `return find(0, 100);`.
const BEFORE: &str = "p10cert 2
func find rank 0 steps 1915 calls 1 bytes 12 alloc 0
digest 7fa2a6d7fea7c2e76f3ae43c4f2eca7de5401ec0b3026ba5108685025f6aa029
param -2147483648 2147483647
param -2147483648 2147483647
result -2147483648 2147483647
loop 0 one turns 100
func main rank 1 steps 1920 calls 2 bytes 12 alloc 0
digest f977250016dd0c992db693de8c5d5fd4bc1b45392a95c41c5c6fbe1152167e07
result -2147483648 2147483647
outside 9d8c3a140d139997785c5a18436bf25ed63096df6b35bf3b6492c6a43e5fceb4
total prefix 1920 turn 0 calls 2 bytes 12
section diff 1
rank 0 0 0 1 0
end
";

/// That of the search: only the digest of `main` is another.
const AFTER: &str = "p10cert 2
func find rank 0 steps 1915 calls 1 bytes 12 alloc 0
digest 7fa2a6d7fea7c2e76f3ae43c4f2eca7de5401ec0b3026ba5108685025f6aa029
param -2147483648 2147483647
param -2147483648 2147483647
result -2147483648 2147483647
loop 0 one turns 100
func main rank 1 steps 1920 calls 2 bytes 12 alloc 0
digest 6cb8c95a42d8849dac7e1909c2a3a7131d7c2c56e6a78fe2fefdc73e30a13cdc
result -2147483648 2147483647
outside 9d8c3a140d139997785c5a18436bf25ed63096df6b35bf3b6492c6a43e5fceb4
total prefix 1920 turn 0 calls 2 bytes 12
section diff 1
rank 0 0 0 1 0
end
";

/// The evidence of differences, which is out of memory whenever it is asked about the first function.
#[derive(Drop)]
struct AllButFirst(DiffEvidence);

impl Evidence for AllButFirst {
    ghost standing = { λ evidence. stands_by_differences (ranks_in evidence.0) };

    fn stands(
        &self,
        alloc: Global,
        p: &Program<'_>,
        f: u32,
        at: u32,
        entry: &Env,
        claim: &LoopClaim,
    ) -> Result<bool, AllocError> {
        if f == 0 {
            return Err(AllocError);
        }
        self.0.stands(alloc, p, f, at, entry, claim)
    }
}

/// The evidence that a certificate's first section gives, but about the first function.
fn evidence_of(alloc: Global, certificate: &Cert2) -> Result<AllButFirst, Fail> {
    match certificate.sections.as_slice() {
        [section, ..] => Ok(AllButFirst(DiffEvidence::new(alloc, section.lines.as_slice())?)),
        [] => Err(AllocError)?,
    }
}

/// Rechecks the search after the edit of `main`: whoever passes `find` again asks for its loop, whose K9 doesn't hold by ranges.
fn recheck_search(rt: &impl Abort, alloc: Global, reading: &Reading<'_>) -> Result<(), Fail>
    requires { IsSomeAnd reading.now.program (λ p. IsWholeProgram (plain_program p)) }
{
    let found = digests(alloc, reading)?;
    let old = read2(alloc, BEFORE.as_bytes())?;
    let new = read2(alloc, AFTER.as_bytes())?;
    let evidence = evidence_of(alloc, &new)?;
    let mut passer = PlainPasser::new(alloc);
    let verdict = match &reading.program {
        Some(program) => recheck(alloc, program, &found, &old, &new, &evidence, &mut passer)?,
        None => unreachable!(),
    };
    let bounds = Bounds {
        prefix: 1920,
        turn: 0,
        calls: 2,
        bytes: 12,
    };
    assert_eq!(rt; verdict, TextVerdict::Accepted(bounds));
    assert_eq!(rt; passer.count(), 1);
    Ok(())
}

/// The same of gathered sources.
fn recheck_sources(rt: &impl Abort, alloc: Global, sources: &Sources) -> Result<(), Fail>
    requires { HaveWords sources.now }
{
    match read_sources(alloc, sources)? {
        ReadSources::Program(reading) => recheck_search(rt, alloc, &reading),
        ReadSources::Unread(_) => Err(AllocError)?,
    }
}

#[test]
fn recheck_asks_only_dirty(rt: HostRuntime) -> Result<(), Fail> {
    let alloc = rt.alloc();
    let mut files = MemFiles::new(alloc, Vec::new(alloc));
    files.add(
        String::from_str(alloc, "bs.c")?,
        Vec::from_slice(alloc, SEARCH.as_bytes())?,
    )?;
    let mut roots = ListBuf::of(Vec::new(alloc));
    roots.push(TextBuf::of(String::from_str(alloc, "bs.c")?))?;
    match gather_roots(alloc, &mut files, roots.as_slice(), &[])? {
        GatheredRoots::All(sources) => recheck_sources(&rt, alloc, &sources),
        GatheredRoots::Stopped(..) => Err(AllocError)?,
    }
}
