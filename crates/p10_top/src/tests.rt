//! What no command can show, over files, an input and outputs in memory: each read of files and of the input and each byte of a
//! write fails in turn, memory is out, and the reads are counted. All else that the program answers is shown by the cases in `tests/`.

ghost use Rattle.std.specs.Prelude.{None};

use super::p10_main;
use p10_world::{FileFault, Files, MemFiles, MemSink, MemSource};
use std::alloc::Global;
use std::process::Abort;
use std::test::Fail;

mod rechecking;

const VERIFY: [&str; 4] = ["verify", "--cert", "a.p10", "a.c"];

const CLEAN: [&str; 5] = ["verify", "--clean", "--cert", "a.p10", "a.c"];

const CHECK: [&str; 2] = ["check", "a.c"];

const DERIVE: [&str; 2] = ["derive", "a.c"];

const SEAL: [&str; 4] = ["derive", "--cert-version", "2", "a.c"];

const MIGRATE: [&str; 4] = ["migrate", "--cert", "a.p10", "a.c"];

const RECHECK: [&str; 6] = ["recheck", "--since", "a.p10", "--cert", "a.p10", "a.c"];

const TWICE: [&str; 5] = ["verify", "--cert", "a.p10", "a.c", "a.c"];

/// `int main(void) { return 0; }` takes three steps: one each for the entry, the statement and the
/// constant.
const SOURCE: &str = "int main(void) { return 0; }\n";

/// The certificate that claims exactly these.
const CERTIFICATE: &str = "p10cert 1
func main rank 0 steps 3 calls 1 bytes 0 alloc 0
result 0 0
total prefix 3 turn 0 calls 1 bytes 0
end
";

/// The same in version 2, with the digests that `sha256sum` gives of the source's words.
const SEALED: &str = "p10cert 2
func main rank 0 steps 3 calls 1 bytes 0 alloc 0
digest 3f286a42be5f9e8b5f04e92fb52e39594fca283a250b992f40092282dfc7dee8
result 0 0
outside 0af5df4c563f5a002c32e11302487c0f96763d43172a99783c3cb2cfa2d7527d
total prefix 3 turn 0 calls 1 bytes 0
end
";

const USAGE: &str =
    "p10: usage: p10 (check|derive|verify|run|gen|migrate|recheck) [options] FILE..\n";

const ACCEPTED: &str = "accepted: prefix 3 turn 0 calls 1 bytes 0\n";

const RECHECKED: &str = "accepted: prefix 3 turn 0 calls 1 bytes 0\npassed 0 of 1\n";

const UNASSERTED: &str = "a.c:1:5: rule 5.1: fewer than two assertions per function\n";

const ACCEPTED_CLEAN: &str = "accepted clean: prefix 3 turn 0 calls 1 bytes 0\n";

const UNCLEAN: &str = "refused: C2 a.c:1:25\n";

const TOO_FEW_STEPS: &str = "refused: K11 a.c:1:5\n";

const NO_END: &str = "a.c:1:30: refused X2: comment without end\n";

const NOT_FOUND: &str = "a.c:1:10: refused D5: include not found\n";

const DEFINED_TWICE: &str = "a.c:1:5: refused S26: defined twice or declared differently\n";

const READ_FAULT: &str = "p10: read fault\n";

const OUT_OF_MEMORY: &str = "p10: out of memory\n";

const NESTED: &str = "p10: limit M3\n";

const ABSENT_SOURCE: &str = "p10: absent: a.c\n";

const ABSENT_CLAIM: &str = "p10: absent: a.p10\n";

/// The texts of `a.c` and `a.p10`, where these are there.
type Held = (Option<&'static str>, Option<&'static str>);

const BOTH: Held = (Some(SOURCE), Some(CERTIFICATE));

const BOTH_SEALED: Held = (Some(SOURCE), Some(SEALED));

const NEITHER: Held = (None, None);

const CLAIM_ALONE: Held = (None, Some(CERTIFICATE));

const ONE_MORE: Held = (
    Some("int main(void) { int x; return 0; }\n"),
    Some(CERTIFICATE),
);

/// It takes five steps, and no state reaches its return.
const QUOTIENT: Held = (
    Some("int main(void) { return 1 / 0; }\n"),
    Some(
        "p10cert 1
func main rank 0 steps 5 calls 1 bytes 0 alloc 0
result 0 0
total prefix 5 turn 0 calls 1 bytes 0
end
",
    ),
);

const OPEN: Held = (Some("int main(void) { return 0; } /*"), None);

const WORD: Held = (Some("int"), None);

const ITSELF: Held = (Some("#include \"a.c\"\n"), Some(""));

const INCLUDES: Held = (Some("#include \"no.h\"\n"), Some(""));

const INCLUDES_ALONE: Held = (Some("#include \"no.h\"\n"), None);

const INCLUDES_AGAIN: Held = (
    Some("#include \"no.h\"\n#include \"a.c\"\n#include \"no.h\"\n"),
    Some(""),
);

/// The words of a command, the files, the numbers of the reads that fail, how many reads there are, the status, and the text,
/// which stands on the output with the statuses 0 and 1, and else on the error output.
type Row = (
    &'static [&'static str],
    Held,
    &'static [u64],
    u64,
    u8,
    &'static str,
);

static ROWS: [Row; 37] = [
    (&["verify", "a.c"], BOTH, &[], 0, 2, USAGE),
    (&VERIFY, BOTH, &[3], 2, 0, ACCEPTED),
    (&VERIFY, ONE_MORE, &[], 2, 1, TOO_FEW_STEPS),
    // That it has to be clean asks for no other file.
    (&CLEAN, BOTH, &[3], 2, 0, ACCEPTED_CLEAN),
    (&CLEAN, QUOTIENT, &[3], 2, 1, UNCLEAN),
    (&CLEAN, ONE_MORE, &[3], 2, 1, TOO_FEW_STEPS),
    // What the source's words come to is reported before the certificate is asked for.
    (&VERIFY, OPEN, &[2], 1, 3, NO_END),
    // The second read asks for `no.h`.
    (&VERIFY, INCLUDES, &[], 3, 3, NOT_FOUND),
    (&VERIFY, INCLUDES_ALONE, &[], 3, 9, ABSENT_CLAIM),
    // A source that is named or included again isn't read again, nor is an absent name asked for again.
    (&TWICE, BOTH, &[3], 2, 3, DEFINED_TWICE),
    (&VERIFY, ITSELF, &[3], 2, 8, NESTED),
    (&VERIFY, INCLUDES_AGAIN, &[4], 3, 3, NOT_FOUND),
    // An absent source is the last file that is asked for.
    (&VERIFY, CLAIM_ALONE, &[2], 1, 9, ABSENT_SOURCE),
    (&VERIFY, BOTH, &[1], 1, 5, READ_FAULT),
    (&VERIFY, BOTH, &[2], 2, 5, READ_FAULT),
    (&VERIFY, NEITHER, &[1], 1, 5, READ_FAULT),
    (&VERIFY, WORD, &[2], 2, 5, READ_FAULT),
    (&VERIFY, INCLUDES, &[2], 2, 5, READ_FAULT),
    (&VERIFY, INCLUDES, &[3], 3, 5, READ_FAULT),
    // A report asks for no certificate.
    (&CHECK, BOTH, &[2], 1, 1, UNASSERTED),
    (&CHECK, BOTH, &[1], 1, 5, READ_FAULT),
    (&CHECK, NEITHER, &[], 1, 9, ABSENT_SOURCE),
    // Nor does a derivation, which finds the same.
    (&DERIVE, BOTH, &[2], 1, 0, CERTIFICATE),
    (&DERIVE, BOTH, &[1], 1, 5, READ_FAULT),
    (&DERIVE, NEITHER, &[], 1, 9, ABSENT_SOURCE),
    (&SEAL, BOTH, &[2], 1, 0, SEALED),
    // A migration asks for its certificate after the sources.
    (&MIGRATE, BOTH, &[3], 2, 0, SEALED),
    (&MIGRATE, BOTH, &[1], 1, 5, READ_FAULT),
    (&MIGRATE, BOTH, &[2], 2, 5, READ_FAULT),
    (&MIGRATE, CLAIM_ALONE, &[2], 1, 9, ABSENT_SOURCE),
    (&MIGRATE, INCLUDES_ALONE, &[], 3, 9, ABSENT_CLAIM),
    // A verdict after an edit asks for both certificates, the new one first.
    (&RECHECK, BOTH_SEALED, &[4], 3, 0, RECHECKED),
    (&RECHECK, BOTH_SEALED, &[1], 1, 5, READ_FAULT),
    (&RECHECK, BOTH_SEALED, &[2], 2, 5, READ_FAULT),
    (&RECHECK, BOTH_SEALED, &[3], 3, 5, READ_FAULT),
    (&RECHECK, CLAIM_ALONE, &[2], 1, 9, ABSENT_SOURCE),
    (&RECHECK, INCLUDES_ALONE, &[4], 3, 9, ABSENT_CLAIM),
];

const RECORDED: [&str; 6] = ["run", "--sensors", "v.txt", "--cert", "a.p10", "a.c"];

const ABSENT_VALUES: &str = "p10: absent: v.txt\n";

const REFUSED_VALUES: &str = "p10: sensor file refused at line 1\n";

/// The file of sensor values is read after that of the certificate, and its lines are looked at last.
static RECORDS: [Row; 7] = [
    (&RECORDED, BOTH, &[], 3, 9, ABSENT_VALUES),
    (&RECORDED, BOTH, &[2], 2, 5, READ_FAULT),
    (&RECORDED, BOTH, &[3], 3, 5, READ_FAULT),
    (&RECORDED, NEITHER, &[2], 1, 9, ABSENT_SOURCE),
    (
        &["run", "--sensors", "a.p10", "a.c"],
        BOTH,
        &[3],
        2,
        13,
        REFUSED_VALUES,
    ),
    // The same file may be both.
    (
        &["run", "--sensors=a.p10", "--cert=a.p10", "a.c"],
        BOTH,
        &[4],
        3,
        13,
        REFUSED_VALUES,
    ),
    (
        &["run", "--sensors", "a.c", "a.c"],
        INCLUDES_ALONE,
        &[4],
        3,
        3,
        NOT_FOUND,
    ),
];

/// The status and both texts of a run, and after how many bytes the outputs fail.
#[derive(Clone, Copy)]
struct Want {
    status: u8,
    out: &'static str,
    err: &'static str,
    out_fails: Option<u64>,
    err_fails: Option<u64>,
}

/// What a row expects of outputs that don't fail.
fn wanted(row: &Row) -> Want {
    let (status, text) = (row.4, row.5);
    let (out, err) = if status < 2 { (text, "") } else { ("", text) };
    Want {
        status,
        out,
        err,
        out_fails: None,
        err_fails: None,
    }
}

/// What is expected where both outputs fail after `count` bytes.
fn cut(want: Want, count: usize) -> Want {
    Want {
        status: 6,
        out: want.out.get(..count).unwrap_or(want.out),
        err: want.err.get(..count).unwrap_or(want.err),
        out_fails: Some(count as u64),
        err_fails: Some(count as u64),
    }
}

/// Runs the program on the words, compares all that it answers, and gives how often it asked for input.
fn check<F: Files>(
    rt: &impl Abort,
    alloc: Global,
    words: &[&str],
    files: &mut F,
    mut input: MemSource,
    want: &Want,
) -> Result<u64, Fail> {
    let mut given = Vec::new(alloc);
    for word in words {
        given.push(String::from_str(alloc, word)?)?;
    }
    let mut out = MemSink::new(alloc, 400, want.out_fails)?;
    let mut err = MemSink::new(alloc, 400, want.err_fails)?;
    let status = p10_main(alloc, &given, files, &mut input, &mut out, &mut err);
    assert_eq!(rt; status, want.status, "{}{}", want.out, want.err);
    assert_eq!(rt; out.taken(), want.out.as_bytes(), "{}", want.out);
    assert_eq!(rt; err.taken(), want.err.as_bytes(), "{}", want.err);
    Ok(input.calls())
}

/// The same for a command that takes nothing of the input.
fn check_without_input<F: Files>(
    rt: &impl Abort,
    alloc: Global,
    words: &[&str],
    files: &mut F,
    want: &Want,
) -> Result<(), Fail> {
    let input = MemSource::new(Vec::from_slice(alloc, b"input")?, Vec::new(alloc));
    let asked = check(rt, alloc, words, files, input, want)?;
    assert_eq!(rt; asked, 0);
    Ok(())
}

/// Runs a row over its files, and counts the reads.
fn check_row(rt: &impl Abort, alloc: Global, row: &Row, want: &Want) -> Result<(), Fail> {
    let mut files = MemFiles::new(alloc, Vec::from_slice(alloc, row.2)?);
    for (name, text) in [("a.c", row.1.0), ("a.p10", row.1.1)] {
        if let Some(text) = text {
            files.add(
                String::from_str(alloc, name)?,
                Vec::from_slice(alloc, text.as_bytes())?,
            )?;
        }
    }
    check_without_input(rt, alloc, row.0, &mut files, want)?;
    assert_eq!(rt; files.calls(), row.3, "{}{}", want.out, want.err);
    Ok(())
}

#[test]
fn files_and_faults_of_reads(rt: HostRuntime) -> Result<(), Fail> {
    for row in &ROWS {
        check_row(&rt, rt.alloc(), row, &wanted(row))?;
    }
    Ok(())
}

#[test]
fn files_of_sensor_values(rt: HostRuntime) -> Result<(), Fail> {
    for row in &RECORDS {
        check_row(&rt, rt.alloc(), row, &wanted(row))?;
        check_row(&rt, rt.alloc(), row, &cut(wanted(row), 9))?;
    }
    Ok(())
}

// Each row says something on one output alone. The outputs fail after each count of bytes in turn.
#[test]
fn faults_of_writes(rt: HostRuntime) -> Result<(), Fail> {
    for row in &ROWS {
        for count in 0..row.5.len() {
            check_row(&rt, rt.alloc(), row, &cut(wanted(row), count))?;
        }
        let mut want = wanted(row);
        want.out_fails = Some(want.out.len() as u64);
        want.err_fails = Some(want.err.len() as u64);
        check_row(&rt, rt.alloc(), row, &want)?;
    }
    Ok(())
}

/// Files for which memory is out at every read.
#[derive(Drop)]
struct NoMemory;

impl Files for NoMemory {
    ghost held = { λ _. None };

    ghost faults = { λ _. 0 };

    fn read(
        &mut self,
        _alloc: Global,
        _name: &str,
        _limit: u64,
        _into: &mut Vec<u8>,
    ) -> Result<(), FileFault> {
        Err(FileFault::Memory)
    }
}

#[test]
fn want_of_memory(rt: HostRuntime) -> Result<(), Fail> {
    let row: Row = (&VERIFY, NEITHER, &[], 0, 7, OUT_OF_MEMORY);
    check_without_input(&rt, rt.alloc(), row.0, &mut NoMemory, &wanted(&row))
}

const RUN: [&str; 4] = ["run", "--steps", "1000", "a.c"];

/// Writes its input.
const ECHO: &str =
    "#include <stdio.h>\nint main(void) { int c = getchar(); while (c >= 0) { (void)putchar(c); c = getchar(); } return 7; }\n";

/// Writes a byte, and then divides by the next one less 48.
const DIVIDES: &str =
    "#include <stdio.h>\nint main(void) { (void)putchar(getchar()); return 9 / (getchar() - 48); }\n";

/// A program, its input, the numbers of the calls for input that fail, how many calls there are, the status, the output, and the
/// text on the error output.
type Run = (
    &'static str,
    &'static [u8],
    &'static [u64],
    u64,
    u8,
    &'static str,
    &'static str,
);

const ECHOED: &str = "p10: returned 7 calls 1 bytes 4\n";

const DIVIDED: &str = "p10: returned 3 calls 1 bytes 0\n";

const BY_ZERO: &str = "p10: undefined U2 at a.c:2:51\n";

const SPINS: &str = "int main(void) { while (1) { } return 0; }\n";

const SPENT: &str = "p10: steps spent\n";

static RUNS: [Run; 7] = [
    (ECHO, b"ab", &[], 2, 0, "ab", ECHOED),
    (ECHO, b"ab", &[3], 2, 0, "ab", ECHOED),
    (ECHO, b"ab", &[1], 1, 5, "", READ_FAULT),
    // What waits isn't written where the input fails.
    (ECHO, b"ab", &[2], 2, 5, "", READ_FAULT),
    (DIVIDES, b"a3", &[], 1, 0, "a", DIVIDED),
    (DIVIDES, b"a0", &[], 1, 11, "a", BY_ZERO),
    (SPINS, b"", &[], 0, 12, "", SPENT),
];

/// Runs the program of a row on its input, and counts the calls for it.
fn check_run(rt: &impl Abort, alloc: Global, row: &Run, want: &Want) -> Result<u64, Fail> {
    let mut files = MemFiles::new(alloc, Vec::new(alloc));
    files.add(
        String::from_str(alloc, "a.c")?,
        Vec::from_slice(alloc, row.0.as_bytes())?,
    )?;
    let input = MemSource::new(
        Vec::from_slice(alloc, row.1)?,
        Vec::from_slice(alloc, row.2)?,
    );
    check(rt, alloc, &RUN, &mut files, input, want)
}

/// What a run expects, where the outputs fail after these counts of bytes.
fn wanted_of_run(row: &Run, out_fails: Option<u64>, err_fails: Option<u64>) -> Want {
    Want {
        status: row.4,
        out: row.5,
        err: row.6,
        out_fails,
        err_fails,
    }
}

#[test]
fn faults_of_input(rt: HostRuntime) -> Result<(), Fail> {
    for row in &RUNS {
        let asked = check_run(&rt, rt.alloc(), row, &wanted_of_run(row, None, None))?;
        assert_eq!(rt; asked, row.3);
    }
    Ok(())
}

// What the program writes is written before the line that reports how it has ended, so where the output fails nothing is reported.
#[test]
fn faults_of_output(rt: HostRuntime) -> Result<(), Fail> {
    for row in &RUNS {
        for count in 0..row.5.len() {
            let mut want = wanted_of_run(row, Some(count as u64), None);
            want.status = 6;
            want.out = row.5.get(..count).unwrap_or(row.5);
            want.err = "";
            check_run(&rt, rt.alloc(), row, &want)?;
        }
        for count in 0..row.6.len() {
            let mut want = wanted_of_run(row, None, Some(count as u64));
            want.status = 6;
            want.err = row.6.get(..count).unwrap_or(row.6);
            check_run(&rt, rt.alloc(), row, &want)?;
        }
    }
    Ok(())
}
