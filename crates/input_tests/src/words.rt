// Whole command lines.
use command_words::{BadWords, CheckWords, Executable, RunWords, WordsFault, read_check, read_run};
use std::alloc::{AllocError, Global};
use std::test::Fail;

// The words between the blanks of a line.
fn words_of(alloc: Global, line: &str) -> Result<Vec<String>, AllocError> {
    let mut words = Vec::new(alloc);
    for word in line.split(' ') {
        words.push(String::from_str(alloc, word)?)?;
    }
    Ok(words)
}

// Words of `rsim`, and the executable, the configuration, the cycles and the order that they ask for.
const RUNS: [(&str, Executable<'static>, &str, u32, &str); 15] = [
    ("e c 9 o", Executable::File("e"), "c", 9, "o"),
    ("--generate 7 c 9 o", Executable::Generated(7), "c", 9, "o"),
    ("c --generate=7 9 o", Executable::Generated(7), "c", 9, "o"),
    ("c 9 o --generate 7", Executable::Generated(7), "c", 9, "o"),
    // `--` ends the options, and a second one is a name.
    (
        "--generate 7 -- c 9 o",
        Executable::Generated(7),
        "c",
        9,
        "o",
    ),
    ("e c 9 -- -x", Executable::File("e"), "c", 9, "-x"),
    (
        "-- -- --generate 9 --generate=7",
        Executable::File("--"),
        "--generate",
        9,
        "--generate=7",
    ),
    ("e c 9 o --", Executable::File("e"), "c", 9, "o"),
    (
        "-- c 9 9 --generate",
        Executable::File("c"),
        "9",
        9,
        "--generate",
    ),
    // A hyphen alone and the empty word are names.
    ("- - 9 -", Executable::File("-"), "-", 9, "-"),
    ("  9 ", Executable::File(""), "", 9, ""),
    ("--generate 0 c 9 o", Executable::Generated(0), "c", 9, "o"),
    (
        "--generate 4294967295 c 9 o",
        Executable::Generated(4_294_967_295),
        "c",
        9,
        "o",
    ),
    ("e c 1 o", Executable::File("e"), "c", 1, "o"),
    ("e c 8000000 o", Executable::File("e"), "c", 8_000_000, "o"),
];

// Words of `rsim`, and their first fault.
const RUN_FAULTS: [(&str, WordsFault); 31] = [
    // The option has no value, or stands twice.
    ("c 9 o --generate", WordsFault::Shape),
    ("c 9 --generate -- o", WordsFault::Shape),
    ("c 9 o --generate -x", WordsFault::Shape),
    ("c 9 o --generate -5", WordsFault::Shape),
    ("c 9 o --generate --generate=7", WordsFault::Shape),
    ("--generate 7 --generate 7 c 9 o", WordsFault::Shape),
    ("--generate=7 --generate 7 c 9 o", WordsFault::Shape),
    ("--generate 7 --generate=7 c 9 o", WordsFault::Shape),
    ("--generate=7 --generate=7 c 9 o", WordsFault::Shape),
    // Other options.
    ("e c 9 o ---", WordsFault::Shape),
    ("e c 9 -x", WordsFault::Shape),
    ("e c 9 -5", WordsFault::Shape),
    ("e c 9 -é", WordsFault::Shape),
    ("e c 9 o --help", WordsFault::Shape),
    ("e c 9 o --version", WordsFault::Shape),
    ("e c 9 o -h", WordsFault::Shape),
    ("e c 9 o --generat=7", WordsFault::Shape),
    // Too few names, and too many.
    ("e c 9", WordsFault::Shape),
    ("e c 9 o x", WordsFault::Shape),
    ("--generate 7 c 9", WordsFault::Shape),
    ("--generate 7 e c 9 o", WordsFault::Shape),
    // Seeds.
    ("--generate 4294967296 c 9 o", WordsFault::Seed),
    ("--generate 00000000007 c 9 o", WordsFault::Seed),
    ("--generate +5 c 9 o", WordsFault::Seed),
    ("--generate - c 9 o", WordsFault::Seed),
    ("--generate= c 9 o", WordsFault::Seed),
    ("--generate=-5 c 9 o", WordsFault::Seed),
    // Cycles.
    ("e c 0 o", WordsFault::Cycles),
    ("e c 8000001 o", WordsFault::Cycles),
    // The shape is looked at first, then the seed, then the cycles.
    ("--generate x c 0", WordsFault::Shape),
    ("--generate x c 0 o", WordsFault::Seed),
];

// Words of `rsimcheck`, and the executable and the order that they ask for.
const CHECKS: [(&str, Executable<'static>, &str); 4] = [
    ("e o", Executable::File("e"), "o"),
    ("--generate 7 o", Executable::Generated(7), "o"),
    ("o --generate=7", Executable::Generated(7), "o"),
    ("--generate 7 -- -o", Executable::Generated(7), "-o"),
];

// Words of `rsimcheck`, and their first fault.
const CHECK_FAULTS: [(&str, WordsFault); 4] = [
    ("o", WordsFault::Shape),
    ("e o x", WordsFault::Shape),
    ("--generate 7 e o", WordsFault::Shape),
    ("--generate 4294967296 o", WordsFault::Seed),
];

#[test]
fn runs_are_read(rt: HostRuntime) -> Result<(), Fail> {
    for &(line, executable, config, cycles, order) in &RUNS {
        let words = words_of(rt.alloc(), line)?;
        let read = read_run(rt.alloc(), words.as_slice());
        let expected = RunWords {
            executable,
            config,
            cycles,
            order,
        };
        assert!(rt; read == Ok(expected), "{line}");
    }
    for &(line, fault) in &RUN_FAULTS {
        let words = words_of(rt.alloc(), line)?;
        let read = read_run(rt.alloc(), words.as_slice());
        assert!(rt; read == Err(BadWords::Fault(fault)), "{line}");
    }
    Ok(())
}

#[test]
fn checks_are_read(rt: HostRuntime) -> Result<(), Fail> {
    for &(line, executable, order) in &CHECKS {
        let words = words_of(rt.alloc(), line)?;
        let read = read_check(rt.alloc(), words.as_slice());
        assert!(rt; read == Ok(CheckWords { executable, order }), "{line}");
    }
    for &(line, fault) in &CHECK_FAULTS {
        let words = words_of(rt.alloc(), line)?;
        let read = read_check(rt.alloc(), words.as_slice());
        assert!(rt; read == Err(BadWords::Fault(fault)), "{line}");
    }
    Ok(())
}
