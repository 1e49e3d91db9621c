// Whole texts of configurations.
use machine_config::{Config, ConfigFault, PredictorKind, Protocol, fits, read};
use rsim_base::Model;
use std::alloc::{AllocError, Global};
use std::test::Fail;

// What every key has where no line names it.
const DEFAULTS: Config = Config {
    processors: 1,
    mesh_width: 1,
    model: Model::Sc,
    speculate: true,
    store_prefetch: true,
    protocol: Protocol::Mesi,
    line: 64,
    l1_sets: 64,
    l1_ways: 2,
    l2_sets: 256,
    l2_ways: 4,
    miss_registers: 8,
    active_list: 64,
    rename_registers: 128,
    fetch_width: 4,
    fetch_queue: 8,
    retire_width: 4,
    store_buffer: 8,
    ports: 2,
    alu_units: 2,
    alu_latency: 1,
    mul_units: 1,
    mul_latency: 4,
    div_units: 1,
    div_latency: 20,
    predictor: PredictorKind::TwoBit,
    predictor_size: 512,
    return_stack: 8,
    l1_latency: 1,
    l2_latency: 6,
    home_latency: 20,
    flit_bytes: 8,
    router_depth: 4,
};

// Every key on a line of its own, with another value than its default.
const ALL_NAMED: &[u8] =
    b"processors 16\nmesh_width 4\nmodel rc\nspeculate off\nstore_prefetch off\nprotocol msi\n\
line 16\nl1_sets 1\nl1_ways 8\nl2_sets 4096\nl2_ways 16\nmiss_registers 16\nactive_list 4\nrename_registers 512\n\
fetch_width 8\nfetch_queue 32\nretire_width 1\nstore_buffer 32\nports 4\nalu_units 8\nalu_latency 8\nmul_units 4\n\
mul_latency 32\ndiv_units 4\ndiv_latency 64\npredictor static\npredictor_size 16\nreturn_stack 32\nl1_latency 8\n\
l2_latency 64\nhome_latency 200\nflit_bytes 4\nrouter_depth 16";

const NAMED: Config = Config {
    processors: 16,
    mesh_width: 4,
    model: Model::Rc,
    speculate: false,
    store_prefetch: false,
    protocol: Protocol::Msi,
    line: 16,
    l1_sets: 1,
    l1_ways: 8,
    l2_sets: 4096,
    l2_ways: 16,
    miss_registers: 16,
    active_list: 4,
    rename_registers: 512,
    fetch_width: 8,
    fetch_queue: 32,
    retire_width: 1,
    store_buffer: 32,
    ports: 4,
    alu_units: 8,
    alu_latency: 8,
    mul_units: 4,
    mul_latency: 32,
    div_units: 4,
    div_latency: 64,
    predictor: PredictorKind::Static,
    predictor_size: 16,
    return_stack: 32,
    l1_latency: 8,
    l2_latency: 64,
    home_latency: 200,
    flit_bytes: 4,
    router_depth: 16,
};

// Each key that takes a number, with its lowest and its highest, and whether it asks for a power of two.
#[rattlefmt::skip]
const RANGES: [(&str, u32, u32, bool); 28] = [
    ("processors", 1, 16, false),
    ("mesh_width", 1, 16, false),
    ("line", 16, 128, true),
    ("l1_sets", 1, 1024, true),
    ("l1_ways", 1, 8, false),
    ("l2_sets", 1, 4096, true),
    ("l2_ways", 1, 16, false),
    ("miss_registers", 1, 16, false),
    ("active_list", 4, 128, false),
    ("rename_registers", 8, 512, false),
    ("fetch_width", 1, 8, false),
    ("fetch_queue", 1, 32, false),
    ("retire_width", 1, 8, false),
    ("store_buffer", 1, 32, false),
    ("ports", 1, 4, false),
    ("alu_units", 1, 8, false),
    ("alu_latency", 1, 8, false),
    ("mul_units", 1, 4, false),
    ("mul_latency", 1, 32, false),
    ("div_units", 1, 4, false),
    ("div_latency", 1, 64, false),
    ("predictor_size", 16, 4096, true),
    ("return_stack", 1, 32, false),
    ("l1_latency", 1, 8, false),
    ("l2_latency", 1, 64, false),
    ("home_latency", 1, 200, false),
    ("flit_bytes", 4, 16, true),
    ("router_depth", 1, 16, false),
];

// What is wrong with a text of at most 65,536 bytes, if anything is.
fn fault_of(alloc: Global, text: &[u8]) -> Option<ConfigFault> {
    if text.len() > 65536 {
        return None;
    }
    read(alloc, text).err()
}

// What is wrong with the key's having this number, among 16 processors where the key is another.
fn fault_at(alloc: Global, key: &str, number: u32) -> Result<Option<ConfigFault>, AllocError> {
    let rest = if key == "processors" {
        ""
    } else {
        "processors 16"
    };
    let text = format!(in alloc; "{key} {number}\n{rest}")?;
    Ok(fault_of(alloc, text.as_bytes()))
}

#[test]
fn a_text_that_says_nothing_gives_the_defaults(rt: HostRuntime) -> Result<(), Fail> {
    assert!(rt; read(rt.alloc(), b"")? == DEFAULTS);
    assert!(rt; read(rt.alloc(), b"# processors 2\n \t\r\n#\n   # model rc\n")? == DEFAULTS);
    assert!(rt; read(rt.alloc(), &[b'#'; 65536])? == DEFAULTS);
    Ok(())
}

#[test]
fn every_key_is_read(rt: HostRuntime) -> Result<(), Fail> {
    assert!(rt; ALL_NAMED.len() < 65536);
    assert!(rt; read(rt.alloc(), ALL_NAMED)? == NAMED);
    let spaced =
        b" \tprocessors\t 0002 \r\n\r\n\tmodel  pc#rc\r\n  speculate\ton\t\r#\nline 128 # bytes";
    let want = Config {
        processors: 2,
        model: Model::Pc,
        line: 128,
        ..DEFAULTS
    };
    assert!(rt; read(rt.alloc(), spaced)? == want);
    Ok(())
}

#[test]
fn numbers_stay_in_their_ranges(rt: HostRuntime) -> Result<(), Fail> {
    for &(key, low, high, is_power) in &RANGES {
        let outside = Some(ConfigFault::OutOfRange(1, low, high));
        assert!(rt; fault_at(rt.alloc(), key, low)? == None, "{key} {low}");
        assert!(rt; fault_at(rt.alloc(), key, high)? == None, "{key} {high}");
        assert!(rt;
            fault_at(rt.alloc(), key, low.wrapping_sub(1))? == outside,
            "below {key} {low}"
        );
        assert!(rt;
            fault_at(rt.alloc(), key, high.wrapping_add(1))? == outside,
            "above {key} {high}"
        );
        if is_power {
            let below = fault_at(rt.alloc(), key, high.wrapping_sub(1))?;
            assert!(rt;
                below == Some(ConfigFault::NotPower(1)),
                "below {key} {high}"
            );
        }
    }
    Ok(())
}

#[test]
fn the_first_fault_is_told(rt: HostRuntime) {
    let cases: [(&str, ConfigFault); 27] = [
        ("line\0", ConfigFault::NotText(4)),
        ("model\0 sc", ConfigFault::NotText(5)),
        ("colour red\nmodel\x7F", ConfigFault::NotText(16)),
        ("é", ConfigFault::NotText(0)),
        ("colour red", ConfigFault::UnknownName(1)),
        ("Line 64", ConfigFault::UnknownName(1)),
        ("line64", ConfigFault::UnknownName(1)),
        ("flit_bytes 4\nflit_bytes 8", ConfigFault::Repeated(2)),
        ("flit_bytes 4\nflit_bytes x", ConfigFault::Repeated(2)),
        ("processors", ConfigFault::BadNumber(1)),
        ("processors 1 2", ConfigFault::BadNumber(1)),
        ("processors +1", ConfigFault::BadNumber(1)),
        ("processors 00000000001", ConfigFault::BadNumber(1)),
        ("l1_sets 99999999999", ConfigFault::BadNumber(1)),
        ("l1_sets 9999999999", ConfigFault::OutOfRange(1, 1, 1024)),
        ("l1_sets 4294967297", ConfigFault::OutOfRange(1, 1, 1024)),
        ("model SC", ConfigFault::BadWord(1)),
        ("model", ConfigFault::BadWord(1)),
        ("model sc pc", ConfigFault::BadWord(1)),
        ("retire_width 9", ConfigFault::OutOfRange(1, 1, 8)),
        ("line 256", ConfigFault::OutOfRange(1, 16, 128)),
        ("line 24", ConfigFault::NotPower(1)),
        ("processors 6\nmesh_width 4", ConfigFault::MeshShape),
        ("mesh_width 2", ConfigFault::MeshShape),
        ("mesh_width 2\nline 24", ConfigFault::NotPower(2)),
        ("colour red\n\nline 24", ConfigFault::UnknownName(1)),
        ("line 24\n\ncolour red", ConfigFault::NotPower(1)),
    ];
    for &(text, fault) in &cases {
        assert!(rt;
            fault_of(rt.alloc(), text.as_bytes()) == Some(fault),
            "{text:?}"
        );
    }
}

#[test]
fn faults_are_written_with_their_numbers(rt: HostRuntime) -> Result<(), Fail> {
    let cases = [
        (ConfigFault::NotText(5), "NotText 5"),
        (ConfigFault::UnknownName(1), "UnknownName 1"),
        (ConfigFault::Repeated(2), "Repeated 2"),
        (ConfigFault::BadNumber(10), "BadNumber 10"),
        (ConfigFault::BadWord(3), "BadWord 3"),
        (ConfigFault::OutOfRange(1, 1, 8), "OutOfRange 1 1 8"),
        (ConfigFault::NotPower(4), "NotPower 4"),
        (ConfigFault::MeshShape, "MeshShape"),
        (ConfigFault::Memory, "no memory"),
    ];
    for &(fault, text) in &cases {
        let written = fault.to_string(rt.alloc())?;
        assert!(rt; written.as_str() == text);
    }
    Ok(())
}

#[test]
fn a_run_is_short_enough_up_to_the_limit(rt: HostRuntime) {
    assert!(rt; fits(&DEFAULTS, 2_000_000));
    assert!(rt; !fits(&DEFAULTS, 2_000_001));
    assert!(rt; fits(&NAMED, 500_000));
    assert!(rt; !fits(&NAMED, 500_001));
    assert!(rt; !fits(&NAMED, u32::MAX));
    assert!(rt; fits(&NAMED, 0));
}
