// The settings of a machine.
ghost use Rattle.std.specs.Prelude.{◌≡◌, ◌<◌, map};
ghost use Rattle.machine_config.specs.Keys.{keys, place_of_model, place_of_protocol, place_of_predictor, place_of_switch};
ghost use Rattle.machine_config.specs.Allowed.{is_short};
ghost use Rattle.machine_config.specs.Reading.{AreAllowed};

use crate::keys::KEY_COUNT;
use rsim_base::{MAX_STEPS, Model};

/// A directory protocol: with the states modified, shared and invalid, or exclusive beside them.
#[derive(Clone, Copy, Debug, PartialEq, Eq)]
pub enum Protocol {
    Msi,
    Mesi,
}

/// A branch predictor: by the instruction alone, or by two-bit counters.
#[derive(Clone, Copy, Debug, PartialEq, Eq)]
pub enum PredictorKind {
    Static,
    TwoBit,
}

/// The settings of a machine: one field for each key of a configuration, with the ranges that `read` keeps.
#[derive(Clone, Copy, Debug, PartialEq, Eq)]
pub struct Config {
    /// The nodes of the machine, 1 to 16: each is a processor with its caches, and the home of a share of memory.
    pub processors: u32,
    /// The columns of the mesh that joins the nodes, 1 to 16. It divides `processors`.
    pub mesh_width: u32,
    /// The consistency model.
    pub model: Model,
    /// Whether loads bind their values before the model orders them, and are rolled back where that shows.
    pub speculate: bool,
    /// Whether a line is asked for to own as soon as a store to it is known.
    pub store_prefetch: bool,
    /// The directory protocol.
    pub protocol: Protocol,
    /// Bytes of a cache line: a power of two from 16 to 128.
    pub line: u32,
    /// Sets of a first-level cache: a power of two from 1 to 1,024.
    pub l1_sets: u32,
    /// Lines in each of these sets, 1 to 8.
    pub l1_ways: u32,
    /// Sets of a second-level cache: a power of two from 1 to 4,096.
    pub l2_sets: u32,
    /// Lines in each of these sets, 1 to 16.
    pub l2_ways: u32,
    /// Misses that a node may have open at once, 1 to 16, and slots for lines that are written back.
    pub miss_registers: u32,
    /// Instructions that a core may have in flight, 4 to 128.
    pub active_list: u32,
    /// Physical registers beyond the architectural ones, 8 to 512.
    pub rename_registers: u32,
    /// Instructions that are fetched, and that are dispatched, a cycle, 1 to 8.
    pub fetch_width: u32,
    /// Fetched instructions that may wait for dispatch, 1 to 32.
    pub fetch_queue: u32,
    /// Instructions that are retired a cycle, 1 to 8.
    pub retire_width: u32,
    /// Retired stores that may wait to be performed, 1 to 32.
    pub store_buffer: u32,
    /// Loads that are bound a cycle, 1 to 4.
    pub ports: u32,
    /// Units for all that is neither multiplied nor divided, addresses too, 1 to 8.
    pub alu_units: u32,
    /// Cycles from the issue to one of these units to the result, 1 to 8.
    pub alu_latency: u32,
    /// Units for multiplications, 1 to 4.
    pub mul_units: u32,
    /// Cycles from the issue of a multiplication to its result, 1 to 32.
    pub mul_latency: u32,
    /// Units for divisions, 1 to 4.
    pub div_units: u32,
    /// Cycles from the issue of a division to its result, 1 to 64.
    pub div_latency: u32,
    /// How branches are predicted.
    pub predictor: PredictorKind,
    /// Counters of a two-bit predictor: a power of two from 16 to 4,096.
    pub predictor_size: u32,
    /// Return addresses that are kept for the prediction of returns, 1 to 32.
    pub return_stack: u32,
    /// Cycles from a load's binding to its result, 1 to 8.
    pub l1_latency: u32,
    /// Ticks to bring a line near from the second level, 1 to 64.
    pub l2_latency: u32,
    /// Ticks that a home takes to answer, 1 to 200.
    pub home_latency: u32,
    /// Bytes of a flit, the unit in which messages cross the mesh: 4, 8 or 16.
    pub flit_bytes: u32,
    /// Flits that a port of a router holds for each class of messages, 1 to 16.
    pub router_depth: u32,
}

/// Whether a run of so many cycles is short enough: all processors together retire at most `MAX_STEPS`
/// instructions in them.
pub fn fits(config: &Config, cycles: u32) -> bool
    ensures { result ≡ is_short config.now cycles }
{
    u128::from(cycles) * u128::from(config.processors) * u128::from(config.retire_width)
        <= u128::from(MAX_STEPS)
}

impl Config {
    // The configuration with these numbers, in the order of the table of keys.
    pub(crate) fn from_numbers(numbers: &[u32; KEY_COUNT]) -> Config
        requires { AreAllowed keys numbers.now }
        ensures { map (λ key. key.of result) keys ≡ numbers.now }
    {
        let [
            processors,
            mesh_width,
            model,
            speculate,
            store_prefetch,
            protocol,
            line,
            l1_sets,
            l1_ways,
            l2_sets,
            l2_ways,
            miss_registers,
            active_list,
            rename_registers,
            fetch_width,
            fetch_queue,
            retire_width,
            store_buffer,
            ports,
            alu_units,
            alu_latency,
            mul_units,
            mul_latency,
            div_units,
            div_latency,
            predictor,
            predictor_size,
            return_stack,
            l1_latency,
            l2_latency,
            home_latency,
            flit_bytes,
            router_depth,
        ] = *numbers;
        Config {
            processors,
            mesh_width,
            model: model_at(model),
            speculate: switch_at(speculate),
            store_prefetch: switch_at(store_prefetch),
            protocol: protocol_at(protocol),
            line,
            l1_sets,
            l1_ways,
            l2_sets,
            l2_ways,
            miss_registers,
            active_list,
            rename_registers,
            fetch_width,
            fetch_queue,
            retire_width,
            store_buffer,
            ports,
            alu_units,
            alu_latency,
            mul_units,
            mul_latency,
            div_units,
            div_latency,
            predictor: predictor_at(predictor),
            predictor_size,
            return_stack,
            l1_latency,
            l2_latency,
            home_latency,
            flit_bytes,
            router_depth,
        }
    }
}

// The model whose word stands at this place.
fn model_at(place: u32) -> Model
    requires { place < 3 }
    ensures { place_of_model result ≡ place }
{
    match place {
        0 => Model::Sc,
        1 => Model::Pc,
        _ => Model::Rc,
    }
}

// Whether the word at this place is `on`.
fn switch_at(place: u32) -> bool
    requires { place < 2 }
    ensures { place_of_switch result ≡ place }
{
    place == 0
}

fn protocol_at(place: u32) -> Protocol
    requires { place < 2 }
    ensures { place_of_protocol result ≡ place }
{
    match place {
        0 => Protocol::Msi,
        _ => Protocol::Mesi,
    }
}

fn predictor_at(place: u32) -> PredictorKind
    requires { place < 2 }
    ensures { place_of_predictor result ≡ place }
{
    match place {
        0 => PredictorKind::Static,
        _ => PredictorKind::TwoBit,
    }
}
