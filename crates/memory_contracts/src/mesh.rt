// The mesh that joins the nodes.
ghost use Rattle.std.specs.Prelude.{◌≡◌, ◌<◌, ◌≤◌, OnOk};
ghost use Rattle.rsim_base.specs.Limits.{line_room, max_processors};
ghost use Rattle.machine_config.specs.Allowed.{IsAllowed};
ghost use Rattle.memory_contracts.specs.Carrier.{distance, flits_of, packet_flits};

use crate::message::MsgKind;
use machine_config::Config;
use rsim_base::Node;

/// The nodes of a machine row by row, and the units in which messages cross from one to another.
#[derive(Clone, Copy)]
pub struct Mesh {
    pub nodes: u32,
    /// How many nodes stand in a row.
    pub width: u32,
    pub flit_bytes: u32,
    pub line_bytes: u32,
    // The flits of a message without bytes, and of one that carries a line.
    bare_flits: u32,
    line_flits: u32,
    ghost columns: { 0 < width },
    ghost few: { nodes ≤ max_processors },
    ghost flits: { 0 < flit_bytes },
    ghost bare: { bare_flits ≡ packet_flits flit_bytes 0 },
    ghost line: { line_flits ≡ packet_flits flit_bytes line_bytes },
}

impl Mesh {
    /// The mesh of a configuration.
    pub fn make(config: &Config) -> Mesh
        requires { IsAllowed config.now }
        ensures nodes { result.nodes ≡ config.now.processors }
        ensures width { result.width ≡ config.now.mesh_width }
        ensures flit_bytes { result.flit_bytes ≡ config.now.flit_bytes }
        ensures line_bytes { result.line_bytes ≡ config.now.line }
    {
        Mesh {
            nodes: config.processors,
            width: config.mesh_width,
            flit_bytes: config.flit_bytes,
            line_bytes: config.line,
            bare_flits: packet_flits(config.flit_bytes, 0),
            line_flits: packet_flits(config.flit_bytes, config.line),
        }
    }

    /// How many links lie between two nodes.
    pub fn distance(&self, p: Node, q: Node) -> u32
        ensures { result ≡ distance self.now.width p.0 q.0 }
    {
        let (p, q) = (u32::from(p.0), u32::from(q.0));
        let columns = (p % self.width).abs_diff(q % self.width);
        let rows = (p / self.width).abs_diff(q / self.width);
        columns + rows
    }

    /// The length of such messages, in flits.
    pub fn flits(&self, kind: MsgKind) -> u32
        ensures { result ≡ flits_of self.now.flit_bytes self.now.line_bytes kind }
    {
        if kind.carries_bytes() {
            self.line_flits
        } else {
            self.bare_flits
        }
    }
}

// The flits of a message that carries so many bytes.
fn packet_flits(flit_bytes: u32, bytes: u32) -> u32
    requires some { 0 < flit_bytes }
    requires few { (flit_bytes ≤ 16) × (bytes ≤ line_room) }
    ensures { result ≡ packet_flits flit_bytes bytes }
{
    (8 + bytes).div_ceil(flit_bytes)
}
