//! What a processor is made with.

use nm_base::Geometry;
use nm_script::Line;

/// What a processor is made with.
#[derive(Clone, Copy)]
pub struct CpuMade<'a> {
    /// The geometry of its machine.
    pub geometry: &'a Geometry,
    /// Its number, that of an actor.
    pub number: u32,
    /// Its program.
    pub program: &'a [Line],
}
