//! The memory of a sheet.

ghost use Rattle.std.specs.Prelude.{◌≡◌, ◌≤◌, [], IfOk, vec_capacity};

use ruletext::ReadRule;
use std::alloc::{AllocError, Global};
use synthesis::workspace::Workspace;

/// The memory of a sheet: the tables that solve works in, and room for four added rules. It is made before a sheet is opened, so that no
/// call on a sheet allocates.
#[derive(Drop)]
pub struct Memory {
    pub workspace: Workspace,
    pub added: Vec<ReadRule>,
    ghost empty: { added.items ≡ [] },
    ghost room: { 4 ≤ vec_capacity added },
}

impl Memory {
    /// All of it, or none if there is too little.
    pub fn new(heap: Global) -> Result<Memory, AllocError>
        ensures { IfOk result (λ m. m.added.items ≡ []) }
    {
        let workspace = Workspace::new(heap)?;
        let added = Vec::with_capacity(heap, 4)?;
        Ok(Memory { workspace, added })
    }
}
