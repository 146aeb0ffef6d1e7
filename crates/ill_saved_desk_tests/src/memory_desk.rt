//! Desks whose store is in memory.

use ill_saved::{AnyDesk, DeskFault, MemoryStore};

/// A desk whose store is in memory.
pub type MemoryDesk<H> = AnyDesk<H, MemoryStore>;

/// The new desk, or the fault and the store that was handed back.
pub type Begun<H> = Result<MemoryDesk<H>, (DeskFault, MemoryStore)>;
