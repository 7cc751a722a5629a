//! Interners. [`Interner`], for one thread, stores names of any length in an arena.
//! [`SharedInterner`], for several threads, copies its names or stores them in an arena.
//! [`ShardedInterner`] does the same in shards, for threads that often add names.
pub use elsa_interner::interner::{Interner, InternerReader, Symbol};
pub use elsa_lock_free_map::interner::{NameHandle, NamePass, SharedInterner};
pub use elsa_lock_free_map::name::{Name, NameFault};
pub use elsa_lock_free_map::place_text::TextBuffer;
pub use elsa_program::devices::{Counted, Failed, Sink, Source};
pub use elsa_program::engine::{EngineFault, intern_engine, intern_engine_with_hasher};
pub use elsa_shards::interner::{ShardedInterner, ShardedNameHandle};
