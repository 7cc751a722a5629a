//! A module: the paths that it imports, and its other lines.
use std::alloc::{AllocError, Global};

/// A module, as its file has it. It owns its paths.
#[derive(Drop)]
pub struct Module {
    /// The paths that it imports, in the order of its lines.
    pub imports: Vec<String>,
    /// The number of its other lines.
    pub lines: usize,
}

impl Module {
    /// Returns the module in a text. A line `import PATH` imports another module.
    ///
    /// # Errors
    /// Fails if an allocation fails.
    pub fn parse(alloc: Global, text: &str) -> Result<Module, AllocError> {
        let mut module = Module {
            imports: Vec::new(alloc),
            lines: 0,
        };
        for line in text.lines() {
            match line.strip_prefix("import ") {
                Some(path) => {
                    let path = String::from_str(alloc, path.trim())?;
                    module.imports.push(path).map_err(AllocError::from)?;
                }
                None => module.lines = module.lines.saturating_add(1),
            }
        }
        Ok(module)
    }
}
