//! Resources that borrow from the texts of which they were made, both stored by their path through
//! `&self`. The texts have their own map, which is made before the resources, because a resource
//! owns a list and so can't borrow from its own map.
use elsa::cell::{Fault, FrozenMap};
use std::alloc::{AllocError, Global};
use std::test::Fail;

/// The resource of a text: its first line, and all its lines, which it owns as a list.
#[derive(Drop)]
struct FluentResource<'t> {
    first: &'t str,
    lines: Vec<&'t str>,
}

/// The reason why there is no resource.
#[derive(Debug, Clone, Copy, PartialEq, Eq)]
enum ResourceFault {
    NotFound,
    /// The store couldn't take it.
    Store(Fault),
}

impl From<AllocError> for ResourceFault {
    fn from(error: AllocError) -> ResourceFault {
        ResourceFault::Store(Fault::from(error))
    }
}

impl From<Fault> for ResourceFault {
    fn from(fault: Fault) -> ResourceFault {
        ResourceFault::Store(fault)
    }
}

/// A store of each text that was read and each resource that was made, for the lifetime of the
/// texts.
#[derive(Drop)]
struct ResourceManager<'t> {
    alloc: Global,
    strings: &'t FrozenMap<String, String>,
    resources: FrozenMap<String, Box<FluentResource<'t>>>,
}

const FILES: [(&str, &str); 2] = [("en/menu", "open = Open\nquit = Quit"), ("en/empty", "")];

/// Reads the text at the path, and returns both.
fn read(alloc: Global, path: &str) -> Result<(String, String), ResourceFault> {
    for (name, text) in FILES {
        if name == path {
            return Ok((
                String::from_str(alloc, path)?,
                String::from_str(alloc, text)?,
            ));
        }
    }
    Err(ResourceFault::NotFound)
}

impl<'t> ResourceManager<'t> {
    fn new(alloc: Global, strings: &'t FrozenMap<String, String>) -> Result<Self, AllocError> {
        Ok(ResourceManager {
            alloc,
            strings,
            resources: FrozenMap::new(alloc)?,
        })
    }

    /// Returns the text at the path, which is read once.
    fn text_of(&self, path: &str) -> Result<&'t str, ResourceFault> {
        let text = self
            .strings
            .get_or_try_insert(path, || read(self.alloc, path))?;
        Ok(text.as_str())
    }

    /// Returns the resource at the path, which is made once.
    fn get_resource(&self, path: &str) -> Result<&FluentResource<'t>, ResourceFault> {
        if let Some(resource) = self.resources.get(path) {
            return Ok(&**resource);
        }
        let mut lines = Vec::new(self.alloc);
        for line in self.text_of(path)?.split('\n') {
            lines.push(line).map_err(AllocError::from)?;
        }
        let first = lines.first().copied().unwrap_or("");
        let Ok(resource) = Box::new(self.alloc, FluentResource { first, lines }) else {
            return Err(ResourceFault::from(AllocError));
        };
        let path = String::from_str(self.alloc, path)?;
        let resource = self.resources.insert(path, resource).map_err(Fault::from)?;
        Ok(&**resource)
    }
}

#[test]
fn a_resource_was_made_twice_or_of_another_text(rt: HostRuntime) -> Result<(), Fail> {
    let menu: [&str; 2] = ["open = Open", "quit = Quit"];
    let rows: [(&str, &[&str]); 2] = [("en/menu", &menu), ("en/empty", &[""])];
    for (path, lines) in rows {
        let strings = FrozenMap::new(rt.alloc())?;
        let manager = ResourceManager::new(rt.alloc(), &strings)?;
        for _ in 0..2 {
            let resource = manager.get_resource(path)?;
            let got = (resource.first, resource.lines.as_slice());
            assert_eq!(rt; got, (lines[0], lines));
        }
        assert_eq!(rt; (strings.len(), manager.resources.len()), (1, 1), "{path}");
    }
    Ok(())
}

#[test]
fn a_missing_resource_was_not_reported(rt: HostRuntime) -> Result<(), Fail> {
    let strings = FrozenMap::new(rt.alloc())?;
    let manager = ResourceManager::new(rt.alloc(), &strings)?;
    let fault = manager.get_resource("en/none").err();
    assert_eq!(rt; fault, Some(ResourceFault::NotFound));
    Ok(())
}
