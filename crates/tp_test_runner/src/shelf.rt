//! Values by their names.

use crate::fault::Fault;
use std::alloc::Global;

/// Values of one kind, each with its name.
#[derive(Drop)]
pub struct Shelf<T> {
    alloc: Global,
    values: Vec<(String, T)>,
}

impl<T: Drop> Shelf<T> {
    /// No values.
    pub fn new(alloc: Global) -> Shelf<T> {
        Shelf {
            alloc,
            values: Vec::new(alloc),
        }
    }

    /// Where the names lie.
    pub fn alloc(&self) -> Global {
        self.alloc
    }

    /// Forgets all values.
    pub fn clear(&mut self) {
        self.values.clear();
    }

    fn place(&self, name: &str) -> Option<usize> {
        self.values
            .iter()
            .position(|value| value.0.as_str() == name)
    }

    /// Whether there is one of that name.
    pub fn has(&self, name: &str) -> bool {
        self.place(name).is_some()
    }

    /// The value of that name.
    pub fn get(&self, name: &str) -> Result<&T, Fault> {
        match self.place(name) {
            Some(at) => match self.values.get(at) {
                Some(value) => Ok(&value.1),
                None => Err(Fault::Row("no such name")),
            },
            None => Err(Fault::Row("no such name")),
        }
    }

    /// The value of that name, to be changed.
    pub fn get_mut(&mut self, name: &str) -> Result<&mut T, Fault> {
        match self.place(name) {
            Some(at) => match self.values.get_mut(at) {
                Some(value) => Ok(&mut value.1),
                None => Err(Fault::Row("no such name")),
            },
            None => Err(Fault::Row("no such name")),
        }
    }

    /// Takes out the value of that name, with its name.
    pub fn take(&mut self, name: &str) -> Result<(String, T), Fault> {
        match self.place(name) {
            Some(at) if at < self.values.len() => Ok(self.values.swap_remove(at)),
            _ => Err(Fault::Row("no such name")),
        }
    }

    /// Puts a value with its name in, in the place of one of that name.
    pub fn put_back(&mut self, named: (String, T)) -> Result<(), Fault> {
        let _before = self.take(named.0.as_str());
        self.values.push(named)?;
        Ok(())
    }

    /// Gives a value a name, in the place of one of that name.
    pub fn put(&mut self, name: &str, value: T) -> Result<(), Fault> {
        let name = String::from_str(self.alloc, name)?;
        self.put_back((name, value))
    }

    /// The values with their names.
    pub fn all(&self) -> &[(String, T)] {
        self.values.as_slice()
    }
}
