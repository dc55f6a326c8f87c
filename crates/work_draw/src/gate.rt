//! Who is told of what is drawn, and may hold it up.

/// Is told of each chunk, by the worker that checks it; shared between threads.
pub trait Gate {
    /// Before the first chunk, by whoever calls `check_each`: how many packages are asked for.
    fn start(&self, _all: u32) {}

    /// Before the chunk with this number, counted from 0, is checked. May wait.
    fn before(&self, number: u32);

    /// After all verdicts of the chunk were found. May wait.
    fn after(&self, number: u32);

    /// After the last chunk, also where memory was refused, by whoever called `check_each`.
    fn end(&self) {}
}

/// Lets every chunk through at once.
pub struct OpenGate;

impl Gate for OpenGate {
    fn before(&self, _number: u32) {}

    fn after(&self, _number: u32) {}
}
