//! A configuration of a model.
ghost use Rattle.std.specs.Prelude.{◌≡◌, ◌<◌, length, Some, slice_get};

use crate::List;

/// A configuration: each option of a model is on or off.
#[derive(Debug, Drop)]
pub struct Config {
    /// Whether the option of that number is on, for each option in the model's order.
    pub on: List<bool>,
}

impl Config {
    /// Whether the option of this number is on.
    pub fn is_on(&self, option: usize) -> bool
        requires { option < length self.now.on }
        ensures { slice_get self.now.on option ≡ Some result }
    {
        self.on.as_slice()[option]
    }
}
