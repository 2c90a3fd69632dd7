// The values of variables.
ghost use Rattle.std.specs.Prelude.{◌≡◌, ℕ, ◌<◌, length, slice_set};
ghost use Rattle.pst_expr.specs.Value.{variable_value, element_value};

use std::marker::Model;

/// The value of each variable, by number. A variable may have no value, and one beyond the list has none.
#[derive(Debug, Drop)]
pub struct Env {
    values: Vec<Option<i64>>,
}

impl Model for Env {
    ghost use Rattle.std.specs.Prelude.{List, Option, ℤ};

    ghost Value = { List (Option ℤ) };

    ghost view = { λ e. e.values.items };
}

impl Env {
    /// The environment of these values. It takes no memory.
    pub fn new(values: Vec<Option<i64>>) -> Env
        ensures { result ≡ values.items }
    {
        Env { values }
    }

    /// The values, in a vector. It takes no memory.
    pub fn into_values(self) -> Vec<Option<i64>>
        ensures { result.items ≡ self }
    {
        self.values
    }

    /// The values.
    pub fn values(&self) -> &[Option<i64>]
        ensures { result.now ≡ self.now }
    {
        self.values.as_slice()
    }

    /// The value of a variable, `None` also beyond the list.
    pub fn get(&self, variable: u32) -> Option<i64>
        ensures { result ≡ variable_value self.now variable }
    {
        self.values.get(variable as usize).copied().flatten()
    }

    /// Gives a variable another value.
    pub fn set(&mut self, variable: u32, value: Option<i64>)
        requires { variable < length self.old }
        ensures { self.new ≡ slice_set self.old variable value }
    {
        self.values[variable as usize] = value;
    }

    /// The value of the element at `index` of the array of `count` elements that begins at `first`.
    pub fn element(&self, first: u32, count: u32, index: i64) -> Option<i64>
        ensures { result ≡ element_value self.now first count index }
    {
        if index < 0 || index >= i64::from(count) {
            return None;
        }
        let place = first as usize + index as usize;
        self.values.get(place).copied().flatten()
    }
}
